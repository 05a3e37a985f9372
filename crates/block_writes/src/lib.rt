// Writes on a valid block: many in a row up to the next command, or one alone. The receiver is held in locals, and goes back into the block
// once, where a command is complete or the writes end. RULES 3.10. The meaning is `played` in specs/Play, and the rules of a write.
// Stays: that the block is valid is a clause. In a struct that holds the `&mut` each worker would tell in its place that it holds the same borrow,
// and owe the proof that `good-valid` has once.
#![tactic(auto)]

ghost use Rattle.std.specs.Prelude.{◌≡◌, ◌≤◌, length};
ghost use Rattle.parts.specs.Parts.{store_bytes};
ghost use Rattle.layout.specs.Block.{load, save};
ghost use Rattle.layout.specs.Valid.{Valid};
ghost use Rattle.rules.specs.Write.{written, answer};
ghost use Rattle.block_port.specs.Bytes.{handed, packets_some};
ghost use Rattle.receiver.specs.Store.{packets_if};
ghost use Rattle.receiver_run.specs.Run.{runs, port_of, ended_of, Ready};
ghost use Rattle.block_writes.specs.Play.{played};
ghost use Rattle.block_writes.specs.Ran.{ran_to, ran_unit, handed_over, command_of};

use block_command::carry_front;
use block_port::{hand_over, load_lines, load_receiver, save_lines, save_receiver};
use receiver::Receiver;
use receiver_run::{Lines, Ran};

// After how many writes it ended, and the packets of the command that the last of them completed.
#[derive(Clone, Copy)]
pub struct Played {
    pub at: usize,
    pub packets: Option<u8>,
}

// A command that is complete stands at the front of the buffer, and has been carried out.
pub fn play(block: &mut [u8], writes: &[u8], command: &mut [u8]) -> Played
    requires { Valid block.old × (store_bytes ≤ length command.old) }
    ensures at_value { result.at ≡ (played (load block.old) writes.now).at }
    ensures packets_value { result.packets ≡ packets_some (played (load block.old) writes.now).told }
    ensures block_after { block.new ≡ save (played (load block.old) writes.now).unit }
    ensures command_after { command.new ≡ handed (played (load block.old) writes.now).told command.old }
{
    let p = play_port(block, writes, command);
    if let Some(n) = p.packets {
        carry_front(block, command, n);
    }
    p
}

// One write alone: the packets of the command that it completes.
pub fn write(block: &mut [u8], value: u8, command: &mut [u8]) -> Option<u8>
    requires { Valid block.old × (store_bytes ≤ length command.old) }
    ensures value { result ≡ packets_some (answer (load block.old) value) }
    ensures block_after { block.new ≡ save (written (load block.old) value) }
    ensures command_after { command.new ≡ handed (answer (load block.old) value) command.old }
{
    let one = [value];
    let p = play(block, &one, command);
    p.packets
}

// Writes in a row, up to where the command is carried out.
fn play_port(block: &mut [u8], writes: &[u8], command: &mut [u8]) -> Played
    requires { Valid block.old × (store_bytes ≤ length command.old) }
    ensures at_value { result.at ≡ (ran_to (load block.old) writes.now).at }
    ensures packets_value { result.packets ≡ packets_if (ran_to (load block.old) writes.now).packets }
    ensures block_after { block.new ≡ save (ran_unit (load block.old) (ran_to (load block.old) writes.now)) }
    ensures command_after { command.new ≡ handed (command_of (ran_to (load block.old) writes.now)) command.old }
{
    let rx = load_receiver(block);
    let lines = load_lines(block);
    let mask = block[parts::PADS];
    let r = run_on(
        rx,
        lines,
        mask,
        writes,
        &mut block[parts::STORE..parts::PRESET],
        command,
    );
    save_receiver(block, r.rx);
    save_lines(block, r.lines);
    Played {
        at: r.at,
        packets: r.packets,
    }
}

// A run, with the command that it completed handed over.
// Stays: six parameters. Store and buffer are lent from two owners, and `Ready` and `runs` take the others one by one.
fn run_on(
    start: Receiver,
    lines: Lines,
    mask: u8,
    writes: &[u8],
    store: &mut [u8],
    command: &mut [u8],
) -> Ran
    requires { Ready (port_of start lines store.old) lines.index mask × (store_bytes ≤ length command.old) }
    ensures store_after { ended_of result store.new ≡ handed_over (runs mask 0 lines.index (port_of start lines store.old) writes.now) }
    ensures packets_value { result.packets ≡ packets_if (runs mask 0 lines.index (port_of start lines store.old) writes.now).packets }
    ensures command_after { command.new ≡ handed (command_of (runs mask 0 lines.index (port_of start lines store.old) writes.now)) command.old }
{
    let r = receiver_fast::run_fast(start, lines, mask, writes, store);
    hand_over(r.packets, store, command);
    r
}
