// The port's bytes of the block: the receiver, the two lines and the joypad index out of them and back, and a complete command from the
// packet store into the caller's buffer. RULES 1.4, 1.5 and 3. The meaning is in specs/Bytes.
// Stays: the block's length is a clause. Each caller is lent a slice, and would turn it into an array at each call by a conversion whose failure it has
// to rule out, which is no plainer.
#![tactic(auto)]

ghost use Rattle.std.specs.Prelude.{◌≡◌, ◌≤◌, ◌<◌, length};
ghost use Rattle.parts.specs.Parts.{block_bytes, store_bytes};
ghost use Rattle.layout.specs.Block.{load, stage_of};
ghost use Rattle.receiver.specs.Receive.{rx_of};
ghost use Rattle.receiver.specs.Store.{number_if};
ghost use Rattle.block_port.specs.Bytes.{lines_of, put_receiver, put_lines, handed, taken_by, settled_by};

use bits::{clear, put};
use block_packet::{half, put_half};
use receiver::{Receiver, Stage, stage_number};
use receiver_run::Lines;

pub fn load_receiver(block: &[u8]) -> Receiver
    requires { length block.now ≡ block_bytes }
    ensures { rx_of result ≡ (load block.now).port.rx }
{
    Receiver {
        stage: stage_of(block[parts::STAGE]),
        expected: block[parts::EXPECTED],
        received: block[parts::RECEIVED],
        bits: block[parts::BITS],
        lo: half(block, parts::PACKET),
        hi: half(block, parts::PACKET + 8),
    }
}

#[tactic(auto, unfolding(layout::specs::Block::stage_of))]
// Stays: of any number, since a block that is not valid is loaded too; `TryFrom` would refuse those past the last.
fn stage_of(number: u8) -> Stage
    ensures { result ≡ stage_of number }
{
    match number {
        0 => Stage::Idle,
        1 => Stage::Receiving,
        _ => Stage::Awaiting,
    }
}

pub fn load_lines(block: &[u8]) -> Lines
    requires { length block.now ≡ block_bytes }
    ensures { result ≡ lines_of (load block.now) }
{
    Lines {
        p15: block[parts::P15] == 1,
        both: block[parts::BOTH] == 1,
        index: block[parts::INDEX],
    }
}

// A complete command goes on from the store into the buffer, and leaves the store empty.
pub fn hand_over(packets: Option<u8>, store: &mut [u8], command: &mut [u8])
    requires { (number_if packets < 8) × ((length store.old ≡ store_bytes) × (store_bytes ≤ length command.old)) }
    ensures store_after { store.new ≡ settled_by packets store.old }
    ensures command_after { command.new ≡ handed (taken_by packets store.old) command.old }
{
    if let Some(n) = packets {
        put(command, 0, &store[..16 * usize::from(n)]);
        clear(store);
    }
}

pub fn save_receiver(block: &mut [u8], rx: Receiver)
    requires { length block.old ≡ block_bytes }
    ensures { block.new ≡ put_receiver (rx_of rx) block.old }
{
    block[parts::STAGE] = stage_number(rx.stage);
    block[parts::EXPECTED] = rx.expected;
    block[parts::RECEIVED] = rx.received;
    block[parts::BITS] = rx.bits;
    put_half(block, parts::PACKET, rx.lo);
    put_half(block, parts::PACKET + 8, rx.hi);
}

pub fn save_lines(block: &mut [u8], lines: Lines)
    requires { length block.old ≡ block_bytes }
    ensures { block.new ≡ put_lines lines block.old }
{
    block[parts::INDEX] = lines.index;
    block[parts::P15] = u8::from(lines.p15);
    block[parts::BOTH] = u8::from(lines.both);
}
