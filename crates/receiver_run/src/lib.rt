// A run of writes over one receiver that is held in locals, until a command completes or the writes end.
// RULES 3. What it does to the block, and the command it completes, are the caller's: the packet store alone is lent.
#![tactic(auto)]

ghost use Rattle.std.specs.Prelude.{◌≡◌};
ghost use Rattle.receiver.specs.Store.{packets_if};
ghost use Rattle.receiver_run.specs.Run.{runs, port_of, ended_of, Ready};

use receiver::Receiver;
use receiver::lines::{both_high, index_after, p15_high};
use receiver::store::file;

// The lines and the joypad index between two writes.
// Stays: two flags. The definitions `Port` and `port_of` take the two as Bools.
#[derive(Clone, Copy)]
pub struct Lines {
    pub p15: bool,
    pub both: bool,
    pub index: u8,
}

// Where a run ended: after `at` writes, with a command of so many packets in the store, or with none at the end of the writes.
#[derive(Clone, Copy)]
pub struct Ran {
    pub rx: Receiver,
    pub lines: Lines,
    pub at: usize,
    pub packets: Option<u8>,
}

pub fn run(start: Receiver, lines: Lines, mask: u8, writes: &[u8], store: &mut [u8]) -> Ran
    requires { Ready (port_of start lines store.old) lines.index mask }
    ensures ended { ended_of result store.new ≡ runs mask 0 lines.index (port_of start lines store.old) writes.now }
    ensures completed { result.packets ≡ packets_if (runs mask 0 lines.index (port_of start lines store.old) writes.now).packets }
{
    let mut rx = start;
    // Stays: three variables and not one `Lines`, by which who asks for the commands alone takes a quarter to a half longer: less is left out of what he doesn't ask.
    let mut p15 = lines.p15;
    let mut both = lines.both;
    let mut index = lines.index;
    for (i, v) in writes.iter().enumerate() {
        index = index_after(index, mask, p15, *v);
        let w = rx.write(*v, both);
        let packets = file(w, rx.lo, rx.hi, store);
        rx = w.next;
        p15 = p15_high(*v);
        both = both_high(*v);
        if packets.is_some() {
            return Ran {
                rx,
                lines: Lines { p15, both, index },
                at: i + 1,
                packets,
            };
        }
    }
    Ran {
        rx,
        lines: Lines { p15, both, index },
        at: writes.len(),
        packets: None,
    }
}
