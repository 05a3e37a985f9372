// A log of writes through the receiver alone, by the plain run or by the fast one, for times and for a look at both.
ghost use Rattle.std.specs.Prelude.{◌≡◌};
ghost use Rattle.receiver_run.specs.Run.{runs, port_of, ended_of, Ready};

use receiver::Receiver;
use receiver_run::{Lines, Ran};

// From `post_boot`'s receiver with four joypads, each command dropped as it completes. Answers how many there were, times 256, and
// the last bit index.
#[unsafe(no_mangle)]
pub extern "C" fn probe_log(fast: u8, writes: &[u8], store: &mut [u8]) -> usize {
    if store.len() != parts::STORE_BYTES {
        return 0;
    }
    let mut rx = Receiver::new();
    let mut lines = Lines {
        p15: true,
        both: true,
        index: 0,
    };
    let mut at: usize = 0;
    let mut total: usize = 0;
    // Stays: a `for` is no plainer, since a turn takes as many writes as its run took, and nothing is counted by one.
    while at < writes.len() {
        let r = either(fast == 1, rx, lines, &writes[at..], store);
        rx = r.rx;
        lines = r.lines;
        at += r.at;
        if r.packets.is_some() {
            total = (total + 1) & 0xFFFFFFFF;
        }
    }
    total << 8 | usize::from(rx.bits)
}

fn either(fast: bool, rx: Receiver, lines: Lines, writes: &[u8], store: &mut [u8]) -> Ran
    requires { Ready (port_of rx lines store.old) lines.index 3 }
    ensures { ended_of result store.new ≡ runs 3 0 lines.index (port_of rx lines store.old) writes.now }
{
    if fast {
        receiver_fast::run_fast(rx, lines, 3, writes, store)
    } else {
        receiver_run::run(rx, lines, 3, writes, store)
    }
}
