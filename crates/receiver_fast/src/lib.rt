// `receiver_run::run` with the same contract, word for word, and whole words of data pulses at once; while no packet is coming in it looks for
// the next start pulse alone. Below it are the words (`receiver_gather`) and the wait (`receiver_polling`). The figures are in docs/BENCH.md.
#![tactic(auto)]

ghost use Rattle.std.specs.Prelude.{◌≡◌, ◌<◌, ◌≤◌, length};
ghost use Rattle.receiver.specs.declared.Stage.TheVariants.{Receiving};
ghost use Rattle.receiver.specs.Store.{packets_if};
ghost use Rattle.receiver_run.specs.Run.{runs, port_of, ended_of, Ready};
ghost use Rattle.receiver_polling.specs.Passing.{Passed};
ghost use Rattle.receiver_fast.specs.Fast.{released};

use bits_eight::eight;
use receiver::store::file;
use receiver::{Receiver, Stage};
use receiver_gather::gather;
use receiver_polling::fed::Fed;
use receiver_polling::{after, index_rises, wait};
use receiver_run::{Lines, Ran};

// Runs the writes until a command completes or they end.
// Stays: three variables and not one `Fed`, by which lines at random take a sixth more instructions: 29.3 million for 131,072 writes, where
// these take 25.3.
pub fn run_fast(start: Receiver, lines: Lines, mask: u8, writes: &[u8], store: &mut [u8]) -> Ran
    requires { Ready (port_of start lines store.old) lines.index mask }
    ensures ended { ended_of result store.new ≡ runs mask 0 lines.index (port_of start lines store.old) writes.now }
    ensures completed { result.packets ≡ packets_if (runs mask 0 lines.index (port_of start lines store.old) writes.now).packets }
{
    let mut rx = start;
    let mut lines = lines;
    let mut at: usize = 0;
    // Stays: the place goes on by strides, and not by one.
    while at < writes.len() {
        let f = skip(Fed { rx, lines, at }, mask, writes);
        if f.at > at {
            rx = f.rx;
            lines = f.lines;
            at = f.at;
        } else {
            let v = writes[at];
            let w = rx.write(v, lines.both);
            let packets = file(w, rx.lo, rx.hi, store);
            rx = w.next;
            lines = after(lines, mask, v);
            at += 1;
            if packets.is_some() {
                return Ran {
                    rx,
                    lines,
                    at,
                    packets,
                };
            }
        }
    }
    Ran {
        rx,
        lines,
        at,
        packets: None,
    }
}

// By the stage: up to the next start pulse, or a word of a packet's data pulses, as far as they are well formed. Kept small: it is
// asked at every write, and each way is called in one place, so that what it answers stays in registers.
fn skip(start: Fed, mask: u8, writes: &[u8]) -> Fed
    requires { (mask < 255) × (start.at ≤ length writes.now) }
    ensures { Passed mask start.at start.rx start.lines writes.now result }
{
    if start.rx.stage == Stage::Receiving {
        feed_on(start, mask, writes)
    } else {
        wait(start, mask, writes)
    }
}

// Where both lines are high and data pulses are in sight: a word of them.
fn feed_on(start: Fed, mask: u8, writes: &[u8]) -> Fed
    requires { (start.rx.stage ≡ Receiving) × ((mask < 255) × (start.at ≤ length writes.now)) }
    ensures { Passed mask start.at start.rx start.lines writes.now result }
{
    if start.lines.both && start.lines.p15 && in_sight(start.rx.bits, writes, start.at) {
        feed(start, mask, writes)
    } else {
        start
    }
}

// Whether a word of a packet may begin here: of its four first pulses each has its release. Only a guess, so that lines at random
// cost no more than this look.
fn in_sight(bits: u8, writes: &[u8], from: usize) -> bool
    requires { from ≤ length writes.now }
{
    bits & 0x3F == 0
        && writes.len() - from >= 8
        && eight(writes, from) & 0x3000300030003000 == 0x3000300030003000
}

// While a packet is coming in and both lines are high: a word of data pulses at once, where a word begins.
fn feed(start: Fed, mask: u8, writes: &[u8]) -> Fed
    requires { ((start.rx.stage ≡ Receiving) × (start.lines ≡ released start.lines.index)) × ((mask < 255) × (start.at ≤ length writes.now)) }
    ensures { Passed mask start.at start.rx start.lines writes.now result }
{
    let rx = start.rx;
    let g = gather(writes, start.at);
    let joined = |bits: u8, lo: u64, hi: u64| Receiver {
        stage: Stage::Receiving,
        expected: rx.expected,
        received: rx.received,
        bits,
        lo,
        hi,
    };
    let next = match rx.bits {
        0 => joined(g.count, g.word, 0),
        64 => joined(64 + g.count, rx.lo, g.word),
        _ => return start,
    };
    Fed {
        rx: next,
        lines: released(index_rises(start.lines.index, mask, u64::from(g.ones))),
        at: g.at,
    }
}

// Both lines high.
fn released(index: u8) -> Lines
    ensures { result ≡ released index }
{
    Lines {
        p15: true,
        both: true,
        index,
    }
}
