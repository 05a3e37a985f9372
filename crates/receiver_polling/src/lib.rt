// While no packet is coming in, a start pulse alone means anything to the receiver. Up to the next one a write is its two lines, and the
// joypad index that P15 steps: what a game's ordinary polling is.
#![tactic(auto)]

ghost use Rattle.std.specs.Prelude.{◌<◌, ◌≤◌, ◌≡◌, length};
ghost use Rattle.receiver.specs.declared.Stage.TheVariants.{Receiving};
ghost use Rattle.receiver.specs.Rises.{rises};
ghost use Rattle.receiver_polling.specs.Passing.{lines_after, Passed};

use crate::fed::Fed;
use bits_eight::eight;
use receiver::lines::{both_high, index_after, p15_high};
use receiver_run::Lines;

pub mod fed;

pub fn wait(start: Fed, mask: u8, writes: &[u8]) -> Fed
    requires { (start.rx.stage ≡ Receiving → ⊥) × ((mask < 255) × (start.at ≤ length writes.now)) }
    ensures { Passed mask start.at start.rx start.lines writes.now result }
{
    let f = by_eight(start, mask, writes);
    by_one(f, mask, writes)
}

// Eight writes at a time, while none of them is a start pulse: 70 hex carries each line that is high into bit 7. With P15 a byte for
// each, it rises where it is high, less where it was high before; 256 being 1 modulo 255, a remainder counts.
fn by_eight(start: Fed, mask: u8, writes: &[u8]) -> Fed
    requires { (start.rx.stage ≡ Receiving → ⊥) × ((mask < 255) × (start.at ≤ length writes.now)) }
    ensures { Passed mask start.at start.rx start.lines writes.now result }
{
    let mut p15 = start.lines.p15;
    let mut both = start.lines.both;
    let mut n: u64 = 0;
    let mut i = start.at;
    // Stays: the place goes on by eight, and is told at either way out: with a `for` it would be counted by hand beside it.
    while writes.len() - i >= 8 {
        let x = eight(writes, i);
        if (x & 0x3030303030303030) + 0x7070707070707070 & 0x8080808080808080
            != 0x8080808080808080
        {
            break;
        }
        let high = (x & 0x2020202020202020) >> 5;
        n += high % 255 - (high & high >> 8) % 255 - (high & u64::from(p15));
        let last = writes[i + 7];
        p15 = p15_high(last);
        both = both_high(last);
        i += 8;
    }
    Fed {
        rx: start.rx,
        lines: Lines {
            p15,
            both,
            index: index_rises(start.lines.index, mask, n),
        },
        at: i,
    }
}

// The writes up to the next start pulse, one by one.
fn by_one(start: Fed, mask: u8, writes: &[u8]) -> Fed
    requires { (start.rx.stage ≡ Receiving → ⊥) × ((mask < 255) × (start.at ≤ length writes.now)) }
    ensures { Passed mask start.at start.rx start.lines writes.now result }
{
    let mut here = start.lines;
    for i in start.at..writes.len() {
        let v = writes[i];
        if v & 0x30 == 0 {
            return Fed {
                rx: start.rx,
                lines: here,
                at: i,
            };
        }
        here = after(here, mask, v);
    }
    Fed {
        rx: start.rx,
        lines: here,
        at: writes.len(),
    }
}

// The lines and the joypad index after a write.
pub fn after(lines: Lines, mask: u8, value: u8) -> Lines
    requires { lines.index < 255 }
    ensures { result ≡ lines_after lines mask value }
{
    Lines {
        p15: p15_high(value),
        both: both_high(value),
        index: index_after(lines.index, mask, lines.p15, value),
    }
}

// The joypad index after P15 rose n times. Under the masks that MLT_REQ sets it is told at once: of low bits the index counts, and
// under 2 it stays from the first rise on.
pub fn index_rises(index: u8, mask: u8, n: u64) -> u8
    requires { (index < 255) × (mask < 255) }
    ensures { result ≡ rises n index mask }
{
    if n == 0 {
        return index;
    }
    match mask {
        0 => 0,
        1 => (index & 1) + (n & 1) as u8 & 1,
        2 => index + 1 & 2,
        3 => (index & 3) + (n & 3) as u8 & 3,
        _ => {
            let mut x = index;
            for _ in 0..n {
                x = (x + 1) & mask;
            }
            x
        }
    }
}
