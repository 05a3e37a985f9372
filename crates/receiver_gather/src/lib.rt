// Data pulses by the word: 64 of them, four at a time, as long as each has its release.
#![tactic(auto)]

ghost use Rattle.std.specs.Prelude.{◌≤◌, length};
ghost use Rattle.receiver_gather.specs.Words.{Gave};

use bits_eight::eight;

// Pulses that were taken: their bits as a number, how many, the ones among them, and the place after them.
#[derive(Clone, Copy)]
pub struct Gathered {
    pub word: u64,
    pub count: u8,
    pub ones: u8,
    pub at: usize,
}

// Four pulses with their releases are the word's four lanes of sixteen bits. A lane's high byte has both lines high, and of its low
// byte's bits 4 and 5 just one is set. Bit 4 is the data bit: folded by remainders, 65536 being 2 modulo 32767 and 1 modulo 65535.
pub fn gather(writes: &[u8], from: usize) -> Gathered
    requires { from ≤ length writes.now }
    ensures { Gave writes.now from result }
{
    if writes.len() - from < 128 {
        return Gathered {
            word: 0,
            count: 0,
            ones: 0,
            at: from,
        };
    }
    let mut word: u64 = 0;
    let mut count: u8 = 0;
    let mut ones: u8 = 0;
    let mut i = from;
    // Stays: what is counted goes on by four and the place by eight, and both are told at each way out: a `for` would count them by hand beside it.
    while count < 64 {
        let x = eight(writes, i);
        if x & 0x3000300030003000 != 0x3000300030003000 {
            break;
        }
        let g = x >> 4 & 0x0001000100010001;
        let h = x >> 5 & 0x0001000100010001;
        if g + h != 0x0001000100010001 {
            break;
        }
        word |= (g % 32767) << count;
        ones += (g % 65535) as u8;
        count += 4;
        i += 8;
    }
    Gathered {
        word,
        count,
        ones,
        at: i,
    }
}
