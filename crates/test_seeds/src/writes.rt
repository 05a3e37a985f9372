// Joypad writes: a round's command as pulses, with a fault in the later rounds; then lines at random, and polling.
ghost use Rattle.std.specs.Prelude.{◌≡◌, ◌<◌, ◌≤◌, length};
ghost use Rattle.parts.specs.Parts.{store_bytes};

use crate::{below, byte, step, stream};

// Each byte once, in an order in which neighbours differ in their code; later any code with one packet or three.
pub fn first_of(round: usize) -> u8 {
    let any = byte(stream(round, 0));
    if round % 2 == 1 {
        return any % 24 * 8 + 1;
    }
    if round < 512 {
        return (round / 2 * 77 % 256) as u8;
    }
    any & 0xFB | 1
}

// The round's writes; answers how many.
pub fn plan(round: usize, first: u8, sent: &mut [u8], writes: &mut [u8]) -> usize
    requires { (length sent.old ≡ store_bytes) × (length writes.old ≡ 1916) }
    ensures { result ≤ 1916 }
{
    let n = packets(first);
    make(stream(round, 1), first, &mut sent[0..16 * n]);
    encode(first, &sent[0..16 * n], writes);
    let end = spoil(round, &mut writes[0..260 * n]);
    end + idle(stream(round, 3), &mut writes[end..end + 96])
}

// As many packets as are sent: a command whose count is 0 takes one, too.
fn packets(first: u8) -> usize
    ensures { (0 < result) × (result < 8) }
{
    match first % 8 {
        0 => 1,
        n if first < 0xF0 => usize::from(n),
        _ => 1,
    }
}

// Whether the count is 0.
fn empty(first: u8) -> bool {
    first < 0xF0 && first % 8 == 0
}

// A command of noise, or of data nearer to the map than noise is. The encoder refuses a count of 0, so it is given 1.
fn make(from: u64, first: u8, d: &mut [u8]) {
    let shaped = byte(from) < 128;
    let mut x = from;
    for (i, b) in d.iter_mut().enumerate() {
        x = step(x);
        *b = data(first, i, byte(x), shaped);
    }
}

fn data(first: u8, i: usize, noise: u8, shaped: bool) -> u8 {
    match i {
        0 if empty(first) => first | 1,
        0 => first,
        _ if shaped => noise & mask(first >> 3, i),
        _ => noise,
    }
}

// ATTR_BLK's count and corners, ATTR_DIV's line and ATTR_CHR's start below 32; ATTR_CHR's count below 512, along rows or down columns.
fn mask(code: u8, i: usize) -> u8 {
    match (code, i) {
        // control and palettes stand at 2 and 3 of every six
        (4, _) if i % 6 / 2 != 1 => 0x1F,
        (6, 2) => 0x1F,
        (7, 0..3) => 0x1F,
        (7, 4 | 5) => 1,
        _ => 0xFF,
    }
}

// The pulses of the command; a count of 0 is that of 1 with its one bit cleared.
fn encode(first: u8, d: &[u8], writes: &mut [u8])
    requires { length writes.old ≡ 1916 }
{
    let _ = pulses::encode(d, writes);
    if empty(first) {
        writes[2] = 0x20;
    }
}

// In every second of the later rounds one write is changed, or the command is cut short there. Answers how many writes are left.
fn spoil(round: usize, writes: &mut [u8]) -> usize
    requires { 0 < length writes.old }
    ensures { result ≤ length writes.old }
{
    let n = writes.len();
    if sound(round) {
        return n;
    }
    let x = stream(round, 2);
    let at = below(x, n);
    let how = byte(x) & 0x30;
    if how == 0 {
        return at;
    }
    writes[at] ^= how;
    n
}

fn sound(round: usize) -> bool {
    round < 512 || round % 2 == 1
}

// Lines at random, none in every second round; then polling, in which P15 rises at every fourth write. Answers how many.
fn idle(from: u64, out: &mut [u8]) -> usize
    ensures { result ≤ 96 }
{
    let noisy = lines(below(from, 64));
    let mut x = from;
    for (i, write) in out.iter_mut().enumerate() {
        x = step(x);
        *write = wait(i, noisy, byte(x));
    }
    noisy + below(x, 65)
}

fn lines(n: usize) -> usize
    ensures { result < 32 }
{
    if n < 32 { n } else { 0 }
}

fn wait(i: usize, noisy: usize, noise: u8) -> u8 {
    match i % 4 {
        _ if i < noisy => noise,
        1 => 0x20,
        2 => 0x10,
        _ => 0x30,
    }
}
