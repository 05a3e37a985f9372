// Splitting an input that comes in chunks into lines, in bounded memory. The meaning is in specs/: `Lines` the lines of an input,
// `Split` what a step does.
ghost use Rattle.std.specs.Prelude.{true, ◌≡◌, ◌+◌, ◌≤◌, length, drop};
ghost use Rattle.log_line.specs.Line.{line_digits};
ghost use Rattle.log_line.specs.Split.{held_size, up_to_lf, lf_at, stride, took_line, taken};

use crate::LINE_DIGITS;
use bits::put;

// How much of the present line is held in the line's buffer; or that it is longer than any line that means something.
// Stays: no `Option`. A line that is too long is not a missing one: it will be refused.
#[derive(Clone, Copy, Debug, PartialEq, Eq)]
pub enum Held {
    Bytes(usize),
    Long,
}

// What is held after a step, and where in the chunk it stopped: at an LF, or at the chunk's end.
#[derive(Clone, Copy)]
pub struct Taken {
    pub held: Held,
    pub at: usize,
}

// Takes the chunk's bytes from `at` up to the next LF onto the line that is held.
// Stays: the chunk whole, and a place in it: a slice from there on would lose the place that the answer is told in.
pub fn split(held: Held, line: &mut [u8], chunk: &[u8], at: usize) -> Taken
    requires line_len { length line.old ≡ line_digits }
    requires size_le_line_digits { held_size held ≤ line_digits }
    requires at_in_bounds { at ≤ length chunk.now }
    ensures value { result ≡ taken held chunk.now at }
    ensures line_after { line.new ≡ took_line held (up_to_lf (drop at chunk.now)) line.old }
{
    let e = find_lf(chunk, at);
    let held = match held {
        Held::Bytes(size) if e - at <= LINE_DIGITS - size => {
            put(line, size, &chunk[at..e]);
            Held::Bytes(size + (e - at))
        }
        _ => Held::Long,
    };
    Taken { held: held, at: e }
}

// The bytes that are looked at at once.
const STRIDE: usize = 64;

// Where the first LF from `at` on stands, or the chunk's end. Most bytes of a log are digits, so they go by in strides that have no way out
// before their end, and become vector code: byte by byte, `replay` took nearly twice as long on the sample log.
// Stays: the place goes on by strides, and not by one.
fn find_lf(chunk: &[u8], at: usize) -> usize
    requires { at ≤ length chunk.now }
    ensures value { result ≡ lf_at chunk.now at }
    ensures lower_bound { (at ≤ result) × (result ≤ length chunk.now) }
{
    let mut i = at;
    while is_clear(chunk, i) {
        i += STRIDE;
    }
    find(chunk, i)
}

// The same, byte by byte.
fn find(chunk: &[u8], at: usize) -> usize
    requires { at ≤ length chunk.now }
    ensures value { result ≡ lf_at chunk.now at }
    ensures lower_bound { (at ≤ result) × (result ≤ length chunk.now) }
{
    for i in at..chunk.len() {
        if chunk[i] == 10 {
            return i;
        }
    }
    chunk.len()
}

// Whether a whole stride is left and has no LF.
fn is_clear(chunk: &[u8], at: usize) -> bool
    requires { at ≤ length chunk.now }
    ensures { (result ≡ true) → ((at + stride ≤ length chunk.now) × (lf_at chunk.now at ≡ lf_at chunk.now (at + stride))) }
{
    chunk.len() - at >= STRIDE && count_lf(chunk, at) == 0
}

// How many LF a stride has.
fn count_lf(chunk: &[u8], at: usize) -> u8
    requires { at + stride ≤ length chunk.now }
    ensures { (result ≡ 0) → (lf_at chunk.now at ≡ lf_at chunk.now (at + stride)) }
{
    let mut n: u8 = 0;
    for b in &chunk[at..at + STRIDE] {
        n += u8::from(*b == 10);
    }
    n
}
