// The calls that only look: the mask, the backdrop, single colours and map words, a row, and at every fourth round the picture.
use crate::digest::{all, number};
use colour::Rgb555;
use refusal::Refusal;
use test_seeds::{below, byte, step, stream};

pub fn look(round: usize, block: &[u8], h: u64) -> u64 {
    let x = stream(round, 5);
    let a = told(h, view::mask_mode(block), count);
    let b = told(a, view::backdrop(block), colour);
    let c = some(b, block, x);
    let d = row(c, block, below(x, 224));
    if round % 4 == 3 { picture(d, block) } else { d }
}

fn some(h: u64, block: &[u8], from: u64) -> u64 {
    let mut x = from;
    let mut d = h;
    for _ in 0..8 {
        x = step(x);
        d = at(d, block, x);
    }
    d
}

// A shade's colour, a map word and the border's colour, somewhere.
fn at(h: u64, block: &[u8], x: u64) -> u64 {
    let y = step(x);
    let z = step(y);
    let shown = view::color_at(block, below(x, 160), below(y, 144), byte(z) & 3);
    let word = view::map_entry(block, below(x, 32), below(y, 28));
    let around = view::border_color_at(block, below(y, 256), below(z, 224));
    let a = told(h, shown, colour);
    let b = told(a, word, |word| u64::from(word.0));
    told(b, around, border)
}

fn row(h: u64, block: &[u8], y: usize) -> u64 {
    let mut out = [0u16; 256];
    let d = told(h, view::row(block, y, &mut out), count);
    all(d, &out)
}

fn picture(h: u64, block: &[u8]) -> u64 {
    let mut out = [0u16; 57344];
    let d = told(h, view::picture(block, &mut out), count);
    all(d, &out)
}

// A value by its number; a refusal n is 0x80000000 + n, which no answer is.
fn told<T, F: FnOnce(T) -> u64>(h: u64, answer: Result<T, Refusal>, value: F) -> u64
    requires { F.IsAlwaysCallable value }
{
    number(
        h,
        answer.map_or_else(|n| 0x80000000 + u64::from(n.code()), value),
    )
}

fn count(n: usize) -> u64 {
    n as u64
}

fn colour(c: Rgb555) -> u64 {
    u64::from(c.0)
}

// Transparent is 0x40000000.
fn border(c: Option<Rgb555>) -> u64 {
    c.map_or(0x40000000, colour)
}
