// The leaves that every other crate stands on: words, packed pairs, plane bytes, copying into a part, a test for zeros.
// The meaning is in specs/, the laws in proofs/.
// Stays: words by shifts and masks, and no `from_le_bytes`: a rule of the project (docs/DECISIONS.md, Leaves over bytes).
#![tactic(auto)]

ghost use Rattle.std.specs.Prelude.{◌≡◌, ◌+◌, ◌<◌, ◌≤◌, length, replicate};
ghost use Rattle.bits.specs.Word.{word, low_byte, high_byte};
ghost use Rattle.bits.specs.Pair.{pair_of};
ghost use Rattle.bits.specs.Plane.{nibble_of, plane_of, spread_of, four_of};
ghost use Rattle.bits.specs.Over.{over};
ghost use Rattle.bits.specs.Zero.{zeros};

// The word of two bytes.
pub fn word(low: u8, high: u8) -> u16
    ensures { result ≡ word low high }
{
    u16::from(high) << 8 | u16::from(low)
}

pub fn low_byte(w: u16) -> u8
    ensures { result ≡ low_byte w }
{
    (w & 0xFF) as u8
}

pub fn high_byte(w: u16) -> u8
    ensures { result ≡ high_byte w }
{
    (w >> 8) as u8
}

// Pair j of a packed byte, the first in the high bits.
pub fn pair(x: u8, j: u8) -> u8
    requires { j < 4 }
    ensures { result ≡ pair_of x j }
{
    x >> (6 - 2 * j) & 3
}

// The low plane of the eight pixels that a and b pack.
pub fn low_plane(a: u8, b: u8) -> u8
    ensures { result ≡ plane_of 0 a b }
{
    squeeze(a) << 4 | squeeze(b)
}

// Their high plane.
pub fn high_plane(a: u8, b: u8) -> u8
    ensures { result ≡ plane_of 1 a b }
{
    squeeze(a >> 1) << 4 | squeeze(b >> 1)
}

// The low bits of the four pairs side by side: neighbours first, then both halves. No branch follows the pixels.
fn squeeze(x: u8) -> u8
    ensures { result ≡ nibble_of 0 x }
{
    let e = x & 0x55;
    let p = (e >> 1 | e) & 0x33;
    (p >> 2 | p) & 0x0F
}

// The four left pixels of the eight whose plane bytes these are, packed.
pub fn left_four(low: u8, high: u8) -> u8
    ensures { result ≡ four_of 0 low high }
{
    spread(high >> 4) << 1 | spread(low >> 4)
}

// The four right ones.
pub fn right_four(low: u8, high: u8) -> u8
    ensures { result ≡ four_of 1 low high }
{
    spread(high) << 1 | spread(low)
}

// `squeeze` undone: the low four bits, each in the low bit of its pair. Both halves first, then neighbours.
fn spread(x: u8) -> u8
    ensures { result ≡ spread_of x }
{
    let n = x & 0x0F;
    let p = (n << 2 | n) & 0x33;
    (p << 1 | p) & 0x55
}

// All of src into dst, from `at` on.
// Stays: a place beside what is lent, since `over at` is what every contract of a part that is written cites; and byte by byte, since
// the library's copy makes the archive for C want memmove from outside, beside memcpy.
pub fn put(dst: &mut [u8], at: usize, src: &[u8])
    requires { at + length src.now ≤ length dst.old }
    ensures { dst.new ≡ over at (length src.now) src.now dst.old }
{
    for i in 0..src.len() {
        dst[at + i] = src[i];
    }
}

// Nothing but zeros into s.
pub fn clear(s: &mut [u8])
    ensures { s.new ≡ replicate (length s.old) 0 }
{
    s.fill(0);
}

// Whether s has nothing but zeros. There is no way out before the end, so that many are looked at at once: a block with no frozen capture
// has 5,760 zeros, and every public call looks at them.
pub fn all_zero(s: &[u8]) -> bool
    ensures { result ≡ zeros s.now }
{
    let mut all: u8 = 0;
    for b in s {
        all |= *b;
    }
    all == 0
}
