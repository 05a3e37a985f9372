// Looking for the byte of a block that breaks a rule: the lower of two, zeros that aren't, packet bits past the bit index. What is looked for
// where is the crate `block_broken`; it is asked only of a block that is not valid, so that a valid one is checked as quickly as without it.
// The meaning is `Broken` in the crate `broken`.
#![tactic(auto)]

ghost use Rattle.std.specs.Prelude.{◌≡◌, ◌+◌, ◌-◌, ◌/◌, ◌^◌, ◌<◌, ◌≤◌, leb, length};
ghost use Rattle.parts.specs.Parts.{block_bytes, header_bytes, packet_at, packet_bytes};
ghost use Rattle.layout.specs.Block.{byte};
ghost use Rattle.bits.specs.Over.{part};
ghost use Rattle.broken.specs.Broken.{asked, zero_at, byte_of, lower, lowest, zero_from, clear_from};
ghost use Rattle.block_found.specs.Found.{found_told, first_set};

use bits::all_zero;
use block_valid::Front;

// What is found is the offset of a byte, or none where nothing is broken.
// Stays: `holds` is what was asked, as `Asked` has it, and no choice of what to do.
pub fn unless(holds: bool, at: u16) -> Option<u16>
    ensures { found_told result ≡ byte_of (asked at holds) }
{
    if holds { None } else { Some(at) }
}

// A byte of the header that is to be at most so much, and one that is to be zero.
pub fn at_most(front: Front, at: usize, most: u8) -> Option<u16>
    requires { at < header_bytes }
    ensures { found_told result ≡ byte_of (asked at (leb (byte at front.entry.bytes.now) most)) }
{
    unless(front.bytes[at] <= most, at as u16)
}

pub fn zero_at(front: Front, at: usize) -> Option<u16>
    requires { at < header_bytes }
    ensures { found_told result ≡ byte_of (zero_at at front.entry.bytes.now) }
{
    unless(front.bytes[at] == 0, at as u16)
}

pub fn lower(a: Option<u16>, b: Option<u16>) -> Option<u16>
    ensures { found_told result ≡ lower (found_told a) (found_told b) }
{
    match (a, b) {
        (Some(i), Some(j)) => Some(i.min(j)),
        (Some(i), None) => Some(i),
        (None, _) => b,
    }
}

// How many zeros stand before the first byte that isn't zero: in steps that get shorter, since many bytes are looked at at once. So it takes no
// longer than to look whether all are zero.
pub fn first_set(s: &[u8]) -> usize
    ensures { result ≡ first_set s.now }
{
    let a = skip(s, 0, 512);
    let b = skip(s, a, 64);
    let c = skip(s, b, 16);
    let d = skip(s, c, 4);
    skip(s, d, 1)
}

// Goes on from a place before which there is nothing but zeros, as long as the next `size` bytes are zero.
// Stays: its answer is the place, which a loop over `chunks_exact(size)` would count by hand as well.
fn skip(s: &[u8], from: usize, size: usize) -> usize
    requires { (from ≤ first_set s.now) × (1 ≤ size) }
    ensures { (result ≤ first_set s.now) × (first_set s.now < result + size) }
{
    let mut at = from;
    while s.len() - at >= size {
        if !all_zero(&s[at..at + size]) {
            return at;
        }
        at += size;
    }
    at
}

// The first byte of a part that isn't zero.
pub fn set_in(block: &[u8], from: usize, to: usize) -> Option<u16>
    requires { (from ≤ to) × ((to ≤ length block.now) × (length block.now ≤ block_bytes)) }
    ensures { found_told result ≡ lowest (zero_from from (part from (to - from) block.now)) }
{
    let n = first_set(&block[from..to]);
    if n < to - from {
        return Some((from + n) as u16);
    }
    None
}

// The first byte of the current packet with a bit at the bit index or past it.
pub fn bits_past(front: Front, index: u8) -> Option<u16>
    ensures { found_told result ≡ lowest (clear_from index packet_at (part packet_at packet_bytes front.entry.bytes.now)) }
{
    let packet = &front.bytes[parts::PACKET..parts::STORE];
    let mut left = index;
    for (i, byte) in packet.iter().enumerate() {
        if shifted(*byte, left) != 0 {
            return Some((parts::PACKET + i) as u16);
        }
        left = left.saturating_sub(8);
    }
    None
}

// What is left of a byte behind its first n bits.
fn shifted(x: u8, n: u8) -> u8
    ensures { result ≡ x / 2 ^ n }
{
    if n < 8 { x >> n } else { 0 }
}
