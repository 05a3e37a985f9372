// The packet that is coming in, as it stands in the block and as the receiver has it: sixteen bytes, the lowest first, and two words.
// RULES 1.5. The meaning of the bytes is `value_of` and `bytes_of`.
#![tactic(auto)]

ghost use Rattle.std.specs.Prelude.{◌≡◌, ◌+◌, ◌≤◌, length};
ghost use Rattle.bits.specs.Over.{part, over};
ghost use Rattle.layout.specs.Block.{value_of};
ghost use Rattle.receiver.specs.Store.{bytes_of};

use bits_eight::eight;

// Half a packet: the eight bytes from `at` on as a word.
pub fn half(bytes: &[u8], at: usize) -> u64
    requires { at + 8 ≤ length bytes.now }
    ensures { result ≡ value_of (part at 8 bytes.now) }
{
    eight(bytes, at)
}

// The word as the eight bytes from `at` on.
// Stays: eight stores by shifts and masks, and no `to_le_bytes`, since the leaves are so by a rule of the project.
pub fn put_half(bytes: &mut [u8], at: usize, w: u64)
    requires { at + 8 ≤ length bytes.old }
    ensures { bytes.new ≡ over at 8 (bytes_of 8 w) bytes.old }
{
    bytes[at] = (w & 0xFF) as u8;
    bytes[at + 1] = (w >> 8 & 0xFF) as u8;
    bytes[at + 2] = (w >> 16 & 0xFF) as u8;
    bytes[at + 3] = (w >> 24 & 0xFF) as u8;
    bytes[at + 4] = (w >> 32 & 0xFF) as u8;
    bytes[at + 5] = (w >> 40 & 0xFF) as u8;
    bytes[at + 6] = (w >> 48 & 0xFF) as u8;
    bytes[at + 7] = (w >> 56 & 0xFF) as u8;
}
