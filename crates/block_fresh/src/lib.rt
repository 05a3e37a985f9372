// The fresh units, `new` and `post_boot`, into a lent block. RULES 1.13. The meaning is `Fresh` in the crate `layout`.
// Stays: the block's length is a clause. Each caller is lent a slice, and would turn it into an array at each call by a conversion whose failure it has
// to rule out, which is no plainer.
#![tactic(auto)]

ghost use Rattle.std.specs.Prelude.{◌≡◌, [], ◌∷◌, ◌+◌, ◌≤◌, length};
ghost use Rattle.bits.specs.Over.{over};
ghost use Rattle.parts.specs.Parts.{block_bytes, system_bytes};
ghost use Rattle.layout.specs.Fresh as spec;

use bits::{clear, high_byte, low_byte};

pub fn new(block: &mut [u8])
    requires { length block.old ≡ block_bytes }
    ensures { block.new ≡ spec.new }
{
    clear(block);
    put_palette(block, parts::PRESET, [0x67BF, 0x265B, 0x10B5, 0x2866]);
    fill_system(&mut block[parts::SYSTEM..parts::FILES]);
    block[parts::PRESET_ON] = 1;
}

pub fn post_boot(block: &mut [u8])
    requires { length block.old ≡ block_bytes }
    ensures { block.new ≡ spec.post_boot }
{
    new(block);
    block[parts::P15] = 1;
    block[parts::BOTH] = 1;
}

// The 512 system palettes, all alike.
fn fill_system(system: &mut [u8])
    requires { length system.old ≡ system_bytes }
    ensures { system.new ≡ spec.times 512 (spec.word_bytes (0x7FFF ∷ 0x56B5 ∷ 0x294A ∷ 0x0000 ∷ [])) }
{
    for i in 0..512 {
        put_palette(system, 8 * i, [0x7FFF, 0x56B5, 0x294A, 0x0000]);
    }
}

// A palette of four words, from `at` on.
// Stays: a place beside the lent bytes, since `over at` is what its contract says; and shifts and masks, as in `bits`.
fn put_palette(bytes: &mut [u8], at: usize, colours: [u16; 4])
    requires { at + 8 ≤ length bytes.old }
    ensures { bytes.new ≡ over at 8 (spec.word_bytes colours) bytes.old }
{
    bytes[at] = low_byte(colours[0]);
    bytes[at + 1] = high_byte(colours[0]);
    bytes[at + 2] = low_byte(colours[1]);
    bytes[at + 3] = high_byte(colours[1]);
    bytes[at + 4] = low_byte(colours[2]);
    bytes[at + 5] = high_byte(colours[2]);
    bytes[at + 6] = low_byte(colours[3]);
    bytes[at + 7] = high_byte(colours[3]);
}
