// What a plain command does to the block: it gets its part, and what else it changes there is set. The rule is `plainly` of the crate
// `rules`; what each command computes is in the crates `palettes` and `commands`. The fixed commands are in the crate `block_fixed`.
// Every worker of a command requires a valid block and leaves one.
// Stays: that the block is valid is a clause. In a struct that holds the `&mut` each worker would tell in its place that it holds the same borrow,
// and owe the proof that `good-valid` has once.
#![tactic(auto)]

ghost use Rattle.std.specs.Prelude.{◌≡◌, ◌<◌, length};
ghost use Rattle.attribute_map.specs.Data.{Whole};
ghost use Rattle.commands.specs.Command.{plain, pal_pair, attr_blk, attr_lin, attr_div, attr_chr, mlt_req, mask_en};
ghost use Rattle.commands.specs.Good.{GoodPlain};
ghost use Rattle.parts.specs.Parts.{block_bytes};
ghost use Rattle.block_plain.specs.Carrying.{Valid, carried_block, preset_ended};

use parts::{
    FROZEN, FROZEN_ON, INDEX, MAP, MASK, PADS, PALETTES, PRESET, PRESET_ON, SYSTEM, TILES,
};

// The attribute commands get the packed map.
// Stays: four functions of one line each, which one helper with a closure would not shorten.
pub fn attr_blk(block: &mut [u8], d: &[u8])
    requires { Valid block.old × Whole d.now }
    ensures { block.new ≡ carried_block (plain (attr_blk d.now)) block.old }
{
    commands::attr_blk(&mut block[MAP..SYSTEM], d);
}

pub fn attr_lin(block: &mut [u8], d: &[u8])
    requires { Valid block.old × Whole d.now }
    ensures { block.new ≡ carried_block (plain (attr_lin d.now)) block.old }
{
    commands::attr_lin(&mut block[MAP..SYSTEM], d);
}

pub fn attr_div(block: &mut [u8], d: &[u8])
    requires { Valid block.old × Whole d.now }
    ensures { block.new ≡ carried_block (plain (attr_div d.now)) block.old }
{
    commands::attr_div(&mut block[MAP..SYSTEM], d);
}

pub fn attr_chr(block: &mut [u8], d: &[u8])
    requires { Valid block.old × Whole d.now }
    ensures { block.new ≡ carried_block (plain (attr_chr d.now)) block.old }
{
    commands::attr_chr(&mut block[MAP..SYSTEM], d);
}

// The preset ends: its byte and its words are zero.
pub fn end_preset(block: &mut [u8])
    requires { length block.old ≡ block_bytes }
    ensures { block.new ≡ preset_ended block.old }
{
    block[PRESET_ON] = 0;
    bits::clear(&mut block[PRESET..PALETTES]);
}

// PAL01 to PAL12: the preset ends, and the palettes get their colours.
pub fn pal_pair(block: &mut [u8], a: usize, b: usize, d: &[u8])
    requires { Valid block.old × Whole d.now × (a < 4) × (b < 4) }
    ensures { block.new ≡ carried_block (plain (pal_pair a b d.now)) block.old }
{
    end_preset(block);
    palettes::pal_pair(&mut block[PALETTES..MAP], a, b, d);
}

pub fn mlt_req(block: &mut [u8], d1: u8)
    requires { Valid block.old }
    ensures { block.new ≡ carried_block (plain (mlt_req d1)) block.old }
{
    let pads = commands::mlt_req(block[INDEX], d1);
    block[INDEX] = pads.index;
    block[PADS] = pads.mask;
}

// MASK_EN in a mode that is no freeze: the frozen capture is dropped.
pub fn mask_en(block: &mut [u8], mode: u8)
    requires { Valid block.old × GoodPlain (mask_en mode) }
    ensures { block.new ≡ carried_block (plain (mask_en mode)) block.old }
{
    block[MASK] = mode;
    block[FROZEN_ON] = 0;
    bits::clear(&mut block[FROZEN..TILES]);
}
