// A completed command carried out on the block: which command it is, and so which worker carries it out.
// RULES 4; Rust: `dispatch_command`. The rules are `Carry` of the crate `rules`; what a command does to the block is in the crates
// `block_plain` and `block_fixed`. Every worker requires a valid block and leaves one.
// Stays: that the block is valid is a clause. In a struct that holds the `&mut` each worker would tell in its place that it holds the same borrow,
// and owe the proof that `good-valid` has once.
#![tactic(auto)]

ghost use Rattle.std.specs.Prelude.{◌≡◌, ◌*◌, ◌≤◌, length, take};
ghost use Rattle.attribute_map.specs.Data.{Whole};
ghost use Rattle.commands.specs.Command.{plain, fixed, decode};
ghost use Rattle.commands.specs.Good.{GoodPlain};
ghost use Rattle.commands.specs.Told.{told_plain, told_fixed};
ghost use Rattle.block_plain.specs.Carrying.{Valid, carried_block};

use block_fixed::{attr_set, freeze, pal_set, send};
use block_plain::{attr_blk, attr_chr, attr_div, attr_lin, mask_en, mlt_req, pal_pair};
use commands::{Command, FixedCommand, PlainCommand};

fn carry_plain(block: &mut [u8], c: PlainCommand, d: &[u8])
    requires { Valid block.old × Whole d.now × GoodPlain (told_plain c d.now) }
    ensures { block.new ≡ carried_block (plain (told_plain c d.now)) block.old }
{
    match c {
        PlainCommand::PalPair(a, b) => pal_pair(block, a, b, d),
        PlainCommand::AttrBlk => attr_blk(block, d),
        PlainCommand::AttrLin => attr_lin(block, d),
        PlainCommand::AttrDiv => attr_div(block, d),
        PlainCommand::AttrChr => attr_chr(block, d),
        PlainCommand::MltReq(d1) => mlt_req(block, d1),
        PlainCommand::MaskEn(mode) => mask_en(block, mode),
        PlainCommand::Nothing => {}
    }
}

fn carry_fixed(block: &mut [u8], c: FixedCommand, d: &[u8])
    requires { Valid block.old × Whole d.now }
    ensures { block.new ≡ carried_block (fixed (told_fixed c d.now)) block.old }
{
    match c {
        FixedCommand::PalSet => pal_set(block, d),
        FixedCommand::AttrSet => attr_set(block, d),
        FixedCommand::Freeze => freeze(block),
        FixedCommand::Transfer(t) => send(block, t),
    }
}

// Any completed command.
pub fn carry_out(block: &mut [u8], d: &[u8])
    requires { Valid block.old × Whole d.now }
    ensures { block.new ≡ carried_block (decode d.now) block.old }
{
    match commands::decode(d) {
        Command::Plain(p) => carry_plain(block, p, d),
        Command::Fixed(f) => carry_fixed(block, f, d),
    }
}

// The command of n packets at the front of a buffer.
pub fn carry_front(block: &mut [u8], buffer: &[u8], n: u8)
    requires { Valid block.old × Whole (take (16 * n) buffer.now) × (16 * n ≤ length buffer.now) }
    ensures { block.new ≡ carried_block (decode (take (16 * n) buffer.now)) block.old }
{
    carry_out(block, &buffer[..16 * usize::from(n)]);
}
