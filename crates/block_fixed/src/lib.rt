// What a fixed command does to the block: it looks at the parts that screens change, or marks what is pending there. The rules are
// `fixedly` and `fixed_snes` of the crate `rules`; what each command computes is in the crates `palettes` and `commands`. The plain
// commands are in the crate `block_plain`. Every worker of a command requires a valid block and leaves one.
// Stays: that the block is valid is a clause. In a struct that holds the `&mut` each worker would tell in its place that it holds the same borrow,
// and owe the proof that `good-valid` has once.
#![tactic(auto)]

ghost use Rattle.std.specs.Prelude.{◌≡◌, ℕ, List, length};
ghost use Rattle.attribute_map.specs.Data.{Whole};
ghost use Rattle.palettes.specs.Palettes as palette;
ghost use Rattle.commands.specs.Command.{fixed, pal_set, attr_set, freeze, transfer};
ghost use Rattle.commands.specs.Files.{pal_set_map, attr_set_map};
ghost use Rattle.parts.specs.Parts.{block_bytes, map_bytes, files_bytes};
ghost use Rattle.rules.specs.Carry.{with_palettes, with_map, without_mask};
ghost use Rattle.block_plain.specs.Carrying.{Valid, carried_block};
ghost use Rattle.block_fixed.specs.Changing.{changed_block, pending_stored, Filing};

use block_plain::end_preset;
use parts::{
    CAPTURE_BYTES, COUNTDOWN, FILES, FROZEN, FROZEN_ON, KIND, LIVE, MAP, MAP_BYTES, MASK, PALETTES,
    PALETTES_BYTES, SYSTEM,
};
use transfer::pending::{Pending, Transfer};

// MASK_EN 1: the live capture is copied, by way of a local, since two parts of one slice are not lent at once.
pub fn freeze(block: &mut [u8])
    requires { Valid block.old }
    ensures { block.new ≡ carried_block (fixed freeze) block.old }
{
    let mut shot = [0u8; CAPTURE_BYTES];
    bits::put(&mut shot, 0, &block[LIVE..FROZEN]);
    block[MASK] = 1;
    block[FROZEN_ON] = 1;
    bits::put(block, FROZEN, &shot);
}

// A transfer command replaces whatever is pending.
pub fn send(block: &mut [u8], t: Transfer)
    requires { Valid block.old }
    ensures { block.new ≡ carried_block (fixed (transfer t)) block.old }
{
    let pending = Pending::In {
        countdown: 3,
        transfer: t,
    };
    store_pending(block, pending);
}

// What is pending, into its two bytes.
pub fn store_pending(block: &mut [u8], pending: Pending)
    requires { length block.old ≡ block_bytes }
    ensures { block.new ≡ pending_stored pending block.old }
{
    block[COUNTDOWN] = pending.countdown();
    block[KIND] = pending.kind();
}

// PAL_SET's palettes: the preset ends, and each is the system palette that its number names.
fn take_palettes(block: &mut [u8], d: &[u8])
    requires { Valid block.old × Whole d.now }
    ensures { block.new ≡ changed_block (λ s g. with_palettes (palette.pal_set d.now s.system) g) block.old }
{
    let mut chosen = [0u8; PALETTES_BYTES];
    palettes::pal_set(&mut chosen, &block[SYSTEM..FILES], d);
    end_preset(block);
    bits::put(block, PALETTES, &chosen);
}

// The map after a command that asks for a file: copied out, changed from the files, and put back.
fn change_map<F: Fn(&mut [u8], &[u8])>(block: &mut [u8], change: F)
    requires valid { Valid block.old }
    requires callable { (map files : _) → length map.now ≡ map_bytes → length files.now ≡ files_bytes → F.pre change map files }
    ensures { (f : List ℕ → List ℕ → List ℕ) → Filing f → ((map files r after : _) → F.post change map files r after → after.now ≡ f files.now map.now) → block.new ≡ changed_block (λ s g. with_map (f s.files g.map) g) block.old }
{
    let mut map = [0u8; MAP_BYTES];
    bits::put(&mut map, 0, &block[MAP..SYSTEM]);
    change(&mut map, &block[FILES..LIVE]);
    bits::put(block, MAP, &map);
}

// PAL_SET's file, if bit 7 asks for one.
// Stays: beside `attr_set_file`. What they share is `change_map`; the closure of each owes the clauses of its own definition.
fn pal_set_file(block: &mut [u8], flags: u8)
    requires { Valid block.old }
    ensures { block.new ≡ changed_block (λ s g. with_map (pal_set_map flags s.files g.map) g) block.old }
{
    change_map(
        block,
        |map: &mut [u8], files: &[u8]|
            requires { (length map.old ≡ map_bytes) × (length files.now ≡ files_bytes) }
            ensures { map.new ≡ pal_set_map flags files.now map.old }
        { commands::pal_set_map(map, files, flags) },
    );
}

// ATTR_SET's file.
fn attr_set_file(block: &mut [u8], flags: u8)
    requires { Valid block.old }
    ensures { block.new ≡ changed_block (λ s g. with_map (attr_set_map flags s.files g.map) g) block.old }
{
    change_map(
        block,
        |map: &mut [u8], files: &[u8]|
            requires { (length map.old ≡ map_bytes) × (length files.now ≡ files_bytes) }
            ensures { map.new ≡ attr_set_map flags files.now map.old }
        { commands::attr_set_map(map, files, flags) },
    );
}

// Bit 6 cancels the mask, and the frozen capture stays.
fn unmask(block: &mut [u8], flags: u8)
    requires { Valid block.old }
    ensures { block.new ≡ changed_block (λ s g. without_mask flags g) block.old }
{
    if flags & 0x40 != 0 {
        block[MASK] = 0;
    }
}

// PAL_SET: palettes, file and mask, in this order.
pub fn pal_set(block: &mut [u8], d: &[u8])
    requires { Valid block.old × Whole d.now }
    ensures { block.new ≡ carried_block (fixed (pal_set d.now)) block.old }
{
    take_palettes(block, d);
    pal_set_file(block, d[9]);
    unmask(block, d[9]);
}

// ATTR_SET: file and mask.
pub fn attr_set(block: &mut [u8], d: &[u8])
    requires { Valid block.old × Whole d.now }
    ensures { block.new ≡ carried_block (fixed (attr_set d.now)) block.old }
{
    attr_set_file(block, d[1]);
    unmask(block, d[1]);
}
