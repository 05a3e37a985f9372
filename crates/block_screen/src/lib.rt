// A screen on the block: it becomes the live capture, and what is pending comes nearer or lands.
// RULES 5; Rust: `update_screen`. The rules are `Screen` of the crate `rules`; the page and the landings are
// in the crate `transfer`. Every worker requires a valid block and leaves one.
// Stays: that the block is valid is a clause. In a struct that holds the `&mut` each worker would tell in its place that it holds the same borrow,
// and owe the proof that `good-valid` has once.
#![tactic(auto)]

ghost use Rattle.std.specs.Prelude.{◌≡◌, length};
ghost use Rattle.layout.specs.Valid.{Valid};
ghost use Rattle.layout.specs.Block.{load, save};
ghost use Rattle.parts.specs.Parts.{block_bytes, capture_bytes};
ghost use Rattle.rules.specs.Screen as rules;
ghost use Rattle.transfer.specs.declared.pending.Transfer.TheVariants.{BorderTiles};
ghost use Rattle.block_screen.specs.Shown.{counted_down, snes_block};

use parts::{BLOCK, BORDER_MAP, COUNTDOWN, FILES, KIND, LIVE, SYSTEM, TILES, UPPER_TILES};
use transfer::landing;
use transfer::pending::{Pending, Transfer};

// Bytes 10 and 11 after a screen; the answer is what that screen makes land.
fn count_down(block: &mut [u8]) -> Option<Transfer>
    requires { length block.old ≡ block_bytes }
    ensures { (result ≡ rules.landing (load block.old).snes) × (block.new ≡ counted_down block.old) }
{
    let pending = Pending::load(block[COUNTDOWN], block[KIND]);
    let left = pending.fall();
    block_fixed::store_pending(block, left);
    pending.lands()
}

// The screen becomes the live capture.
fn capture(block: &mut [u8], screen: &[u8]) -> Option<Transfer>
    requires { Valid block.old × (length screen.now ≡ capture_bytes) }
    ensures { (result ≡ rules.landing (load block.old).snes) × (block.new ≡ snes_block (rules.captured screen.now) block.old) }
{
    let landed = count_down(block);
    bits::put(block, LIVE, screen);
    landed
}

// Half of the border's tiles.
fn land_half(block: &mut [u8], upper_half: bool, screen: &[u8])
    requires { Valid block.old × (length screen.now ≡ capture_bytes) }
    ensures { block.new ≡ snes_block (rules.landed (Some (BorderTiles upper_half)) screen.now) block.old }
{
    if upper_half {
        landing::land_tiles(&mut block[UPPER_TILES..BORDER_MAP], screen);
    } else {
        landing::land_tiles(&mut block[TILES..UPPER_TILES], screen);
    }
}

// Each landing is lent its own part, and nothing else of the block.
fn land_page(block: &mut [u8], t: Transfer, screen: &[u8])
    requires { Valid block.old × (length screen.now ≡ capture_bytes) }
    ensures { block.new ≡ snes_block (rules.landed (Some t) screen.now) block.old }
{
    match t {
        Transfer::Palettes => landing::land_palettes(&mut block[SYSTEM..FILES], screen),
        Transfer::Attributes => landing::land_files(&mut block[FILES..LIVE], screen),
        Transfer::BorderTiles { upper_half } => land_half(block, upper_half, screen),
        Transfer::BorderMap => landing::land_map(&mut block[BORDER_MAP..BLOCK], screen),
    }
}

fn land(block: &mut [u8], landed: Option<Transfer>, screen: &[u8])
    requires { Valid block.old × (length screen.now ≡ capture_bytes) }
    ensures { block.new ≡ snes_block (rules.landed landed screen.now) block.old }
{
    if let Some(t) = landed {
        land_page(block, t, screen);
    }
}

// A screen; the answer is what landed.
pub fn show(block: &mut [u8], screen: &[u8]) -> Option<Transfer>
    requires { Valid block.old × (length screen.now ≡ capture_bytes) }
    ensures { (result ≡ rules.landing (load block.old).snes) × (block.new ≡ save (rules.screened (load block.old) screen.now)) }
{
    let landed = capture(block, screen);
    land(block, landed, screen);
    landed
}
