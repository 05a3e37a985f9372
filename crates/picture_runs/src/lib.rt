// A run: eight pixels of a row of the picture, those of one border cell. Colours come from tables made beforehand, in which a transparent
// border pixel already has the backdrop, so that no branch follows the pixels.
// Stays: a place beside the lent output, as `Painted` tells what is left of the rest; in `run_both` lanes and tables stand for two pictures.
#![tactic(auto)]

ghost use Rattle.std.specs.Prelude.{◌≡◌, ◌<◌, ◌≤◌, ◌+◌, ◌-◌, ◌*◌, ◌/◌, cond, eqb, length, get_or};
ghost use Rattle.parts.specs.Parts.{map_bytes, capture_bytes};
ghost use Rattle.bits.specs.Paint.{Painted};
ghost use Rattle.screen.specs.Packed.{cell_at};
ghost use Rattle.picture_lanes.specs.Lanes.{lane};
ghost use Rattle.picture_runs.specs.Runs.{Tables, base_of, lane_shade, Packs, within, screen_from, run_pixel, pixel_in};
ghost use Rattle.picture_runs.specs.Drawing.{source_of};

use crate::drawing::{PictureParts, PictureTables};
use colour::{BorderMapEntry, Rgb555};

pub mod drawing;

// The run at border column c of row y, written from `at` on.
// Stays: a place beside the lent output, as `Painted` tells what is left of the rest; place, column and row are three numbers.
pub fn run(
    out: &mut [u16],
    at: usize,
    parts: &PictureParts,
    tables: &PictureTables,
    c: usize,
    y: usize,
)
    requires tables { Tables tables.now.spreads tables.now.border tables.now.game }
    requires at_in_bounds { (at + 8 ≤ length out.old) × (c < 32) × (y < 224) }
    ensures { Painted out.new out.old at 8 (pixel_in (source_of parts.now tables.now) c y) }
{
    let entry = border::map_entry(parts.map, c, y / 8);
    let l = picture_lanes::indices(parts.tiles, &tables.spreads, entry, y % 8);
    let b = base(entry);
    if within_screen(c, y) {
        let s = shades(parts.screen, c, y);
        let n = cell(parts.attributes, c, y) * 4;
        if l == 0 {
            run_game(out, at, s, &tables.game, n);
            return;
        }
        run_both(out, at, l, &tables.border, b, s, &tables.game, n);
        return;
    }
    if l == 0 {
        run_plain(out, at, color_in(&tables.border, 0));
        return;
    }
    run_border(out, at, l, &tables.border, b);
}

// Where an entry's palette starts among the border's colours.
fn base(entry: BorderMapEntry) -> usize
    ensures { (result ≡ base_of entry.0) × (result ≤ 32) }
{
    if border::draws(entry) {
        return usize::from(entry.palette() - 4) * 16;
    }
    0
}

// The row below the screen, which starts at row 40 and has 144.
const SCREEN_END: usize = 40 + 144;

// Whether border column c of row y lies on the screen.
#[tactic(auto, unfolding(crate::specs::Runs::within))]
fn within_screen(c: usize, y: usize) -> bool
    ensures { result ≡ within c y }
{
    c >= 6 && c < 26 && y >= 40 && y < SCREEN_END
}

// The eight shades of the screen there.
fn shades(screen: &[u8], c: usize, y: usize) -> u16
    requires screen_len { length screen.now ≡ capture_bytes }
    requires le_c { (6 ≤ c) × (c < 26) × (40 ≤ y) × (y < 40 + 144) }
    ensures { Packs result screen.now (screen_from c y) }
{
    let at = (y - 40) * 40 + (c - 6) * 2;
    bits::word(screen[at + 1], screen[at])
}

// The palette number of its cell there.
fn cell(attributes: &[u8], c: usize, y: usize) -> usize
    requires attributes_len { length attributes.now ≡ map_bytes }
    requires le_c { (6 ≤ c) × (c < 26) × (40 ≤ y) × (y < 40 + 144) }
    ensures { (result ≡ cell_at attributes.now (c - 6) ((y - 40) / 8)) × (result < 4) }
{
    screen::pair_at(attributes, (y - 40) / 8 * 20 + (c - 6))
}

// The four kinds of run.
// Stays: a loop for each. They share its head and the store alone: a closure would take over all else, and each contract would stay.
//
// One colour.
fn run_plain(out: &mut [u16], at: usize, color: Rgb555)
    requires { at + 8 ≤ length out.old }
    ensures { Painted out.new out.old at 8 (λ j. color.0) }
{
    for j in 0..8 {
        out[at + j] = color.0;
    }
}

// The border over the backdrop, which is the first colour of each of its palettes.
fn run_border(out: &mut [u16], at: usize, l: u32, border: &[u16], base: usize)
    requires { (at + 8 ≤ length out.old) × (base + 16 ≤ length border.now) }
    ensures { Painted out.new out.old at 8 (λ j. get_or border.now (base + lane l j) 0) }
{
    for j in 0..8 {
        let i = picture_lanes::nibble(l, j);
        out[at + j] = color_in(border, base + i).0;
    }
}

// The screen alone, whose colours for this cell stand at n.
fn run_game(out: &mut [u16], at: usize, s: u16, game: &[u16], n: usize)
    requires { (at + 8 ≤ length out.old) × (n + 4 ≤ length game.now) }
    ensures { Painted out.new out.old at 8 (λ j. get_or game.now (n + lane_shade s j) 0) }
{
    for j in 0..8 {
        let h = shade(s, j);
        out[at + j] = color_in(game, n + h).0;
    }
}

// The border over the screen.
fn run_both(
    out: &mut [u16],
    at: usize,
    l: u32,
    border: &[u16],
    base: usize,
    s: u16,
    game: &[u16],
    n: usize,
)
    requires { (at + 8 ≤ length out.old) × (base + 16 ≤ length border.now) × (n + 4 ≤ length game.now) }
    ensures { Painted out.new out.old at 8 (λ j. run_pixel (lane l j) border.now base (get_or game.now (n + lane_shade s j) 0)) }
{
    for j in 0..8 {
        let i = picture_lanes::nibble(l, j);
        let h = shade(s, j);
        out[at + j] = over(i, color_in(border, base + i), color_in(game, n + h)).0;
    }
}

// Both colours are read before the choice, which then needs no branch.
fn over(i: usize, border: Rgb555, below: Rgb555) -> Rgb555
    ensures { result.0 ≡ cond (eqb i 0) below.0 border.0 }
{
    if i == 0 { below } else { border }
}

// Shade j of eight.
fn shade(s: u16, j: usize) -> usize
    requires { j < 8 }
    ensures { (result ≡ lane_shade s j) × (result < 4) }
{
    usize::from(s >> (14 - 2 * j) & 3)
}

// Colour k of a table.
fn color_in(table: &[u16], k: usize) -> Rgb555
    requires { k < length table.now }
    ensures { result.0 ≡ get_or table.now k 0 }
{
    Rgb555(table[k])
}
