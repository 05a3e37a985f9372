// The SNES picture: the backdrop, the displayed screen on it, and the border over both (RULES 6.6 and 6.7).
// Rust: `snes_picture`. A row goes by runs of eight pixels (`picture_runs`) from tables that are made once: with a full border a sixth of the Rust's time.
#![tactic(auto)]

ghost use Rattle.std.specs.Prelude.{◌≡◌, ◌<◌, ◌≤◌, ◌+◌, ◌/◌, ◌%◌, length};
ghost use Rattle.parts.specs.Parts.{border_palettes_bytes};
ghost use Rattle.bits.specs.Tab.{tab};
ghost use Rattle.bits.specs.Paint.{Painted};
ghost use Rattle.screen.specs.Colours.{backdrop_of};
ghost use Rattle.picture_lanes.specs.Lanes.{spread_of};
ghost use Rattle.picture_runs.specs.Runs.{Tables};
ghost use Rattle.picture_runs.specs.Drawing.{source_of};
ghost use Rattle.picture.specs.Tables.{border_color, game_color, pixel_on};

use colour::Rgb555;
use picture_runs::drawing::{PictureParts, PictureTables};
use screen::Colours;

// The tables, made once for as many rows as are drawn from them.
// Stays: the mode is the block's byte, as `game_color` takes it.
pub fn tables(colours: Colours, mode: u8, borders: &[u8], out: &mut PictureTables)
    requires { length borders.now ≡ border_palettes_bytes }
    ensures spreads_after { out.new.spreads ≡ tab 512 spread_of }
    ensures border_after { out.new.border ≡ tab 48 (border_color borders.now (backdrop_of colours.entry.palettes.now colours.entry.preset.now colours.entry.in_force)) }
    ensures game_after { out.new.game ≡ tab 16 (game_color colours.entry.palettes.now colours.entry.preset.now colours.entry.in_force mode) }
{
    picture_lanes::fill_spreads(&mut out.spreads);
    border_colors(&mut out.border, borders, colours.backdrop());
    game_colors(&mut out.game, colours, mode);
}

// The whole picture, from the tables.
pub fn picture(out: &mut [u16], parts: &PictureParts, tables: &PictureTables)
    requires tables { Tables tables.now.spreads tables.now.border tables.now.game }
    requires in_bounds { 57344 ≤ length out.old }
    ensures { Painted out.new out.old 0 57344 (λ k. pixel_on (source_of parts.now tables.now) (k / 256) (k % 256)) }
{
    for y in 0..224 {
        row(out, y * 256, parts, tables, y);
    }
}

// Row y, run by run, written from `at` on.
// Stays: a place beside the lent output, as `Painted` tells what is left of the rest; and `Tables` as a clause, as at `PictureTables`.
pub fn row(out: &mut [u16], at: usize, parts: &PictureParts, tables: &PictureTables, y: usize)
    requires tables { Tables tables.now.spreads tables.now.border tables.now.game }
    requires at_in_bounds { (at + 256 ≤ length out.old) × (y < 224) }
    ensures { Painted out.new out.old at 256 (pixel_on (source_of parts.now tables.now) y) }
{
    for c in 0..32 {
        picture_runs::run(out, at + c * 8, parts, tables, c, y);
    }
}

// Table by table.
fn border_colors(out: &mut [u16], borders: &[u8], back: Rgb555)
    requires { (length out.old ≡ 48) × (length borders.now ≡ border_palettes_bytes) }
    ensures { out.new ≡ tab 48 (border_color borders.now back.0) }
{
    for n in 0..48 {
        out[n] = border_color(borders, back, n).0;
    }
}

fn border_color(borders: &[u8], back: Rgb555, n: usize) -> Rgb555
    requires { (length borders.now ≡ border_palettes_bytes) × (n < 48) }
    ensures { result.0 ≡ border_color borders.now back.0 n }
{
    if n % 16 == 0 {
        return back;
    }
    let at = n * 2;
    Rgb555::from_bytes(borders[at], borders[at + 1])
}

fn game_colors(out: &mut [u16], colours: Colours, mode: u8)
    requires { length out.old ≡ 16 }
    ensures { out.new ≡ tab 16 (game_color colours.entry.palettes.now colours.entry.preset.now colours.entry.in_force mode) }
{
    for k in 0..16 {
        out[k] = colours.masked(mode, k / 4, k % 4).0;
    }
}
