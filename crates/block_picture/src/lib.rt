// The workers: what is drawn of a valid block (RULES 6). They refuse nothing, and each hands the block's
// parts on to the crate that has the rule.
#![tactic(auto)]

ghost use Rattle.std.specs.Prelude.{◌≡◌, ◌<◌, ◌≤◌, length};
ghost use Rattle.border.specs.Border.{entry_at, colour_of};
ghost use Rattle.picture.specs.Tables.{TablesOf};
ghost use Rattle.layout.specs.Block.{load};
ghost use Rattle.block_picture.specs.Drawn.{parts_of, backdrop_in, shade_in, border_in, row_drawn, picture_drawn};

use colour::{BorderMapEntry, Rgb555};
use of_block::ValidBlock;
use picture_runs::drawing::PictureTables;

pub mod of_block;

pub fn backdrop(block: ValidBlock<'_>) -> Rgb555
    ensures { result.0 ≡ backdrop_in (parts_of (load block.entry.bytes.now)) }
{
    block.colours().backdrop()
}

pub fn shade(block: ValidBlock<'_>, x: usize, y: usize, shade: u8) -> Rgb555
    requires x_bound { (x < 160) × (y < 144) × (shade ≤ 3) }
    ensures { result.0 ≡ shade_in (parts_of (load block.entry.bytes.now)) x y shade }
{
    block
        .colours()
        .color_at(block.attributes(), x, y, usize::from(shade))
}

pub fn entry(block: ValidBlock<'_>, column: usize, row: usize) -> BorderMapEntry
    requires column_bound { (column < 32) × (row < 28) }
    ensures { result.0 ≡ entry_at (parts_of (load block.entry.bytes.now)).map column row }
{
    border::map_entry(block.map(), column, row)
}

pub fn border(block: ValidBlock<'_>, x: usize, y: usize) -> Option<Rgb555>
    requires x_bound { (x < 256) × (y < 224) }
    ensures { colour_of result ≡ border_in (parts_of (load block.entry.bytes.now)) x y }
{
    border::color_at(block.tiles(), block.map(), block.borders(), x, y)
}

// The tables that its picture is drawn from, made once for as many rows as are asked for.
pub fn tables(block: ValidBlock<'_>, out: &mut PictureTables)
    ensures { TablesOf (parts_of (load block.entry.bytes.now)) out.new.spreads out.new.border out.new.game }
{
    picture::tables(block.colours(), block.mode(), block.borders(), out);
}

// Row y from the tables, into the first 256 words of `out`.
pub fn row_from(block: ValidBlock<'_>, tables: &PictureTables, y: usize, out: &mut [u16])
    requires tables_of { TablesOf (parts_of (load block.bytes.now)) tables.now.spreads tables.now.border tables.now.game }
    requires y_bound { (y < 224) × (256 ≤ length out.old) }
    ensures { out.new ≡ row_drawn block.entry.bytes.now y out.old }
{
    picture::row(out, 0, &block.drawn(), tables, y);
}

// Row y by itself.
pub fn draw_row(block: ValidBlock<'_>, y: usize, out: &mut [u16])
    requires y_bound { (y < 224) × (256 ≤ length out.old) }
    ensures { out.new ≡ row_drawn block.entry.bytes.now y out.old }
{
    let mut made = PictureTables {
        spreads: [0; 512],
        border: [0; 48],
        game: [0; 16],
    };
    tables(block, &mut made);
    row_from(block, &made, y, out);
}

// The whole picture, into the first 57,344 words of `out`.
pub fn draw_picture(block: ValidBlock<'_>, out: &mut [u16])
    requires in_bounds { 57344 ≤ length out.old }
    ensures { out.new ≡ picture_drawn block.entry.bytes.now out.old }
{
    let mut made = PictureTables {
        spreads: [0; 512],
        border: [0; 48],
        game: [0; 16],
    };
    tables(block, &mut made);
    picture::picture(out, &block.drawn(), &made);
}
