// The calls that only look at a block (the crate `view`), and the colour that a screen shows for a colour word (`colour`).
ghost use Rattle.std.specs.Prelude.{◌≡◌};
ghost use Rattle.colour.specs.Colour.{rgb8};
ghost use Rattle.block_picture.specs.Drawn.{row_drawn, picture_drawn};
ghost use Rattle.view.specs.Looks.{mode_of, backdrop_answer, shade_answer, entry_answer, border_answer, row_answer, picture_answer, leaves};
ghost use Rattle.export_answers.specs.Coded.{coded, value, optional};
ghost use Rattle.export.specs.Parts.{rgb_number};

use colour::{Rgb8, Rgb555};

#[unsafe(no_mangle)]
pub extern "C" fn sporedrift_mask_mode(block: &[u8]) -> u32
    ensures { result ≡ coded value (mode_of block.now) }
{
    export_answers::coded(view::mask_mode(block))
}

#[unsafe(no_mangle)]
pub extern "C" fn sporedrift_backdrop(block: &[u8]) -> u32
    ensures { result ≡ coded value (backdrop_answer block.now) }
{
    export_answers::coded(view::backdrop(block))
}

#[unsafe(no_mangle)]
pub extern "C" fn sporedrift_color_at(block: &[u8], x: usize, y: usize, shade: u8) -> u32
    ensures { result ≡ coded value (shade_answer block.now x y shade) }
{
    export_answers::coded(view::color_at(block, x, y, shade))
}

#[unsafe(no_mangle)]
pub extern "C" fn sporedrift_map_entry(block: &[u8], column: usize, row: usize) -> u32
    ensures { result ≡ coded value (entry_answer block.now column row) }
{
    export_answers::coded(view::map_entry(block, column, row))
}

#[unsafe(no_mangle)]
pub extern "C" fn sporedrift_border_color_at(block: &[u8], x: usize, y: usize) -> u32
    ensures { result ≡ coded optional (border_answer block.now x y) }
{
    export_answers::coded(view::border_color_at(block, x, y))
}

#[unsafe(no_mangle)]
pub extern "C" fn sporedrift_row(block: &[u8], y: usize, out: &mut [u16]) -> u32
    ensures value { result ≡ coded value (row_answer block.now y out.old) }
    ensures out_after { out.new ≡ leaves (row_answer block.now y out.old) (row_drawn block.now y out.old) out.old }
{
    export_answers::coded(view::row(block, y, out))
}

#[unsafe(no_mangle)]
pub extern "C" fn sporedrift_picture(block: &[u8], out: &mut [u16]) -> u32
    ensures value { result ≡ coded value (picture_answer block.now out.old) }
    ensures out_after { out.new ≡ leaves (picture_answer block.now out.old) (picture_drawn block.now out.old) out.old }
{
    export_answers::coded(view::picture(block, out))
}

#[unsafe(no_mangle)]
pub extern "C" fn sporedrift_to_rgb8(word: u16) -> u32
    ensures { result ≡ value (rgb_number (rgb8 word)) }
{
    of_rgb(Rgb555(word).to_rgb8())
}

// Stays: a number for C, of which `From` would not say the order of the channels.
fn of_rgb(c: Rgb8) -> u32
    ensures { result ≡ value (rgb_number c) }
{
    export_answers::value((u32::from(c.r) * 256 + u32::from(c.g)) * 256 + u32::from(c.b))
}
