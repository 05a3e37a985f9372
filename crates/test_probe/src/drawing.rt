// Screens, border and picture. The row and the picture are drawn of a valid block, which is not checked again.
ghost use Rattle.std.specs.Prelude.{◌≡◌, ◌<◌, ◌≤◌, length};
ghost use Rattle.parts.specs.Parts.{block_bytes, system_bytes, files_bytes, capture_bytes, tiles_bytes, half_bytes, border_map_bytes, border_palettes_bytes, border_bytes};
ghost use Rattle.transfer.specs.Page.{plane_byte, page_bytes, page_of};
ghost use Rattle.transfer.specs.Landing.{palettes_landed, files_landed, tiles_landed, map_landed};
ghost use Rattle.layout.specs.Valid.{Valid};
ghost use Rattle.pages.specs.Pixels.{page_screen_left};
ghost use Rattle.block_picture.specs.Drawn.{row_drawn, picture_drawn};

use super::calls::{count, number};
use block_picture::of_block::ValidBlock;
use transfer::pending::{Pending, Transfer};

#[unsafe(no_mangle)]
pub extern "C" fn probe_plane_byte(screen: &[u8], t: usize, r: usize, p: usize) -> u8
    requires screen_len { length screen.now ≡ capture_bytes }
    requires t_bound { (t < 256) × (r < 8) × (p < 2) }
    ensures { result ≡ plane_byte screen.now t r p }
{
    transfer::page::plane_byte(screen, t, r, p)
}

#[unsafe(no_mangle)]
pub extern "C" fn probe_page(out: &mut [u8], screen: &[u8])
    requires { (length out.old ≡ page_bytes) × (length screen.now ≡ capture_bytes) }
    ensures { out.new ≡ page_of screen.now }
{
    transfer::page::page(out, screen);
}

// The bytes of the screen that carries a page, by the public call; a refusal as 0x80000000 and its number.
#[unsafe(no_mangle)]
pub extern "C" fn probe_page_screen(page: &[u8], screen: &mut [u8]) -> u32
    ensures { screen.new ≡ page_screen_left page.now screen.old }
{
    number(pages::page_screen(page, screen), count)
}

#[unsafe(no_mangle)]
pub extern "C" fn probe_land_palettes(part: &mut [u8], screen: &[u8])
    requires { (length part.old ≡ system_bytes) × (length screen.now ≡ capture_bytes) }
    ensures { part.new ≡ palettes_landed screen.now }
{
    transfer::landing::land_palettes(part, screen);
}

#[unsafe(no_mangle)]
pub extern "C" fn probe_land_files(part: &mut [u8], screen: &[u8])
    requires { (length part.old ≡ files_bytes) × (length screen.now ≡ capture_bytes) }
    ensures { part.new ≡ files_landed screen.now }
{
    transfer::landing::land_files(part, screen);
}

#[unsafe(no_mangle)]
pub extern "C" fn probe_land_tiles(part: &mut [u8], screen: &[u8])
    requires { (length part.old ≡ half_bytes) × (length screen.now ≡ capture_bytes) }
    ensures { part.new ≡ tiles_landed screen.now }
{
    transfer::landing::land_tiles(part, screen);
}

#[unsafe(no_mangle)]
pub extern "C" fn probe_land_map(part: &mut [u8], screen: &[u8])
    requires { (length part.old ≡ border_bytes) × (length screen.now ≡ capture_bytes) }
    ensures { part.new ≡ map_landed screen.now }
{
    transfer::landing::land_map(part, screen);
}

// The countdown that a screen leaves, and the kind, which lands if the third number is 1: countdown * 65536 + kind * 256 + landed.
#[unsafe(no_mangle)]
pub extern "C" fn probe_screened(countdown: u8, kind: u8) -> u32 {
    let p = Pending::load(countdown, kind);
    let landed = landed_kind(p.lands());
    let left = p.fall();
    u32::from(left.countdown()) << 16 | u32::from(left.kind()) << 8 | u32::from(landed)
}

// A kind that landed, or 255.
pub fn landed_kind(landed: Option<Transfer>) -> u8 {
    landed.map_or(255, |transfer| transfer.number())
}

// The length of the part, which goes into out.
#[unsafe(no_mangle)]
pub extern "C" fn probe_displayed<'a>(
    live: &'a [u8],
    frozen: &'a [u8],
    mode: u8,
    out: &mut [u8],
) -> usize {
    let part = screen::displayed_screen(live, frozen, mode);
    let n = part.len();
    if n <= out.len() {
        bits::put(out, 0, part);
    }
    n
}

#[unsafe(no_mangle)]
pub extern "C" fn probe_tile_part(tiles: &[u8], n: usize, out: &mut [u8]) -> usize {
    let part = border::tile(tiles, n);
    let long = part.len();
    if long <= out.len() {
        bits::put(out, 0, part);
    }
    long
}

#[unsafe(no_mangle)]
pub extern "C" fn probe_map_entry(map: &[u8], column: usize, row: usize) -> u16
    requires { (length map.now ≡ border_map_bytes) × (column < 32) × (row < 28) }
{
    let entry = border::map_entry(map, column, row);
    entry.0
}

// The border's colour at a pixel, or 65536 where it is transparent.
#[unsafe(no_mangle)]
pub extern "C" fn probe_border_color(
    tiles: &[u8],
    map: &[u8],
    palettes: &[u8],
    x: usize,
    y: usize,
) -> u32
    requires tiles_len { (length tiles.now ≡ tiles_bytes) × (length map.now ≡ border_map_bytes) × (length palettes.now ≡ border_palettes_bytes) }
    requires x_bound { (x < 256) × (y < 224) }
{
    border::color_at(tiles, map, palettes, x, y).map_or(65536, |color| u32::from(color.0))
}

#[unsafe(no_mangle)]
pub extern "C" fn probe_color_at(block: &[u8], x: usize, y: usize, shade: usize) -> u16
    requires block_len { length block.now ≡ block_bytes }
    requires x_bound { (x < 160) × (y < 144) × (shade < 4) }
{
    let colours = screen::Colours {
        palettes: &block[parts::PALETTES..parts::MAP],
        preset: &block[parts::PRESET..parts::PALETTES],
        in_force: block[parts::PRESET_ON] == 1,
    };
    let c = colours.color_at(&block[parts::MAP..parts::SYSTEM], x, y, shade);
    c.0
}

#[unsafe(no_mangle)]
pub extern "C" fn probe_row(block: &[u8], y: usize, out: &mut [u16])
    requires valid { Valid block.now }
    requires y_bound { (y < 224) × (256 ≤ length out.old) }
    ensures { out.new ≡ row_drawn block.now y out.old }
{
    block_picture::draw_row(ValidBlock { bytes: block }, y, out);
}

#[unsafe(no_mangle)]
pub extern "C" fn probe_picture(block: &[u8], out: &mut [u16])
    requires valid { Valid block.now }
    requires in_bounds { 57344 ≤ length out.old }
    ensures { out.new ≡ picture_drawn block.now out.old }
{
    block_picture::draw_picture(ValidBlock { bytes: block }, out);
}
