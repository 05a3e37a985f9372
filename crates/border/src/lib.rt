// The border: a tile's part, a map entry, the colour at a pixel (RULES 6.1 to 6.3). Rust: `SgbBorder`.
#![tactic(auto)]

ghost use Rattle.std.specs.Prelude.{◌≡◌, ◌<◌, true, length};
ghost use Rattle.parts.specs.Parts.{tiles_bytes, border_map_bytes, border_palettes_bytes};
ghost use Rattle.bits.specs.Bit.{bit_at};
ghost use Rattle.border.specs.Tile.{tile_part, index_in};
ghost use Rattle.border.specs.Border.{entry_at, draws, flipped, index_of, in_palette, border_at, colour_of};

use colour::{BorderMapEntry, Rgb555};

// The border's colour at column x and row y of the picture, or none where it is transparent.
pub fn color_at(tiles: &[u8], map: &[u8], palettes: &[u8], x: usize, y: usize) -> Option<Rgb555>
    requires tiles_len { (length tiles.now ≡ tiles_bytes) × (length map.now ≡ border_map_bytes) × (length palettes.now ≡ border_palettes_bytes) }
    requires x_bound { (x < 256) × (y < 224) }
    ensures { colour_of result ≡ border_at tiles.now map.now palettes.now x y }
{
    let entry = map_entry(map, x / 8, y / 8);
    match index(tiles, entry, x % 8, y % 8) {
        0 => None,
        i => Some(in_palette(palettes, entry, i)),
    }
}

#[tactic(auto, unfolding(crate::specs::Border::entry_at, bits::specs::Word::word_at))]
pub fn map_entry(map: &[u8], column: usize, row: usize) -> BorderMapEntry
    requires { (length map.now ≡ border_map_bytes) × (column < 32) × (row < 28) }
    ensures { result.0 ≡ entry_at map.now column row }
{
    let at = (row * 32 + column) * 2;
    BorderMapEntry(bits::word(map[at], map[at + 1]))
}

// The colour index that an entry shows at column x of row y of its cell.
fn index(tiles: &[u8], entry: BorderMapEntry, x: usize, y: usize) -> usize
    requires { (length tiles.now ≡ tiles_bytes) × (x < 8) × (y < 8) }
    ensures { (result ≡ index_of tiles.now entry.0 x y) × (result < 16) }
{
    if draws(entry) {
        let n = usize::from(entry.tile());
        let flip_x = entry.flip_x();
        let flip_y = entry.flip_y();
        return index_in(tile(tiles, n), flipped(flip_y, y), flipped(flip_x, x));
    }
    0
}

// Whether an entry names a tile and a palette that transfers load.
#[tactic(auto, unfolding(crate::specs::Border::draws))]
pub fn draws(entry: BorderMapEntry) -> bool
    ensures { result ≡ draws entry.0 }
{
    let p = entry.palette();
    entry.tile() <= 255 && p >= 4 && p <= 6
}

// A row or a column of a cell, as a flip has it.
// Stays: whether it is flipped is a bit of the map word, as `flipped` takes it.
#[tactic(auto, unfolding(crate::specs::Border::flipped))]
pub fn flipped(flip: bool, k: usize) -> usize
    requires { k < 8 }
    ensures { (result ≡ flipped flip k) × (result < 8) }
{
    if flip { 7 - k } else { k }
}

// The part of the tiles that is tile n.
// It is empty if n is over 255 or the tiles don't have 8,192 bytes, and only then.
// Stays: it refuses by an empty part, as RULES 2.7 and the call for C have it.
#[tactic(auto, unfolding(crate::specs::Tile::tile_part))]
pub fn tile(tiles: &[u8], n: usize) -> &[u8]
    ensures { result.now ≡ tile_part tiles.now n }
{
    if tiles.len() != parts::TILES_BYTES || n > 255 {
        return &tiles[..0];
    }
    let at = n * 32;
    &tiles[at..at + 32]
}

// The colour index in a tile: its low two bits from the tile's first half, its high two from the second.
fn index_in(tile: &[u8], row: usize, column: usize) -> usize
    requires { (length tile.now ≡ 32) × (row < 8) × (column < 8) }
    ensures { (result ≡ index_in tile.now row column) × (result < 16) }
{
    let at = row * 2;
    let k = 7 - column;
    bit(tile[at], k)
        + bit(tile[at + 1], k) * 2
        + bit(tile[at + 16], k) * 4
        + bit(tile[at + 17], k) * 8
}

fn bit(b: u8, k: usize) -> usize
    requires { k < 8 }
    ensures { (result ≡ bit_at k b) × (result < 2) }
{
    usize::from(b) >> k & 1
}

// Colour i of an entry's palette.
fn in_palette(palettes: &[u8], entry: BorderMapEntry, i: usize) -> Rgb555
    requires palettes_len { (length palettes.now ≡ border_palettes_bytes) × (i < 16) }
    requires value { draws entry.0 ≡ true }
    ensures { result.0 ≡ in_palette palettes.now entry.0 i }
{
    let p = usize::from(entry.palette() - 4);
    let at = (p * 16 + i) * 2;
    Rgb555::from_bytes(palettes[at], palettes[at + 1])
}
