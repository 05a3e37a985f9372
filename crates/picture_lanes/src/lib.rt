// The eight colour indices of a row of a border tile at once, a lane of four bits each, so that a run of eight pixels reads its map word and
// its four plane bytes once. A table, made once a picture, has every plane byte spread over eight lanes.
#![tactic(auto)]

ghost use Rattle.std.specs.Prelude.{◌≡◌, ◌<◌, ◌≤◌, ◌+◌, length};
ghost use Rattle.parts.specs.Parts.{tiles_bytes};
ghost use Rattle.bits.specs.Tab.{tab};
ghost use Rattle.bits.specs.Paint.{Painted};
ghost use Rattle.border.specs.Tile.{index_in};
ghost use Rattle.border.specs.Border.{flipped, index_of};
ghost use Rattle.picture_lanes.specs.Lanes.{lanes, lane, plane_lanes, spread_of};

use colour::BorderMapEntry;

// Lane j.
pub fn nibble(l: u32, j: usize) -> usize
    requires { j < 8 }
    ensures { (result ≡ lane l j) × (result < 16) }
{
    (l >> (4 * j) & 15) as usize
}

// The eight indices that an entry shows in row y of its cell; all 0 where it draws nothing.
// Stays: what the table holds is a clause, since it is filled in place, before which it isn't so.
pub fn indices(tiles: &[u8], spreads: &[u32], entry: BorderMapEntry, y: usize) -> u32
    requires tiles_len { (length tiles.now ≡ tiles_bytes) × (y < 8) }
    requires spreads_value { spreads.now ≡ tab 512 spread_of }
    ensures { result ≡ lanes 8 (λ x. index_of tiles.now entry.0 x y) }
{
    if border::draws(entry) {
        let n = usize::from(entry.tile());
        let right = entry.flip_x();
        let flip_y = entry.flip_y();
        return indices_in(
            border::tile(tiles, n),
            spreads,
            border::flipped(flip_y, y),
            right,
        );
    }
    0
}

// Those of a tile's row, from the right if it is flipped. The planes' lanes don't meet, so a sum puts them together.
// Stays: `right` is a bit of the map word, and half of the table; `flipped` takes it so.
fn indices_in(tile: &[u8], spreads: &[u32], row: usize, right: bool) -> u32
    requires tile_len { (length tile.now ≡ 32) × (row < 8) }
    requires spreads_value { spreads.now ≡ tab 512 spread_of }
    ensures { result ≡ lanes 8 (λ j. index_in tile.now row (flipped right j)) }
{
    let at = row * 2;
    let a = spread_at(spreads, right, tile[at]);
    let b = spread_at(spreads, right, tile[at + 1]);
    let c = spread_at(spreads, right, tile[at + 16]);
    let d = spread_at(spreads, right, tile[at + 17]);
    a + (b + (c + d * 2) * 2) * 2
}

// A plane byte's eight bits.
// Stays: `right` as in `indices_in`.
fn spread_at(spreads: &[u32], right: bool, b: u8) -> u32
    requires { spreads.now ≡ tab 512 spread_of }
    ensures { (result ≡ plane_lanes right b) × (result ≤ 286331153) }
{
    if right {
        spreads[256 + usize::from(b)]
    } else {
        spreads[usize::from(b)]
    }
}

// The table.
pub fn fill_spreads(out: &mut [u32])
    requires { length out.old ≡ 512 }
    ensures { out.new ≡ tab 512 spread_of }
{
    fill_half::<0>(out);
    fill_half::<256>(out);
}

// The half of the table from FROM on. FROM is a constant, so each instance's loop is compiled with its side alone.
fn fill_half<const FROM: usize>(out: &mut [u32])
    requires { (length out.old ≡ 512) × (FROM ≤ 256) }
    ensures { Painted out.new out.old FROM 256 (λ k. spread_of (FROM + k)) }
{
    for k in 0..256 {
        out[FROM + k] = spread((FROM + k) as u32);
    }
}

// Entry k of the table.
fn spread(k: u32) -> u32
    requires { k < 512 }
    ensures { result ≡ spread_of k }
{
    if k < 256 {
        from_left(k)
    } else {
        from_right(k - 256)
    }
}

// Bit 7 in the lowest lane: halves, quarters and eighths change places.
// Stays: beside `from_right`. Of their three lines each all shifts differ.
fn from_left(b: u32) -> u32
    requires { b < 256 }
    ensures { result ≡ spread_of b }
{
    let x = (b >> 4 | b << 16) & 0x000F000F;
    let z = (x >> 2 | x << 8) & 0x03030303;
    (z >> 1 | z << 4) & 0x11111111
}

// Bit 0 in the lowest lane: they only move apart.
fn from_right(b: u32) -> u32
    requires { b < 256 }
    ensures { result ≡ spread_of (256 + b) }
{
    let x = (b | b << 12) & 0x000F000F;
    let z = (x | x << 6) & 0x03030303;
    (z | z << 3) & 0x11111111
}
