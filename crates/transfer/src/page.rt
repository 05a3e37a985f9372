// The page of 4,096 bytes that a screen shows. The SNES reads it from the picture signal, so the game draws the tiles 0 to 255 in order,
// and their pixels give their own bytes back.
ghost use Rattle.std.specs.Prelude.{◌≡◌, ◌<◌, ◌*◌, length};
ghost use Rattle.parts.specs.Parts.{capture_bytes};
ghost use Rattle.bits.specs.Paint.{Painted};
ghost use Rattle.transfer.specs.Page.{plane_byte, page_bytes, page_of};
ghost use Rattle.transfer.specs.Passes.{planes_of, tile_byte, tiles_byte};

// Plane p (0 low, 1 high) of row r of tile t: the two bytes that pack its eight pixels have it.
pub fn plane_byte(screen: &[u8], t: usize, r: usize, p: usize) -> u8
    requires screen_len { length screen.now ≡ capture_bytes }
    requires t_bound { (t < 256) × (r < 8) × (p < 2) }
    ensures { result ≡ plane_byte screen.now t r p }
{
    let at = (t / 20 * 8 + r) * 40 + t % 20 * 2;
    if p == 0 {
        return bits::low_plane(screen[at], screen[at + 1]);
    }
    bits::high_plane(screen[at], screen[at + 1])
}

// The bytes of a page: 256 tiles of sixteen.
pub const PAGE_BYTES: usize = 256 * 16;

// The page of a screen. In two passes, a quarter of the time of one plane byte after the other: the first has no order to follow,
// so it goes sixteen bytes at a time in vector code.
pub fn page(out: &mut [u8], screen: &[u8])
    requires out_len { length out.old ≡ page_bytes }
    requires screen_len { length screen.now ≡ capture_bytes }
    ensures { out.new ≡ page_of screen.now }
{
    // the thirteen tile rows that hold tiles 0 to 255
    let mut rows = [0u8; 4160];
    planes(&mut rows, screen);
    tiles(out, &rows);
}

// Where two bytes pack eight pixels, their low and their high plane.
fn planes(rows: &mut [u8], screen: &[u8])
    requires rows_len { length rows.old ≡ 4160 }
    requires screen_len { length screen.now ≡ capture_bytes }
    ensures { rows.new ≡ planes_of screen.now }
{
    for k in 0..2080 {
        let i = 2 * k;
        let a = screen[i];
        let b = screen[i + 1];
        rows[i] = bits::low_plane(a, b);
        rows[i + 1] = bits::high_plane(a, b);
    }
}

// The tiles one after the other.
fn tiles(out: &mut [u8], rows: &[u8])
    requires out_len { length out.old ≡ page_bytes }
    requires rows_len { length rows.now ≡ 4160 }
    ensures { Painted out.new out.old 0 page_bytes (tiles_byte rows.now) }
{
    for t in 0..256 {
        tile(out, rows, t);
    }
}

// Tile t: its eight rows stand forty bytes apart.
fn tile(out: &mut [u8], rows: &[u8], t: usize)
    requires out_len { length out.old ≡ page_bytes }
    requires rows_len { length rows.now ≡ 4160 }
    requires t_bound { t < 256 }
    ensures { Painted out.new out.old (t * 16) 16 (tile_byte rows.now t) }
{
    let at = t / 20 * 320 + t % 20 * 2;
    for r in 0..8 {
        let i = at + r * 40;
        let o = t * 16 + 2 * r;
        out[o] = rows[i];
        out[o + 1] = rows[i + 1];
    }
}
