// The leaves of `bits` and `colour`.
ghost use Rattle.std.specs.Prelude.{◌≡◌, ◌+◌, ◌<◌, ◌≤◌, length};
ghost use Rattle.bits.specs.Word.{word, low_byte, high_byte};
ghost use Rattle.bits.specs.Pair.{pair_of};
ghost use Rattle.bits.specs.Plane.{plane_of};
ghost use Rattle.bits.specs.Over.{over};
ghost use Rattle.colour.specs.Entry.{tile_of, palette_of};

use colour::{BorderMapEntry, Rgb555};

#[unsafe(no_mangle)]
pub extern "C" fn probe_word(low: u8, high: u8) -> u16
    ensures { result ≡ word low high }
{
    bits::word(low, high)
}

#[unsafe(no_mangle)]
pub extern "C" fn probe_low_byte(w: u16) -> u8
    ensures { result ≡ low_byte w }
{
    bits::low_byte(w)
}

#[unsafe(no_mangle)]
pub extern "C" fn probe_high_byte(w: u16) -> u8
    ensures { result ≡ high_byte w }
{
    bits::high_byte(w)
}

#[unsafe(no_mangle)]
pub extern "C" fn probe_pair(x: u8, j: u8) -> u8
    requires { j < 4 }
    ensures { result ≡ pair_of x j }
{
    bits::pair(x, j)
}

#[unsafe(no_mangle)]
pub extern "C" fn probe_low_plane(a: u8, b: u8) -> u8
    ensures { result ≡ plane_of 0 a b }
{
    bits::low_plane(a, b)
}

#[unsafe(no_mangle)]
pub extern "C" fn probe_high_plane(a: u8, b: u8) -> u8
    ensures { result ≡ plane_of 1 a b }
{
    bits::high_plane(a, b)
}

#[unsafe(no_mangle)]
pub extern "C" fn probe_put(dst: &mut [u8], at: usize, src: &[u8])
    requires { at + length src.now ≤ length dst.old }
    ensures { dst.new ≡ over at (length src.now) src.now dst.old }
{
    bits::put(dst, at, src);
}

#[unsafe(no_mangle)]
pub extern "C" fn probe_all_zero(s: &[u8]) -> u8 {
    u8::from(bits::all_zero(s))
}

// Red, green and blue in one number, red highest.
#[unsafe(no_mangle)]
pub extern "C" fn probe_rgb8(w: u16) -> u32 {
    let c = Rgb555(w).to_rgb8();
    u32::from(c.r) << 16 | u32::from(c.g) << 8 | u32::from(c.b)
}

#[unsafe(no_mangle)]
pub extern "C" fn probe_tile(w: u16) -> u16
    ensures { result ≡ tile_of w }
{
    BorderMapEntry(w).tile()
}

#[unsafe(no_mangle)]
pub extern "C" fn probe_palette(w: u16) -> u16
    ensures { result ≡ palette_of w }
{
    BorderMapEntry(w).palette()
}

#[unsafe(no_mangle)]
pub extern "C" fn probe_flip_x(w: u16) -> u8 {
    u8::from(BorderMapEntry(w).flip_x())
}

#[unsafe(no_mangle)]
pub extern "C" fn probe_flip_y(w: u16) -> u8 {
    u8::from(BorderMapEntry(w).flip_y())
}

#[unsafe(no_mangle)]
pub extern "C" fn probe_colour(low: u8, high: u8) -> u16
    ensures { result ≡ word low high }
{
    let c = Rgb555::from_bytes(low, high);
    c.0
}
