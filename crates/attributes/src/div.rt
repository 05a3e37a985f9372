// ATTR_DIV: the map in two halves and the line between.
ghost use Rattle.std.specs.Prelude.{◌≡◌};
ghost use Rattle.attribute_map.specs.Data.{Whole};
ghost use Rattle.attributes.specs.Div.{side_of, div_cell, div_map};

use attribute_map::changed;

// Every cell of the map is replaced.
pub fn attr_div(map: [[u8; 20]; 18], d: &[u8]) -> [[u8; 20]; 18]
    requires { Whole d.now }
    ensures { result ≡ div_map d.now }
{
    let flags = d[1];
    let at = d[2];
    changed(map, |x, y, _| cell(flags, at, x, y))
}

fn cell(flags: u8, at: u8, x: usize, y: usize) -> u8
    ensures { result ≡ div_cell flags at x y }
{
    let p = if flags & 0x40 != 0 { y } else { x };
    side(flags, usize::from(at), p)
}

// A row or column before the line, on it, or after it.
fn side(flags: u8, at: usize, p: usize) -> u8
    ensures { result ≡ side_of flags at p }
{
    if p < at {
        flags >> 2 & 3
    } else if p == at {
        flags >> 4 & 3
    } else {
        flags & 3
    }
}
