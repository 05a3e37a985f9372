// ATTR_LIN: whole rows and columns.
ghost use Rattle.std.specs.Prelude.{◌≡◌};
ghost use Rattle.attribute_map.specs.Data.{Whole, changed};
ghost use Rattle.attributes.specs.Lin.{lin_cell, lin_map};

use attribute_map::changed;

pub fn attr_lin(map: [[u8; 20]; 18], d: &[u8]) -> [[u8; 20]; 18]
    requires { Whole d.now }
    ensures { result ≡ lin_map d.now map }
{
    let total = usize::from(d[1]).min(d.len() - 2);
    let mut m = map;
    for i in 0..total {
        let next = line(m, d[2 + i]);
        m = next;
    }
    m
}

fn line(map: [[u8; 20]; 18], b: u8) -> [[u8; 20]; 18]
    ensures { result ≡ changed (lin_cell b) map }
{
    changed(map, |x, y, old| cell(b, x, y, old))
}

// A line past the map meets no cell.
fn cell(b: u8, x: usize, y: usize, old: u8) -> u8
    ensures { result ≡ lin_cell b x y old }
{
    let p = if b & 0x80 != 0 { y } else { x };
    if p == usize::from(b & 0x1F) {
        b >> 5 & 3
    } else {
        old
    }
}
