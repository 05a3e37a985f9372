// ATTR_CHR: cell after cell, on the map by value (the crate `attribute_map`).
#![tactic(auto)]

ghost use Rattle.std.specs.Prelude.{◌≡◌, ◌+◌, ◌-◌, ◌*◌, ◌≤◌, ◌<◌, length};
ghost use Rattle.attribute_map.specs.Data.{Whole, steps};
ghost use Rattle.attribute_cells.specs.Chr.{next, place_of, put_at, pair_of_data, chr_map};

// A place on the map, or off it: a start may be anywhere, and neither number wraps at 256.
#[derive(Clone, Copy)]
pub struct Spot {
    pub x: usize,
    pub y: usize,
}

impl Spot {
    // Along a row and then to the next row, or down a column and then to the next column.
    // Stays: `along` as a bool. The definitions `next` and `place_of` take it so.
    fn next(self, along: bool) -> Spot
        requires { (self.x < 65536) × (self.y < 65536) }
        ensures { result ≡ next along self }
    {
        let Spot { x, y } = self;
        if along {
            if x + 1 < 20 {
                Spot { x: x + 1, y }
            } else {
                Spot { x: 0, y: y + 1 }
            }
        } else if y + 1 < 18 {
            Spot { x, y: y + 1 }
        } else {
            Spot { x: x + 1, y: 0 }
        }
    }
}

pub fn attr_chr(map: [[u8; 20]; 18], d: &[u8]) -> [[u8; 20]; 18]
    requires { Whole d.now }
    ensures { result ≡ chr_map d.now map }
{
    let count = usize::from(bits::word(d[3], d[4]));
    let total = count.min(4 * (d.len() - 6));
    let start = Spot {
        x: usize::from(d[1]),
        y: usize::from(d[2]),
    };
    run(map, d, start, d[5] == 0, total)
}

// The first `total` pairs of the data, one place after another.
// Stays: `along` as in `next`.
fn run(map: [[u8; 20]; 18], d: &[u8], start: Spot, along: bool, total: usize) -> [[u8; 20]; 18]
    requires { Whole d.now × (total ≤ 4 * (length d.now - 6)) × (start.x < 256) × (start.y < 256) }
    ensures { result ≡ steps (λ k. put_at (place_of along start k) (pair_of_data d.now k)) total map }
{
    let mut m = map;
    let mut s = start;
    for k in 0..total {
        let v = bits::pair(d[6 + k / 4], (k % 4) as u8);
        // A place off the map uses v up.
        if s.x < 20 && s.y < 18 {
            m[s.y][s.x] = v;
        }
        s = s.next(along);
    }
    m
}
