// ATTR_BLK: rectangles, on the map by value (the crate `attribute_map`).
#![tactic(auto)]

ghost use Rattle.std.specs.Prelude.{◌≡◌, ◌&&◌, ◌+◌, ◌*◌, ◌≤◌, length};
ghost use Rattle.attribute_map.specs.Data.{Whole, changed};
ghost use Rattle.attribute_blocks.specs.Blk.{strictly, within, on_line, blk_pick, blk_cell, set_at, blk_map};

use attribute_map::changed;

// One set, as it stands in the command.
#[derive(Clone, Copy)]
pub struct BlkSet {
    pub control: u8,
    pub palettes: u8,
    pub x1: u8,
    pub y1: u8,
    pub x2: u8,
    pub y2: u8,
}

impl BlkSet {
    // Set i of the command.
    fn at(d: &[u8], i: usize) -> BlkSet
        requires { Whole d.now × (8 + 6 * i ≤ length d.now) }
        ensures { result ≡ set_at d.now i }
    {
        let at = 2 + 6 * i;
        BlkSet {
            control: d[at],
            palettes: d[at + 1],
            x1: d[at + 2],
            y1: d[at + 3],
            x2: d[at + 4],
            y2: d[at + 5],
        }
    }

    // Both sides of each `&` are computed, so that neither test branches on the cell.
    fn cell(self, x: usize, y: usize, old: u8) -> u8
        ensures { result ≡ blk_cell self x y old }
    {
        let inner = strictly(self.x1, x, self.x2) & strictly(self.y1, y, self.y2);
        let covered = within(self.x1, x, self.x2) & within(self.y1, y, self.y2);
        self.pick(inner, covered, old)
    }

    // A cell that held `old`: inside, on the line (covered and not inner), or outside.
    fn pick(self, inner: bool, covered: bool, old: u8) -> u8
        ensures { result ≡ blk_pick self.control self.palettes inner covered old }
    {
        if inner {
            if self.control & 1 != 0 {
                self.palettes & 3
            } else {
                old
            }
        } else if covered {
            self.on_line(old)
        } else if self.control & 4 != 0 {
            self.palettes >> 4 & 3
        } else {
            old
        }
    }

    // With the line unset, and just one of inside and outside set, it follows that one.
    fn on_line(self, old: u8) -> u8
        ensures { result ≡ on_line self.control self.palettes old }
    {
        if self.control & 2 != 0 {
            return self.palettes >> 2 & 3;
        }
        match (self.control & 1 != 0, self.control & 4 != 0) {
            (true, false) => self.palettes & 3,
            (false, true) => self.palettes >> 4 & 3,
            (true, true) | (false, false) => old,
        }
    }
}

pub fn attr_blk(map: [[u8; 20]; 18], d: &[u8]) -> [[u8; 20]; 18]
    requires { Whole d.now }
    ensures { result ≡ blk_map d.now map }
{
    let total = usize::from(d[1]).min((d.len() - 2) / 6);
    let mut m = map;
    for i in 0..total {
        let next = one_set(m, BlkSet::at(d, i));
        m = next;
    }
    m
}

fn one_set(map: [[u8; 20]; 18], s: BlkSet) -> [[u8; 20]; 18]
    ensures { result ≡ changed (blk_cell s) map }
{
    changed(map, |x, y, old| s.cell(x, y, old))
}

fn strictly(a: u8, p: usize, b: u8) -> bool
    ensures { result ≡ strictly a p b }
{
    usize::from(a) < p && p < usize::from(b)
}

fn within(a: u8, p: usize, b: u8) -> bool
    ensures { result ≡ within a p b }
{
    usize::from(a) <= p && p <= usize::from(b)
}
