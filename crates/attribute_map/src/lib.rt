// The attribute map by value, a palette number for each cell of eighteen rows of twenty, and its ninety packed bytes.
// RULES 1.3; Pan Docs, Attributes. The commands that change a map are in the crate `attributes`,
// ATTR_BLK in `attribute_blocks` and ATTR_CHR in `attribute_cells`; what they share is here.
#![tactic(auto)]

ghost use Rattle.std.specs.Prelude.{◌≡◌, ℕ, ◌+◌, ◌*◌, ◌%◌, ◌<◌, length};
ghost use Rattle.parts.specs.Parts.{map_bytes};
ghost use Rattle.attribute_map.specs.Map.{columns, rows, pack, packed_cell, unpack};
ghost use Rattle.attribute_map.specs.Data.{changed};

// The map that ninety bytes are.
pub fn unpack(bytes: &[u8]) -> [[u8; 20]; 18]
    requires { length bytes.now ≡ map_bytes }
    ensures { result ≡ unpack bytes.now }
{
    changed([[0; 20]; 18], |x, y, _| packed_cell(bytes, x, y))
}

// The cell in column x and row y of ninety bytes.
fn packed_cell(bytes: &[u8], x: usize, y: usize) -> u8
    requires { (length bytes.now ≡ map_bytes) × (x < columns) × (y < rows) }
    ensures { result ≡ packed_cell bytes.now x y }
{
    bits::pair(bytes[5 * y + x / 4], (x % 4) as u8)
}

// The map with each cell changed by a rule of its column, its row and what it held.
pub fn changed<F: Fn(usize, usize, u8) -> u8>(map: [[u8; 20]; 18], rule: F) -> [[u8; 20]; 18]
    requires { (x y old : ℕ) → x < columns → y < rows → F.pre rule x y old }
    ensures { (f : ℕ → ℕ → ℕ → ℕ) → ((x y old new : ℕ) → F.post rule x y old new → new ≡ f x y old) → result ≡ changed f map }
{
    let mut m = map;
    for y in 0..18 {
        for x in 0..20 {
            m[y][x] = rule(x, y, map[y][x]);
        }
    }
    m
}

// A map into its ninety bytes.
pub fn pack(map: [[u8; 20]; 18], bytes: &mut [u8])
    requires { length bytes.old ≡ map_bytes }
    ensures { bytes.new ≡ pack map }
{
    for i in 0..parts::MAP_BYTES {
        let y = i / 5;
        let x = 4 * (i % 5);
        bytes[i] = four(map[y][x], map[y][x + 1], map[y][x + 2], map[y][x + 3]);
    }
}

// Four cells side by side, the first in the high pair. Of each the low two bits are kept.
pub fn four(a: u8, b: u8, c: u8, d: u8) -> u8
    ensures { result ≡ a % 4 * 64 + b % 4 * 16 + c % 4 * 4 + d % 4 }
{
    (a & 3) << 6 | (b & 3) << 4 | (c & 3) << 2 | d & 3
}
