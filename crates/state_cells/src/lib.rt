// Palette numbers and shades a byte each, as a state of the emulator has them (RULES 11.2), and packed four to a byte, as the block has them.
// The meaning is in specs/Cells. Each loop takes four of them a turn, by shifts and masks, with no branch that follows them.
#![tactic(auto)]

ghost use Rattle.std.specs.Prelude.{◌≡◌, ◌*◌, ◌≤◌, length};
ghost use Rattle.bits.specs.Over.{over};
ghost use Rattle.state_cells.specs.Cells.{pack_cells, unpack_cells, palette_numbers};

use attribute_map::four;
use bits::pair;

// Four to a byte. Of each the low two bits are kept, as the Rust's `restore_front` keeps those of a shade.
pub fn pack_cells(packed: &mut [u8], cells: &[u8])
    requires { length cells.now ≡ 4 * length packed.old }
    ensures { packed.new ≡ pack_cells (length packed.old) cells.now }
{
    for i in 0..packed.len() {
        packed[i] = four(
            cells[4 * i],
            cells[4 * i + 1],
            cells[4 * i + 2],
            cells[4 * i + 3],
        );
    }
}

// A byte each, at the front of `cells`.
pub fn unpack_cells(cells: &mut [u8], packed: &[u8])
    requires { 4 * length packed.now ≤ length cells.old }
    ensures { cells.new ≡ over 0 (4 * length packed.now) (unpack_cells (length packed.now) packed.now) cells.old }
{
    for i in 0..packed.len() {
        let x = packed[i];
        cells[4 * i] = pair(x, 0);
        cells[4 * i + 1] = pair(x, 1);
        cells[4 * i + 2] = pair(x, 2);
        cells[4 * i + 3] = pair(x, 3);
    }
}

// Whether all are palette numbers. There is no way out before the end, so that many are looked at at once.
pub fn palette_numbers(cells: &[u8]) -> bool
    ensures { result ≡ palette_numbers cells.now }
{
    let mut all: u8 = 0;
    for cell in cells {
        all |= *cell >> 2;
    }
    all == 0
}
