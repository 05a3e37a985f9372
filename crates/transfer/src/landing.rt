// The landings. Each is lent the one part of the block that it writes, and the screen that lands. RULES 5.4.
// Stays: a landing for each part, though two write the same bytes: each lands on its own part, a rule of the project, and its contract names that part.
ghost use Rattle.std.specs.Prelude.{◌≡◌, length};
ghost use Rattle.parts.specs.Parts.{system_bytes, files_bytes, capture_bytes, half_bytes, border_bytes};
ghost use Rattle.transfer.specs.Landing.{palettes_landed, files_landed, tiles_landed, map_landed};

use crate::page::PAGE_BYTES;

// PAL_TRN: the 512 system palettes (`parts::SYSTEM`).
pub fn land_palettes(part: &mut [u8], screen: &[u8])
    requires { (length part.old ≡ system_bytes) × (length screen.now ≡ capture_bytes) }
    ensures { part.new ≡ palettes_landed screen.now }
{
    crate::page::page(part, screen);
}

// ATTR_TRN: the 45 attribute files (`parts::FILES`).
pub fn land_files(part: &mut [u8], screen: &[u8])
    requires { (length part.old ≡ files_bytes) × (length screen.now ≡ capture_bytes) }
    ensures { part.new ≡ files_landed screen.now }
{
    let mut page = [0u8; PAGE_BYTES];
    crate::page::page(&mut page, screen);
    bits::put(part, 0, &page[0..parts::FILES_BYTES]);
}

// CHR_TRN: a half of the border's tiles, the lower (`parts::TILES`) or the upper (`parts::UPPER_TILES`).
pub fn land_tiles(part: &mut [u8], screen: &[u8])
    requires { (length part.old ≡ half_bytes) × (length screen.now ≡ capture_bytes) }
    ensures { part.new ≡ tiles_landed screen.now }
{
    crate::page::page(part, screen);
}

// Where the page has the border's palettes.
const PALETTES_FROM: usize = 0x800;

const PALETTES_TO: usize = PALETTES_FROM + parts::BORDER_PALETTES_BYTES;

// PCT_TRN: the border's map and, after it, its palettes (`parts::BORDER_MAP`).
pub fn land_map(part: &mut [u8], screen: &[u8])
    requires { (length part.old ≡ border_bytes) × (length screen.now ≡ capture_bytes) }
    ensures { part.new ≡ map_landed screen.now }
{
    let mut page = [0u8; PAGE_BYTES];
    crate::page::page(&mut page, screen);
    bits::put(part, 0, &page[0..parts::BORDER_MAP_BYTES]);
    bits::put(
        part,
        parts::BORDER_MAP_BYTES,
        &page[PALETTES_FROM..PALETTES_TO],
    );
}
