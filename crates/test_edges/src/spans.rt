// Where the fields and the spans of a state stand in one row of bytes, in their order (RULES 11.1 and 11.2), so that an example changes a byte of
// it by its place. The fields are the block's first bytes: `parts` has their places.
pub const PALETTES: usize = 12;

pub const MAP: usize = PALETTES + parts::PALETTES_BYTES;

pub const SYSTEM: usize = MAP + 4 * parts::MAP_BYTES;

pub const FILES: usize = SYSTEM + parts::SYSTEM_BYTES;

pub const PACKET: usize = FILES + 4 * parts::FILES_BYTES;

pub const PACKETS: usize = PACKET + parts::PACKET_BYTES;

pub const CAPTURE: usize = PACKETS + parts::STORE_BYTES;

pub const FROZEN: usize = CAPTURE + 4 * parts::CAPTURE_BYTES;

pub const PRESET: usize = FROZEN + 4 * parts::CAPTURE_BYTES;

pub const TILES: usize = PRESET + parts::PRESET_BYTES;

pub const BORDER_MAP: usize = TILES + parts::TILES_BYTES;

pub const BORDER_PALETTES: usize = BORDER_MAP + parts::BORDER_MAP_BYTES;

// The whole row: 76,996 bytes.
pub const ROW: usize = BORDER_PALETTES + parts::BORDER_PALETTES_BYTES;

// Those that are there, a bit each, in the state that the block of `new` goes out as: all but the frozen capture, span 7.
pub const NEW: u16 = 4095 - 128;
