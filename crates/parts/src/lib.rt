// Where everything stands in the unit block and how long it is (RULES 1.4 and 1.5): the numbers of specs/Parts as code has
// them. A size is given, and a part starts where the one before it ends.
#![tactic(auto)]

pub const MASK: usize = 0;

pub const INDEX: usize = 1;

pub const PADS: usize = 2;

pub const P15: usize = 3;

pub const BOTH: usize = 4;

pub const STAGE: usize = 5;

pub const EXPECTED: usize = 6;

pub const RECEIVED: usize = 7;

pub const BITS: usize = 8;

pub const PRESET_ON: usize = 9;

pub const COUNTDOWN: usize = 10;

pub const KIND: usize = 11;

pub const FROZEN_ON: usize = 12;

pub const SPARE: usize = 13;

pub const HEADER_BYTES: usize = 16;

pub const PACKET_BYTES: usize = 16;

pub const STORE_BYTES: usize = 112;

pub const PRESET_BYTES: usize = 8;

pub const PALETTES_BYTES: usize = 32;

pub const MAP_BYTES: usize = 90;

pub const SYSTEM_BYTES: usize = 4096;

pub const FILES_BYTES: usize = 45 * MAP_BYTES;

pub const CAPTURE_BYTES: usize = 5760;

// The border's tiles land by halves, and its map and palettes together.
pub const HALF_BYTES: usize = 4096;

pub const TILES_BYTES: usize = 2 * HALF_BYTES;

pub const BORDER_MAP_BYTES: usize = 1792;

pub const BORDER_PALETTES_BYTES: usize = 96;

pub const BORDER_BYTES: usize = BORDER_MAP_BYTES + BORDER_PALETTES_BYTES;

pub const PACKET: usize = HEADER_BYTES;

pub const STORE: usize = PACKET + PACKET_BYTES;

pub const PRESET: usize = STORE + STORE_BYTES;

pub const PALETTES: usize = PRESET + PRESET_BYTES;

pub const MAP: usize = PALETTES + PALETTES_BYTES;

pub const SYSTEM: usize = MAP + MAP_BYTES;

pub const FILES: usize = SYSTEM + SYSTEM_BYTES;

pub const LIVE: usize = FILES + FILES_BYTES;

pub const FROZEN: usize = LIVE + CAPTURE_BYTES;

pub const TILES: usize = FROZEN + CAPTURE_BYTES;

pub const UPPER_TILES: usize = TILES + HALF_BYTES;

pub const BORDER_MAP: usize = TILES + TILES_BYTES;

pub const BORDER_PALETTES: usize = BORDER_MAP + BORDER_MAP_BYTES;

pub const BLOCK: usize = BORDER_PALETTES + BORDER_PALETTES_BYTES;
