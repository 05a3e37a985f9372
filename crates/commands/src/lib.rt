// A completed command: which it is, and what it does to the pads and the packed attribute map.
// RULES 4; Pan Docs, Command summary. The palette commands are in the crate `palettes`, the mask is `block_plain`'s.
#![tactic(auto)]

mod decoding;
mod files;
mod joypads;
mod maps;

pub use decoding::{Command, FixedCommand, PlainCommand, decode};
pub use files::{attr_set_map, pal_set_map};
pub use joypads::{Pads, mlt_req};
pub use maps::{attr_blk, attr_chr, attr_div, attr_lin};
