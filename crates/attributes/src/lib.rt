// The attribute commands on the map by value, eighteen rows of twenty: ATTR_LIN and ATTR_DIV.
// RULES 4.6 and 4.7; Pan Docs, Attributes. The map itself and its packed bytes are in the crate `attribute_map`.
// ATTR_BLK is in the crate `attribute_blocks`, ATTR_CHR in `attribute_cells`.
#![tactic(auto)]

mod div;
mod lin;

pub use div::attr_div;
pub use lin::attr_lin;
