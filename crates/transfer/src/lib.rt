// Transfers: what is pending (pending), the page that a screen shows (page), and the landings on their own lent parts (landing).
// RULES 5; Rust: `screen_to_transfer_data`, `PendingTransfer`, `load_tiles`, `load_map_and_palettes`,
// `cmd_pal_trn`, `cmd_attr_trn`.
#![tactic(auto)]

pub mod landing;
pub mod page;
pub mod pending;
