// The calls that only look at a block, each answer as one number: the value, a refusal as 0x80000000 and its number (with 256 times its
// offset where it has one), transparent as 0x40000000.
use super::calls::{count, number, refusal};

#[unsafe(no_mangle)]
pub extern "C" fn probe_view_refusal(block: &[u8]) -> u32 {
    refusal(view::check(block))
}

#[unsafe(no_mangle)]
pub extern "C" fn probe_view_mask_mode(block: &[u8]) -> u64 {
    u64::from(number(view::mask_mode(block), count))
}

#[unsafe(no_mangle)]
pub extern "C" fn probe_view_backdrop(block: &[u8]) -> u64 {
    u64::from(number(view::backdrop(block), |c| u32::from(c.0)))
}

#[unsafe(no_mangle)]
pub extern "C" fn probe_view_color_at(block: &[u8], x: usize, y: usize, shade: u8) -> u64 {
    let told = view::color_at(block, x, y, shade);
    u64::from(number(told, |c| u32::from(c.0)))
}

#[unsafe(no_mangle)]
pub extern "C" fn probe_view_map_entry(block: &[u8], column: usize, row: usize) -> u64 {
    let told = view::map_entry(block, column, row);
    u64::from(number(told, |word| u32::from(word.0)))
}

#[unsafe(no_mangle)]
pub extern "C" fn probe_view_border_color_at(block: &[u8], x: usize, y: usize) -> u64 {
    let told = view::border_color_at(block, x, y);
    u64::from(number(told, |color| color.map_or(0x40000000, |c| u32::from(c.0))))
}

#[unsafe(no_mangle)]
pub extern "C" fn probe_view_row(block: &[u8], y: usize, out: &mut [u16]) -> u64 {
    u64::from(number(view::row(block, y, out), count))
}

#[unsafe(no_mangle)]
pub extern "C" fn probe_view_picture(block: &[u8], out: &mut [u16]) -> u64 {
    u64::from(number(view::picture(block, out), count))
}
