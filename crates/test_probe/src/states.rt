// States of the emulator into a block and out of one. (A module can't have the name of a crate that is used.)
use super::calls::{count, number, refusal};
use state_spans::{Spans, SpansMut};

// The refusal as it is, or 0.
#[unsafe(no_mangle)]
pub extern "C" fn probe_from_state(
    block: &mut [u8],
    fields: &[u8],
    present: u16,
    palettes: &[u8],
    attribute_map: &[u8],
    system_palettes: &[u8],
    attribute_files: &[u8],
    packet: &[u8],
    packets: &[u8],
    capture: &[u8],
    frozen_capture: &[u8],
    preset: &[u8],
    border_tiles: &[u8],
    border_map: &[u8],
    border_palettes: &[u8],
) -> u32 {
    let spans = Spans::lent(
        fields,
        present,
        palettes,
        attribute_map,
        system_palettes,
        attribute_files,
        packet,
        packets,
        capture,
        frozen_capture,
        preset,
        border_tiles,
        border_map,
        border_palettes,
    );
    refusal(state::from_state(block, &spans))
}

// Which spans are there, a bit each; a refusal as 0x80000000 and its number, with 256 times its offset where it has one.
#[unsafe(no_mangle)]
pub extern "C" fn probe_to_state(
    block: &[u8],
    fields: &mut [u8],
    palettes: &mut [u8],
    attribute_map: &mut [u8],
    system_palettes: &mut [u8],
    attribute_files: &mut [u8],
    packet: &mut [u8],
    packets: &mut [u8],
    capture: &mut [u8],
    frozen_capture: &mut [u8],
    preset: &mut [u8],
    border_tiles: &mut [u8],
    border_map: &mut [u8],
    border_palettes: &mut [u8],
) -> u32 {
    let mut room = SpansMut {
        fields,
        palettes,
        attribute_map,
        system_palettes,
        attribute_files,
        packet,
        packets,
        capture,
        frozen_capture,
        preset,
        border_tiles,
        border_map,
        border_palettes,
    };
    number(state::to_state(block, &mut room), count)
}
