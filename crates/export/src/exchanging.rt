// States exchanged with the emulator (the crate `state`). The struct of fields and spans is the header's; what crosses are numbers and slices, with
// the spans' presence as a number of twelve bits.
ghost use Rattle.std.specs.Prelude.{◌≡◌};
ghost use Rattle.state_spans.specs.State.{state_lent};
ghost use Rattle.state_spans.specs.Coming.{from_answer, from_block};
ghost use Rattle.state_spans.specs.Going.{lent, to_answer, to_lent};
ghost use Rattle.export_answers.specs.Coded.{coded, value};

use state_spans::{Spans, SpansMut};

// Stays: the C interface is sporedrift_from_spans and sporedrift_to_spans, to which thirteen slices cross; from here on they are one struct.
#[unsafe(no_mangle)]
pub extern "C" fn sporedrift_from_spans(
    block: &mut [u8],
    fields: &[u8],
    present: u16,
    palettes: &[u8],
    attribute_map: &[u8],
    system_palettes: &[u8],
    attribute_files: &[u8],
    packet: &[u8],
    packets: &[u8],
    capture: &[u8],
    frozen_capture: &[u8],
    preset: &[u8],
    border_tiles: &[u8],
    border_map: &[u8],
    border_palettes: &[u8],
) -> u32
    ensures value { result ≡ from_answer block.old (state_lent fields.now present palettes.now attribute_map.now system_palettes.now attribute_files.now packet.now packets.now capture.now frozen_capture.now preset.now border_tiles.now border_map.now border_palettes.now) }
    ensures block_after { block.new ≡ from_block block.old (state_lent fields.now present palettes.now attribute_map.now system_palettes.now attribute_files.now packet.now packets.now capture.now frozen_capture.now preset.now border_tiles.now border_map.now border_palettes.now) }
{
    let spans = Spans::lent(
        fields,
        present,
        palettes,
        attribute_map,
        system_palettes,
        attribute_files,
        packet,
        packets,
        capture,
        frozen_capture,
        preset,
        border_tiles,
        border_map,
        border_palettes,
    );
    export_answers::coded(state::from_state(block, &spans))
}

#[unsafe(no_mangle)]
pub extern "C" fn sporedrift_to_spans(
    block: &[u8],
    fields: &mut [u8],
    palettes: &mut [u8],
    attribute_map: &mut [u8],
    system_palettes: &mut [u8],
    attribute_files: &mut [u8],
    packet: &mut [u8],
    packets: &mut [u8],
    capture: &mut [u8],
    frozen_capture: &mut [u8],
    preset: &mut [u8],
    border_tiles: &mut [u8],
    border_map: &mut [u8],
    border_palettes: &mut [u8],
) -> u32
    ensures value { result ≡ coded value (to_answer block.now (lent fields.old palettes.old attribute_map.old system_palettes.old attribute_files.old packet.old packets.old capture.old frozen_capture.old preset.old border_tiles.old border_map.old border_palettes.old)) }
    ensures border_palettes_after { lent fields.new palettes.new attribute_map.new system_palettes.new attribute_files.new packet.new packets.new capture.new frozen_capture.new preset.new border_tiles.new border_map.new border_palettes.new ≡ to_lent block.now (lent fields.old palettes.old attribute_map.old system_palettes.old attribute_files.old packet.old packets.old capture.old frozen_capture.old preset.old border_tiles.old border_map.old border_palettes.old) }
{
    let mut room = SpansMut {
        fields,
        palettes,
        attribute_map,
        system_palettes,
        attribute_files,
        packet,
        packets,
        capture,
        frozen_capture,
        preset,
        border_tiles,
        border_map,
        border_palettes,
    };
    export_answers::coded(state::to_state(block, &mut room))
}
