// A block that goes out as a state of the emulator, step by step (RULES 11.6): the room that is lent, and the spans group by group. The call that
// refuses is the crate `state`. The meaning is `Going` in `state_spans`.
// Stays: the block's length is a clause. Each caller is lent a slice, and would turn it into an array at each call by a conversion whose failure it has
// to rule out, which is no plainer.
#![tactic(auto)]

ghost use Rattle.std.specs.Prelude.{◌≡◌, true, cond, ◌≤◌, length};
ghost use Rattle.std.proofs.Math.Option.{some};
ghost use Rattle.layout.specs.Block.{byte, is_set};
ghost use Rattle.parts.specs.Parts.{block_bytes, received_at, packet_bytes, store_bytes, preset_bytes, palettes_bytes, system_bytes, tiles_bytes, border_map_bytes, border_palettes_bytes};
ghost use Rattle.state_spans.specs.State.{field_bytes, map_cells, files_cells, capture_pixels, present_in};
ghost use Rattle.state_spans.specs.Told.{lent_told, SameRoom};
ghost use Rattle.state_spans.specs.Going as spec;

use bits::put;
use state_cells::unpack_cells;
use state_fits::FIELDS;
use state_spans::SpansMut;

// ---- room for the longest that each can be: refusal 6

fn front_room(room: &SpansMut) -> bool
    ensures { result ≡ spec.front_room room.now.fields.now room.now.packet.now room.now.packets.now room.now.preset.now }
{
    room.fields.len() >= FIELDS
        && room.packet.len() >= parts::PACKET_BYTES
        && room.packets.len() >= parts::STORE_BYTES
        && room.preset.len() >= parts::PRESET_BYTES
}

fn tables_room(room: &SpansMut) -> bool
    ensures { result ≡ spec.tables_room room.now.palettes.now room.now.attribute_map.now room.now.system_palettes.now room.now.attribute_files.now }
{
    room.palettes.len() >= parts::PALETTES_BYTES
        && room.attribute_map.len() >= 4 * parts::MAP_BYTES
        && room.system_palettes.len() >= parts::SYSTEM_BYTES
        && room.attribute_files.len() >= 4 * parts::FILES_BYTES
}

fn captures_room(room: &SpansMut) -> bool
    ensures { result ≡ spec.captures_room room.now.capture.now room.now.frozen_capture.now }
{
    room.capture.len() >= 4 * parts::CAPTURE_BYTES
        && room.frozen_capture.len() >= 4 * parts::CAPTURE_BYTES
}

fn border_room(room: &SpansMut) -> bool
    ensures { result ≡ spec.border_room room.now.border_tiles.now room.now.border_map.now room.now.border_palettes.now }
{
    room.border_tiles.len() >= parts::TILES_BYTES
        && room.border_map.len() >= parts::BORDER_MAP_BYTES
        && room.border_palettes.len() >= parts::BORDER_PALETTES_BYTES
}

pub fn roomy(room: &SpansMut) -> bool
    ensures { result ≡ spec.roomy (lent_told room.now) }
{
    front_room(room) && tables_room(room) && captures_room(room) && border_room(room)
}

// ---- the spans

// Fields, current packet, the packets that are in, and the preset if it is in force.
// Stays: the slices of one group, and not the struct: each function would have to tell that the other fields stay as they were.
fn lay_front(
    block: &[u8],
    fields: &mut [u8],
    packet: &mut [u8],
    packets: &mut [u8],
    preset: &mut [u8],
)
    requires { (length block.now ≡ block_bytes) × ((byte received_at block.now ≤ 7) × ((field_bytes ≤ length fields.old) × ((packet_bytes ≤ length packet.old) × ((store_bytes ≤ length packets.old) × (preset_bytes ≤ length preset.old))))) }
    ensures fields_after { fields.new ≡ spec.laid (some (spec.state_of block.now).fields) fields.old }
    ensures packet_after { packet.new ≡ spec.laid (spec.state_of block.now).packet packet.old }
    ensures packets_after { packets.new ≡ spec.laid (spec.state_of block.now).packets packets.old }
    ensures preset_after { preset.new ≡ spec.laid (spec.state_of block.now).preset preset.old }
{
    put(fields, 0, &block[0..FIELDS]);
    put(packet, 0, &block[parts::PACKET..parts::STORE]);
    let end = parts::STORE + 16 * usize::from(block[parts::RECEIVED]);
    put(packets, 0, &block[parts::STORE..end]);
    if block[parts::PRESET_ON] == 1 {
        put(preset, 0, &block[parts::PRESET..parts::PALETTES]);
    }
}

// Stays: as `lay_front`.
fn lay_tables(
    block: &[u8],
    palettes: &mut [u8],
    attribute_map: &mut [u8],
    system_palettes: &mut [u8],
    attribute_files: &mut [u8],
)
    requires { (length block.now ≡ block_bytes) × ((palettes_bytes ≤ length palettes.old) × ((map_cells ≤ length attribute_map.old) × ((system_bytes ≤ length system_palettes.old) × (files_cells ≤ length attribute_files.old)))) }
    ensures palettes_after { palettes.new ≡ spec.laid (spec.state_of block.now).palettes palettes.old }
    ensures attribute_map_after { attribute_map.new ≡ spec.laid (spec.state_of block.now).attribute_map attribute_map.old }
    ensures system_palettes_after { system_palettes.new ≡ spec.laid (spec.state_of block.now).system_palettes system_palettes.old }
    ensures attribute_files_after { attribute_files.new ≡ spec.laid (spec.state_of block.now).attribute_files attribute_files.old }
{
    put(palettes, 0, &block[parts::PALETTES..parts::MAP]);
    unpack_cells(attribute_map, &block[parts::MAP..parts::SYSTEM]);
    put(system_palettes, 0, &block[parts::SYSTEM..parts::FILES]);
    unpack_cells(attribute_files, &block[parts::FILES..parts::LIVE]);
}

// The live capture, and the frozen one if there is one.
fn lay_captures(block: &[u8], capture: &mut [u8], frozen_capture: &mut [u8])
    requires { (length block.now ≡ block_bytes) × ((capture_pixels ≤ length capture.old) × (capture_pixels ≤ length frozen_capture.old)) }
    ensures capture_after { capture.new ≡ spec.laid (spec.state_of block.now).capture capture.old }
    ensures frozen_capture_after { frozen_capture.new ≡ spec.laid (spec.state_of block.now).frozen_capture frozen_capture.old }
{
    unpack_cells(capture, &block[parts::LIVE..parts::FROZEN]);
    if block[parts::FROZEN_ON] == 1 {
        unpack_cells(frozen_capture, &block[parts::FROZEN..parts::TILES]);
    }
}

// Stays: as `lay_front`.
fn lay_border(
    block: &[u8],
    border_tiles: &mut [u8],
    border_map: &mut [u8],
    border_palettes: &mut [u8],
)
    requires { (length block.now ≡ block_bytes) × ((tiles_bytes ≤ length border_tiles.old) × ((border_map_bytes ≤ length border_map.old) × (border_palettes_bytes ≤ length border_palettes.old))) }
    ensures border_tiles_after { border_tiles.new ≡ spec.laid (spec.state_of block.now).border_tiles border_tiles.old }
    ensures border_map_after { border_map.new ≡ spec.laid (spec.state_of block.now).border_map border_map.old }
    ensures border_palettes_after { border_palettes.new ≡ spec.laid (spec.state_of block.now).border_palettes border_palettes.old }
{
    put(border_tiles, 0, &block[parts::TILES..parts::BORDER_MAP]);
    put(
        border_map,
        0,
        &block[parts::BORDER_MAP..parts::BORDER_PALETTES],
    );
    put(
        border_palettes,
        0,
        &block[parts::BORDER_PALETTES..parts::BLOCK],
    );
}

// All of them.
pub fn lay(block: &[u8], room: &mut SpansMut)
    requires { (length block.now ≡ block_bytes) × ((byte received_at block.now ≤ 7) × (spec.roomy (lent_told room.old) ≡ true)) }
    ensures same_room { SameRoom room.new room.old }
    ensures spans_after { lent_told room.new ≡ spec.laid_all (spec.state_of block.now) (lent_told room.old) }
{
    lay_front(block, room.fields, room.packet, room.packets, room.preset);
    lay_tables(
        block,
        room.palettes,
        room.attribute_map,
        room.system_palettes,
        room.attribute_files,
    );
    lay_captures(block, room.capture, room.frozen_capture);
    lay_border(
        block,
        room.border_tiles,
        room.border_map,
        room.border_palettes,
    );
}

// Which spans are there: all, but for the frozen capture (bit 7) and the preset (bit 8) where there is none. Without these two the twelve bits are
// 3711.
pub fn present_in(block: &[u8]) -> usize
    requires { length block.now ≡ block_bytes }
    ensures { result ≡ present_in (spec.state_of block.now) }
{
    3711 + bit(block[parts::FROZEN_ON], 128) + bit(block[parts::PRESET_ON], 256)
}

fn bit(on: u8, value: usize) -> usize
    ensures { (result ≡ cond (is_set on) value 0) × (result ≤ value) }
{
    if on == 1 { value } else { 0 }
}
