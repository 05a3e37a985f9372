// A state of the emulator that comes in, step by step (RULES 11.4 and 11.5): what stands before the block's palettes, with the rules that it is held
// to, and the parts of the block. How long its spans are is the crate `state_fits`, and the call that refuses `state`. The meaning is `Coming` in
// the crate `state_spans`.
// Stays: the block's length is a clause. Each caller is lent a slice, and would turn it into an array at each call by a conversion whose failure it has
// to rule out, which is no plainer.
#![tactic(auto)]

ghost use Rattle.std.specs.Prelude.{◌≡◌, true, [], ◌∷◌, ◌-◌, ◌*◌, ◌≤◌, length, get_or, replicate};
ghost use Rattle.bits.specs.Over.{over};
ghost use Rattle.refusal.specs.Codes.{code_or_0};
ghost use Rattle.layout.specs.Block.{flag, flat, is_held, is_set};
ghost use Rattle.parts.specs.Parts.{block_bytes, packet_bytes, store_bytes, preset_on_at, preset_bytes, palettes_at, palettes_bytes, map_at, map_bytes, system_at, system_bytes, files_at, files_bytes, live_at, capture_bytes, frozen_at, tiles_at, tiles_bytes, border_map_at, border_map_bytes, border_palettes_at, border_palettes_bytes};
ghost use Rattle.state_cells.specs.Cells.{pack_cells};
ghost use Rattle.state_spans.specs.State.{field_bytes, map_cells, files_cells, capture_pixels, is_there, bytes_in};
ghost use Rattle.state_spans.specs.Told.{span_told, state_told};
ghost use Rattle.state_spans.specs.Coming as spec;
ghost use Rattle.state_in.specs.Front.{front_number};

use bits::{clear, put};
use block_broken::broken_front;
use block_valid::mask_allows;
use refusal::{Refusal, Rule};
use state_cells::pack_cells;
use state_fits::whole_border;
use state_spans::{Spans, bytes_in};

// ---- what stands before the palettes, and the rules: refusals 21 to 26

// With a countdown of 0 nothing is pending, whichever of the five kinds was kept.
fn kind_taken(countdown: u8, kind: u8) -> u8
    ensures { result ≡ spec.kind_taken countdown kind }
{
    if countdown == 0 && kind <= 4 { 0 } else { kind }
}

// The front of the block that a state gives: header, current packet, packet store, preset.
pub fn fill_front(front: &mut [u8], spans: &Spans)
    requires { (length front.old ≡ palettes_at) × ((length spans.now.fields.now ≡ field_bytes) × ((length (bytes_in (span_told spans.now.packet)) ≡ packet_bytes) × ((length (bytes_in (span_told spans.now.packets)) ≤ store_bytes) × (is_set (get_or spans.now.fields.now preset_on_at 0) ≡ true → length (bytes_in (span_told spans.now.preset)) ≡ preset_bytes)))) }
    ensures { front.new ≡ spec.front_from spans.now.fields.now (is_held (span_told spans.now.frozen_capture)) (span_told spans.now.packet) (span_told spans.now.packets) (span_told spans.now.preset) }
{
    fill_header(front, spans.fields, spans.frozen_capture.is_some());
    put(front, parts::PACKET, bytes_in(spans.packet));
    put(front, parts::STORE, bytes_in(spans.packets));
    if spans.fields[parts::PRESET_ON] == 1 {
        put(front, parts::PRESET, bytes_in(spans.preset));
    }
}

// Its header, and zeros behind it.
// Stays: `frozen` is a byte of the header, as `header_from` takes it.
fn fill_header(front: &mut [u8], fields: &[u8], frozen: bool)
    requires { (length front.old ≡ palettes_at) × (length fields.now ≡ field_bytes) }
    ensures { front.new ≡ flat (spec.header_from fields.now (flag frozen) ∷ replicate packet_bytes 0 ∷ replicate store_bytes 0 ∷ replicate preset_bytes 0 ∷ []) }
{
    clear(front);
    put(front, parts::MASK, fields);
    front[parts::KIND] = kind_taken(fields[parts::COUNTDOWN], fields[parts::KIND]);
    front[parts::FROZEN_ON] = u8::from(frozen);
}

// The first rule that the block with this front would break, and its byte, as a refusal. Of V6 it asks only whether the mask mode and byte 12 go
// together: the capture of a state is zeros where none is there.
pub fn broken_rule(front: &[u8]) -> Result<(), Refusal>
    requires { length front.now ≡ palettes_at }
    ensures { code_or_0 result ≡ front_number front.now }
{
    broken_front(front)?;
    if !mask_allows(front[parts::MASK], front[parts::FROZEN_ON]) {
        return Err(Refusal::Broken(Rule::V6, parts::MASK as u16));
    }
    Ok(())
}

// ---- the parts of the block

pub fn put_tables(block: &mut [u8], front: &[u8], spans: &Spans)
    requires { (length block.old ≡ block_bytes) × ((length front.now ≡ palettes_at) × ((length (bytes_in (span_told spans.now.palettes)) ≡ palettes_bytes) × ((length (bytes_in (span_told spans.now.attribute_map)) ≡ map_cells) × ((length (bytes_in (span_told spans.now.system_palettes)) ≡ system_bytes) × (length (bytes_in (span_told spans.now.attribute_files)) ≡ files_cells))))) }
    ensures { block.new ≡ over files_at files_bytes (pack_cells files_bytes (bytes_in (span_told spans.now.attribute_files))) (over system_at system_bytes (bytes_in (span_told spans.now.system_palettes)) (over map_at map_bytes (pack_cells map_bytes (bytes_in (span_told spans.now.attribute_map))) (over palettes_at palettes_bytes (bytes_in (span_told spans.now.palettes)) (over 0 palettes_at front.now block.old)))) }
{
    put(block, parts::MASK, front);
    put(block, parts::PALETTES, bytes_in(spans.palettes));
    put_cells(
        block,
        parts::MAP,
        parts::SYSTEM,
        bytes_in(spans.attribute_map),
    );
    put(block, parts::SYSTEM, bytes_in(spans.system_palettes));
    put_cells(
        block,
        parts::FILES,
        parts::LIVE,
        bytes_in(spans.attribute_files),
    );
}

// The live capture, and the frozen one or zeros.
pub fn put_captures(block: &mut [u8], spans: &Spans)
    requires { (length block.old ≡ block_bytes) × ((length (bytes_in (span_told spans.now.capture)) ≡ capture_pixels) × (is_there (span_told spans.now.frozen_capture) ≡ true → length (bytes_in (span_told spans.now.frozen_capture)) ≡ capture_pixels)) }
    ensures { block.new ≡ over frozen_at capture_bytes (spec.frozen_from (span_told spans.now.frozen_capture)) (over live_at capture_bytes (pack_cells capture_bytes (bytes_in (span_told spans.now.capture))) block.old) }
{
    put_cells(block, parts::LIVE, parts::FROZEN, bytes_in(spans.capture));
    match spans.frozen_capture {
        Some(pixels) => put_cells(block, parts::FROZEN, parts::TILES, pixels),
        None => clear_in(block, parts::FROZEN, parts::TILES),
    }
}

// Its tiles, map and palettes, or zeros where a span is missing.
pub fn put_border(block: &mut [u8], spans: &Spans)
    requires { (length block.old ≡ block_bytes) × ((spec.border_of (state_told spans.now) ≡ true → length (bytes_in (span_told spans.now.border_tiles)) ≡ tiles_bytes) × ((spec.border_of (state_told spans.now) ≡ true → length (bytes_in (span_told spans.now.border_map)) ≡ border_map_bytes) × (spec.border_of (state_told spans.now) ≡ true → length (bytes_in (span_told spans.now.border_palettes)) ≡ border_palettes_bytes))) }
    ensures { block.new ≡ over border_palettes_at border_palettes_bytes (spec.border_from (spec.border_of (state_told spans.now)) border_palettes_bytes (span_told spans.now.border_palettes)) (over border_map_at border_map_bytes (spec.border_from (spec.border_of (state_told spans.now)) border_map_bytes (span_told spans.now.border_map)) (over tiles_at tiles_bytes (spec.border_from (spec.border_of (state_told spans.now)) tiles_bytes (span_told spans.now.border_tiles)) block.old)) }
{
    match whole_border(spans) {
        Some(border) => {
            put(block, parts::TILES, border.tiles);
            put(block, parts::BORDER_MAP, border.map);
            put(block, parts::BORDER_PALETTES, border.palettes);
        }
        None => {
            clear_in(block, parts::TILES, parts::BORDER_MAP);
            clear_in(block, parts::BORDER_MAP, parts::BORDER_PALETTES);
            clear_in(block, parts::BORDER_PALETTES, parts::BLOCK);
        }
    }
}

// Cells or pixels, a byte each, into a part that has four to a byte; and zeros into a part.
// Stays: the bounds of the part, and not the part: `over` tells by them what is left of the rest of the block.
fn put_cells(block: &mut [u8], from: usize, to: usize, cells: &[u8])
    requires { (from ≤ to) × ((to ≤ length block.old) × (length cells.now ≡ 4 * (to - from))) }
    ensures { block.new ≡ over from (to - from) (pack_cells (to - from) cells.now) block.old }
{
    pack_cells(&mut block[from..to], cells);
}

// Stays: the bounds of the part, and not the part: `over` tells by them what is left of the rest of the block.
fn clear_in(block: &mut [u8], from: usize, to: usize)
    requires { (from ≤ to) × (to ≤ length block.old) }
    ensures { block.new ≡ over from (to - from) (replicate (to - from) 0) block.old }
{
    clear(&mut block[from..to]);
}
