// How long the spans of a state of the emulator are that comes in (RULES 11.3): refusal 8. The call that refuses is the crate `state`. The meaning
// is `Coming` in the crate `state_spans`.
#![tactic(auto)]

ghost use Rattle.std.specs.Prelude.{◌≡◌, false, MatchOption};
ghost use Rattle.std.proofs.Math.Option.{some};
ghost use Rattle.state_spans.specs.Told.{span_told, state_told};
ghost use Rattle.state_spans.specs.Coming as spec;

use state_spans::Spans;

// The fields, a byte each.
pub const FIELDS: usize = 12;

// A border of which no span is missing.
#[derive(Clone, Copy)]
pub struct Border<'a> {
    pub tiles: &'a [u8],
    pub map: &'a [u8],
    pub palettes: &'a [u8],
}

// A span that must be there with n bytes, and one that may be missing.
fn has(span: Option<&[u8]>, n: usize) -> bool
    ensures { result ≡ spec.has n (span_told span.entry) }
{
    span.is_some_and(|bytes| bytes.len() == n)
}

fn may_have(span: Option<&[u8]>, n: usize) -> bool
    ensures { result ≡ spec.may_have n (span_told span.entry) }
{
    span.is_none_or(|bytes| bytes.len() == n)
}

fn front_fits(spans: &Spans) -> bool
    ensures { result ≡ spec.front_fits spans.now.fields.now (span_told spans.now.packet) (span_told spans.now.packets) (span_told spans.now.preset) }
{
    spans.fields.len() == FIELDS
        && has(spans.packet, parts::PACKET_BYTES)
        && packets_fit(spans.fields[parts::RECEIVED], spans.packets)
        && preset_fits(spans.fields[parts::PRESET_ON], spans.preset)
}

// Sixteen bytes for each packet that is in.
fn packets_fit(received: u8, packets: Option<&[u8]>) -> bool
    ensures { result ≡ spec.packets_fit received (span_told packets.entry) }
{
    received <= 7 && has(packets, 16 * usize::from(received))
}

// Looked at only with its flag.
fn preset_fits(in_force: u8, preset: Option<&[u8]>) -> bool
    ensures { result ≡ spec.preset_fits in_force (span_told preset.entry) }
{
    in_force != 1 || has(preset, parts::PRESET_BYTES)
}

fn tables_fit(spans: &Spans) -> bool
    ensures { result ≡ spec.tables_fit (span_told spans.now.palettes) (span_told spans.now.attribute_map) (span_told spans.now.system_palettes) (span_told spans.now.attribute_files) }
{
    has(spans.palettes, parts::PALETTES_BYTES)
        && has(spans.attribute_map, 4 * parts::MAP_BYTES)
        && has(spans.system_palettes, parts::SYSTEM_BYTES)
        && has(spans.attribute_files, 4 * parts::FILES_BYTES)
}

fn captures_fit(spans: &Spans) -> bool
    ensures { result ≡ spec.captures_fit (span_told spans.now.capture) (span_told spans.now.frozen_capture) }
{
    has(spans.capture, 4 * parts::CAPTURE_BYTES)
        && may_have(spans.frozen_capture, 4 * parts::CAPTURE_BYTES)
}

// A border of which a span is missing is empty.
pub fn whole_border<'a>(spans: &Spans<'a>) -> Option<Border<'a>>
    ensures { MatchOption result (spec.whole_border (span_told spans.now.border_tiles) (span_told spans.now.border_map) (span_told spans.now.border_palettes) ≡ false) (λ b. (span_told spans.now.border_tiles ≡ some b.tiles.now) × ((span_told spans.now.border_map ≡ some b.map.now) × (span_told spans.now.border_palettes ≡ some b.palettes.now))) }
{
    Some(Border {
        tiles: spans.border_tiles?,
        map: spans.border_map?,
        palettes: spans.border_palettes?,
    })
}

fn border_fits(spans: &Spans) -> bool
    ensures { result ≡ spec.border_fits (span_told spans.now.border_tiles) (span_told spans.now.border_map) (span_told spans.now.border_palettes) }
{
    let Some(border) = whole_border(spans) else {
        return true;
    };
    border.tiles.len() == parts::TILES_BYTES
        && border.map.len() == parts::BORDER_MAP_BYTES
        && border.palettes.len() == parts::BORDER_PALETTES_BYTES
}

// All of them.
pub fn fits(spans: &Spans) -> bool
    ensures { result ≡ spec.fits (state_told spans.now) }
{
    front_fits(spans) && tables_fit(spans) && captures_fit(spans) && border_fits(spans)
}
