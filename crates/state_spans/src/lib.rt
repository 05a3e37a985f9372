// A state of the emulator, and the block beside it (RULES 11). The meaning is in specs/: `State` (its fields and spans), `Coming` (which block it
// gives), `Going` (what a block says as a state), `Forgotten` (what there and back loses), `Told` (which state or room the structs here are). That
// going out and in again returns the block, and in and out again the state but for what is forgotten, is proved in proofs/. The code here is the
// two structs that the calls take.
#![tactic(auto)]

ghost use Rattle.std.specs.Prelude.{◌≡◌, ◌<◌};
ghost use Rattle.bits.specs.Bit.{bit_of};
ghost use Rattle.state_spans.specs.State.{span_if, state_lent, bytes_in};
ghost use Rattle.state_spans.specs.Told.{span_told, state_told};

// A state that comes in: its fields, a byte each, and its spans in the order of the Rust's `capture_memory`. A span is missing, or there, if only
// with no bytes.
#[derive(Clone, Copy)]
pub struct Spans<'a> {
    pub fields: &'a [u8],
    pub palettes: Option<&'a [u8]>,
    pub attribute_map: Option<&'a [u8]>,
    pub system_palettes: Option<&'a [u8]>,
    pub attribute_files: Option<&'a [u8]>,
    pub packet: Option<&'a [u8]>,
    pub packets: Option<&'a [u8]>,
    pub capture: Option<&'a [u8]>,
    pub frozen_capture: Option<&'a [u8]>,
    pub preset: Option<&'a [u8]>,
    pub border_tiles: Option<&'a [u8]>,
    pub border_map: Option<&'a [u8]>,
    pub border_palettes: Option<&'a [u8]>,
}

impl<'a> Spans<'a> {
    // As C lends it: all spans, and which of them are there as a number of twelve bits, the first span in the least significant.
    // Stays: C lends thirteen slices side by side, so sporedrift_from_spans takes them and its contract cites `state_lent` of them.
    pub fn lent(
        fields: &'a [u8],
        present: u16,
        palettes: &'a [u8],
        attribute_map: &'a [u8],
        system_palettes: &'a [u8],
        attribute_files: &'a [u8],
        packet: &'a [u8],
        packets: &'a [u8],
        capture: &'a [u8],
        frozen_capture: &'a [u8],
        preset: &'a [u8],
        border_tiles: &'a [u8],
        border_map: &'a [u8],
        border_palettes: &'a [u8],
    ) -> Spans<'a>
        ensures { state_told result ≡ state_lent fields.now present palettes.now attribute_map.now system_palettes.now attribute_files.now packet.now packets.now capture.now frozen_capture.now preset.now border_tiles.now border_map.now border_palettes.now }
    {
        Spans {
            fields,
            palettes: span_if(present, 0, palettes),
            attribute_map: span_if(present, 1, attribute_map),
            system_palettes: span_if(present, 2, system_palettes),
            attribute_files: span_if(present, 3, attribute_files),
            packet: span_if(present, 4, packet),
            packets: span_if(present, 5, packets),
            capture: span_if(present, 6, capture),
            frozen_capture: span_if(present, 7, frozen_capture),
            preset: span_if(present, 8, preset),
            border_tiles: span_if(present, 9, border_tiles),
            border_map: span_if(present, 10, border_map),
            border_palettes: span_if(present, 11, border_palettes),
        }
    }
}

// Span k, where its bit is set.
// Stays: for C a span is there by its bit, and so `span_if` of the definitions has it.
fn span_if(present: u16, k: u16, span: &[u8]) -> Option<&[u8]>
    requires { k < 16 }
    ensures { span_told result ≡ span_if k present span.now }
{
    if present >> k & 1 == 1 {
        Some(span)
    } else {
        None
    }
}

// The bytes of a span: none where it is missing.
pub fn bytes_in(span: Option<&[u8]>) -> &[u8]
    ensures { result.now ≡ bytes_in (span_told span.entry) }
{
    match span {
        Some(bytes) => bytes,
        None => &[],
    }
}

// What is lent for a state that goes out: room for its fields and for each span.
#[derive(Drop)]
pub struct SpansMut<'a> {
    pub fields: &'a mut [u8],
    pub palettes: &'a mut [u8],
    pub attribute_map: &'a mut [u8],
    pub system_palettes: &'a mut [u8],
    pub attribute_files: &'a mut [u8],
    pub packet: &'a mut [u8],
    pub packets: &'a mut [u8],
    pub capture: &'a mut [u8],
    pub frozen_capture: &'a mut [u8],
    pub preset: &'a mut [u8],
    pub border_tiles: &'a mut [u8],
    pub border_map: &'a mut [u8],
    pub border_palettes: &'a mut [u8],
}
