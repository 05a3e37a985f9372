// States of the emulator, by both public calls (RULES 10.2 and 11): the state that the block of `new` goes out as, changed in a thing or two.
// (A module can't have the name of a crate that is used.) A state is one row of bytes here: `spans` has the places.
use crate::spans;
use bits::all_zero;
use refusal::Refusal;
use state_spans::{Spans, SpansMut};
use std::io::Stdout;
use test_text::{checked, line, number, say};

pub fn examples(stdout: Stdout, block: &mut [u8]) {
    let _ = unit::new(block);
    there_and_back(stdout, block);
    frozen(stdout, block);
    border(stdout, block);
    forgotten(stdout, block);
    refused(stdout, block);
}

fn there_and_back(stdout: Stdout, block: &[u8]) {
    let row = goes_out(stdout, block);
    let mut other = [0u8; parts::BLOCK];
    comes_in(stdout, &mut other, &row, spans::NEW);
    whether(stdout, block == other.as_slice(), b"the same block\n");
}

// A frozen capture, of the shades 0 to 3 and then of nothing but 0, and the mask that goes with it.
fn frozen(stdout: Stdout, block: &[u8]) {
    let mut row = goes_out(stdout, block);
    row[parts::MASK] = 1;
    row[spans::FROZEN + 1] = 1;
    row[spans::FROZEN + 2] = 2;
    row[spans::FROZEN + 3] = 3;
    let mut other = [0u8; parts::BLOCK];
    comes_in(stdout, &mut other, &row, spans::NEW + 128);
    line(stdout, part(&other, 0, 13));
    line(stdout, part(&other, parts::FROZEN, parts::FROZEN + 2));
    let again = goes_out(stdout, &other);
    whether(stdout, row == again, b"the same state\n");
}

// A border, and then without its map.
fn border(stdout: Stdout, block: &[u8]) {
    let mut row = goes_out(stdout, block);
    row[spans::TILES] = 0x55;
    let mut other = [0u8; parts::BLOCK];
    comes_in(stdout, &mut other, &row, spans::NEW);
    line(stdout, part(&other, parts::TILES, parts::TILES + 2));
    comes_in(stdout, &mut other, &row, spans::NEW - 1024);
    whether(
        stdout,
        all_zero(part(&other, parts::TILES, parts::BLOCK)),
        b"a border of zeros\n",
    );
    let again = goes_out(stdout, &other);
    whether(
        stdout,
        all_zero(part(&again, spans::TILES, spans::ROW)),
        b"three spans of zeros\n",
    );
}

// A kind beside a countdown of 0, and the high bits of a shade.
fn forgotten(stdout: Stdout, block: &[u8]) {
    let mut row = goes_out(stdout, block);
    let mut other = [0u8; parts::BLOCK];
    row[parts::KIND] = 3;
    comes_in(stdout, &mut other, &row, spans::NEW);
    line(stdout, part(&other, 0, 13));
    row[parts::KIND] = 0;
    row[spans::CAPTURE] = 0xFF;
    comes_in(stdout, &mut other, &row, spans::NEW);
    line(stdout, part(&other, parts::LIVE, parts::LIVE + 2));
}

// No capture; a cell that is no palette number; an idle receiver with a data bit.
fn refused(stdout: Stdout, block: &[u8]) {
    let mut row = goes_out(stdout, block);
    let mut other = [0u8; parts::BLOCK];
    comes_in(stdout, &mut other, &row, spans::NEW - 64);
    row[spans::MAP] = 4;
    comes_in(stdout, &mut other, &row, spans::NEW);
    row[spans::MAP] = 0;
    row[parts::BITS] = 1;
    comes_in(stdout, &mut other, &row, spans::NEW);
}

// No packet is in, so the packets have no bytes.
fn comes_in(stdout: Stdout, block: &mut [u8], row: &[u8], present: u16) {
    let spans = Spans::lent(
        part(row, 0, spans::PALETTES),
        present,
        part(row, spans::PALETTES, spans::MAP),
        part(row, spans::MAP, spans::SYSTEM),
        part(row, spans::SYSTEM, spans::FILES),
        part(row, spans::FILES, spans::PACKET),
        part(row, spans::PACKET, spans::PACKETS),
        part(row, spans::PACKETS, spans::PACKETS),
        part(row, spans::CAPTURE, spans::FROZEN),
        part(row, spans::FROZEN, spans::PRESET),
        part(row, spans::PRESET, spans::TILES),
        part(row, spans::TILES, spans::BORDER_MAP),
        part(row, spans::BORDER_MAP, spans::BORDER_PALETTES),
        part(row, spans::BORDER_PALETTES, spans::ROW),
    );
    checked(stdout, state::from_state(block, &spans));
}

pub fn part(bytes: &[u8], from: usize, to: usize) -> &[u8] {
    bytes.get(from..to).unwrap_or(bytes)
}

// A span that is missing is zeros in the row.
fn goes_out(stdout: Stdout, block: &[u8]) -> [u8; spans::ROW] {
    let mut row = [0u8; spans::ROW];
    let (fields, rest) = row.split_at_mut(spans::PALETTES);
    let (palettes, rest) = rest.split_at_mut(parts::PALETTES_BYTES);
    let (attribute_map, rest) = rest.split_at_mut(4 * parts::MAP_BYTES);
    let (system_palettes, rest) = rest.split_at_mut(parts::SYSTEM_BYTES);
    let (attribute_files, rest) = rest.split_at_mut(4 * parts::FILES_BYTES);
    let (packet, rest) = rest.split_at_mut(parts::PACKET_BYTES);
    let (packets, rest) = rest.split_at_mut(parts::STORE_BYTES);
    let (capture, rest) = rest.split_at_mut(4 * parts::CAPTURE_BYTES);
    let (frozen_capture, rest) = rest.split_at_mut(4 * parts::CAPTURE_BYTES);
    let (preset, rest) = rest.split_at_mut(parts::PRESET_BYTES);
    let (border_tiles, rest) = rest.split_at_mut(parts::TILES_BYTES);
    let (border_map, border_palettes) = rest.split_at_mut(parts::BORDER_MAP_BYTES);
    let mut room = SpansMut {
        fields,
        palettes,
        attribute_map,
        system_palettes,
        attribute_files,
        packet,
        packets,
        capture,
        frozen_capture,
        preset,
        border_tiles,
        border_map,
        border_palettes,
    };
    tell(stdout, state::to_state(block, &mut room));
    row
}

fn tell(stdout: Stdout, told: Result<usize, Refusal>) {
    match told {
        Err(r) => test_text::refused(stdout, r),
        Ok(present) => {
            say(stdout, b"out, presence ");
            number(stdout, present as u64);
            say(stdout, b"\n");
        }
    }
}

fn whether(stdout: Stdout, is: bool, what: &[u8]) {
    if !is {
        say(stdout, b"not ");
    }
    say(stdout, what);
}
