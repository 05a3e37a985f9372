// Reading a log from standard input, chunk by chunk, and writing what it tells. Both programs stand on it: `replay` writes the text of
// each fill, `plate` is quiet up to its end. What is told stands in the contracts of `log_chunks`, what is written in the tally of
// the lent printer of `log_writer`; here are the calls of `read`.
#![tactic(auto)]

ghost use Rattle.std.specs.Prelude.{false, List, [], ◌≡◌, ℕ, ◌+◌, ◌≤◌, length, take};
ghost use Rattle.layout.specs.Valid.{Valid};
ghost use Rattle.log_chunks.specs.Steps.{Fit, desk_of};
ghost use Rattle.log_reader.specs.Fed.{Kept, chunk_bytes, out_bytes, most_lines, most_bytes};
ghost use Rattle.log_reader.specs.Read.{point, is_well, reads_on, Stands, Turned, Reached};

use log_chunks::Desk;
use log_reading::Reading;
use log_writer::{Failed, Printer, State, fail, told};
use parts::STORE_BYTES;
use std::io::Read as _;

// The bytes of a read, and of the text between two writes. Small, since they stand on the stack.
pub const CHUNK_BYTES: usize = 1024;

pub const OUT_BYTES: usize = 1280;

// After a chunk.
#[derive(Clone, Copy)]
pub struct Fed {
    pub reading: Reading,
    pub state: State,
}

// After reads: how many bytes came, and whether the input has ended.
// Stays: `ended` beside the state. A failure and a refused line come with both, and `Stands` and `Reached` take the two.
#[derive(Clone, Copy)]
pub struct Read {
    pub reading: Reading,
    pub state: State,
    pub got: u64,
    pub ended: bool,
}

// What a program printed: how many bytes of the input came, whether that was all of it, and whether all that is due was written.
// Stays: `ended` as a bool, as the definition `Printed` takes it.
#[derive(Clone, Copy)]
pub struct Print {
    pub got: u64,
    pub ended: bool,
    pub sent: Result<(), Failed>,
}

// More than a machine makes in thirty years.
const TURNS: u64 = 1125899906842624;

// All of a log, from a fresh unit on. A proved loop has to end, and nothing says that an input does: so its turns are counted.
// Stays: `quiet` as a bool. The definitions of specs/Read take it so: `text_of`, `Stands`, `Reached`.
pub fn read_log(
    printer: &mut Printer,
    desk: &mut Desk<STORE_BYTES>,
    out: &mut [u8],
    chunk: &mut [u8],
    quiet: bool,
) -> Read
    requires out_len { (length out.old ≡ out_bytes) × (length chunk.old ≡ chunk_bytes) }
    ensures valid { Valid desk.new.block × (1 ≤ result.reading.number) }
    ensures by_index { (input : List ℕ) × ((length input ≡ result.got) × Reached result.state result.ended quiet input result.reading desk.new.block printer.old.tally printer.new.tally) }
{
    block_fresh::post_boot(&mut desk.block);
    let mut read = Read {
        reading: log_reading::begin(),
        state: State::Well,
        got: 0,
        ended: false,
    };
    for past in 0..TURNS {
        let next = turn(read, printer, desk, out, chunk, quiet);
        if !goes_on(next) {
            return next;
        }
        read = next;
    }
    let _ = eprintln!(printer.streams.words; "the input does not end");
    Read {
        state: State::Failed,
        ended: false,
        ..read
    }
}

// Reads once, and feeds what came.
// Stays: `quiet`, and the printer beside the desk: they go on to `log_writer`, where no desk is known.
fn turn(
    start: Read,
    printer: &mut Printer,
    desk: &mut Desk<STORE_BYTES>,
    out: &mut [u8],
    chunk: &mut [u8],
    quiet: bool,
) -> Read
    requires fit { Fit start.reading (desk_of desk.old) }
    requires number_le_most_lines { (start.reading.number ≤ most_lines) × (start.got ≤ most_bytes) }
    requires out_len { (length out.old ≡ out_bytes) × (length chunk.old ≡ chunk_bytes) }
    ensures { (n : ℕ) × Turned quiet start (point start.reading (desk_of desk.old) printer.old.tally) (take n chunk.new) result (point result.reading (desk_of desk.new) printer.new.tally) }
{
    let mut input = printer.streams.input;
    let n = match input.read(chunk) {
        Ok(n) => n,
        Err(e) => {
            fail(printer.streams, "read", e);
            return Read {
                state: State::Failed,
                ended: false,
                ..start
            };
        }
    };
    if n == 0 {
        return finish(start, printer, desk, out, quiet);
    }
    let f = feed(start.reading, printer, desk, out, &chunk[..n], quiet);
    Read {
        reading: f.reading,
        state: f.state,
        got: start.got + n as u64,
        ended: false,
    }
}

// The input has ended: a last line that lacks its LF gets it.
// Stays: as `turn`.
fn finish(
    start: Read,
    printer: &mut Printer,
    desk: &mut Desk<STORE_BYTES>,
    out: &mut [u8],
    quiet: bool,
) -> Read
    requires fit { Fit start.reading (desk_of desk.old) }
    requires number_le_most_lines { start.reading.number ≤ most_lines }
    requires out_len { length out.old ≡ out_bytes }
    ensures { Turned quiet start (point start.reading (desk_of desk.old) printer.old.tally) [] result (point result.reading (desk_of desk.new) printer.new.tally) }
{
    let lf = [10u8; 1];
    let k = log_reading::last_lf(start.reading);
    let f = feed(start.reading, printer, desk, out, &lf[0..k], quiet);
    Read {
        reading: f.reading,
        state: f.state,
        got: start.got,
        ended: true,
    }
}

// What a chunk of the input gives.
// Stays: as `turn`.
fn feed(
    start: Reading,
    printer: &mut Printer,
    desk: &mut Desk<STORE_BYTES>,
    out: &mut [u8],
    chunk: &[u8],
    quiet: bool,
) -> Fed
    requires fit { Fit start (desk_of desk.old) }
    requires number_le_most_lines { (start.number ≤ most_lines) × (length chunk.now ≤ chunk_bytes) }
    requires out_len { length out.old ≡ out_bytes }
    ensures kept { Kept start (length chunk.now) result (desk_of desk.new) }
    ensures stands { Stands result.state false quiet (point start (desk_of desk.old) printer.old.tally) chunk.now (point result.reading (desk_of desk.new) printer.new.tally) }
{
    let mut reading = start;
    let mut at = 0;
    while log_reading::is_left(reading, chunk.len(), at) {
        let f = log_chunks::fill(reading, desk, chunk, at, out);
        at = f.at;
        reading = f.reading;
        let state = told(printer, &out[0..f.size], f.refused, quiet);
        if !is_well(state) {
            return Fed { reading, state };
        }
    }
    Fed {
        reading,
        state: State::Well,
    }
}

fn is_well(state: State) -> bool
    ensures { result ≡ is_well state }
{
    matches!(state, State::Well)
}

fn goes_on(read: Read) -> bool
    ensures { result ≡ reads_on read.state read.ended }
{
    !read.ended && is_well(read.state)
}

// Whether all that came is told.
pub fn is_told(read: Read) -> bool
    ensures { result ≡ is_well read.state }
{
    is_well(read.state)
}
