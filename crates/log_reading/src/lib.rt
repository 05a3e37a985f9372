// Where a reading of a log stands: how it begins, whether there is more to do, and what a last line lacks. Its steps are in the crate
// `log_chunks`.
#![tactic(auto)]

ghost use Rattle.std.specs.Prelude.{◌≡◌, ltb, length};
ghost use Rattle.log_reading.specs.Point.{begun, left, last_lf};

use log_line::lines::Held;

// Where a reading stands: the line that is held so far, the number of the next line to end, and the part of the decoded writes that is
// still to be played.
#[derive(Clone, Copy)]
pub struct Reading {
    pub held: Held,
    pub number: u64,
    pub from: usize,
    pub upto: usize,
}

// At line 1, with nothing held.
pub fn begin() -> Reading
    ensures { result ≡ begun }
{
    Reading {
        held: Held::Bytes(0),
        number: 1,
        from: 0,
        upto: 0,
    }
}

// Whether the chunk or the present line holds more.
pub fn is_left(reading: Reading, size: usize, at: usize) -> bool
    ensures { result ≡ ltb 0 (left reading size at) }
{
    at < size || reading.from < reading.upto
}

// How many bytes of LF are to be fed when the input has ended: one for a last line that lacks it.
pub fn last_lf(reading: Reading) -> usize
    ensures { result ≡ length (last_lf reading) }
{
    match reading.held {
        Held::Bytes(size) => usize::from(size > 0),
        Held::Long => 1,
    }
}
