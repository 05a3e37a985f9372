// One line of a log: its form, and its bytes. RULES 8.2 and 8.3. Next door: splitting an input into lines (`lines`).
// The meaning is in specs/: `Line` what a line means, `Calls` what `parse` answers and leaves.
#![tactic(auto)]

ghost use Rattle.std.specs.Prelude.{◌≡◌};
ghost use Rattle.log_line.specs.Line.{meaning_of};
ghost use Rattle.log_line.specs.Calls.{line_told, line_answer, line_bytes, kind_told};

use hex_digits::{decode, spells, two_digits};
use parts::CAPTURE_BYTES;
use refusal::Refusal;

pub mod lines;

// The digits of the longest line that means something.
pub const LINE_DIGITS: usize = 2 * (1 + CAPTURE_BYTES);

// What a line is: so many writes; or a screen.
// Stays: no `Option`. A screen is as much a line as writes are.
#[derive(Clone, Copy, Debug, PartialEq, Eq)]
pub enum Line {
    Writes(usize),
    Screen,
}

// What a line's first byte says.
#[derive(Clone, Copy)]
enum Kind {
    Writes,
    Screen,
}

// A line's writes or its screen, at the front of `bytes`. The form is known to be good before a byte is decoded.
pub fn parse(text: &[u8], bytes: &mut [u8]) -> Result<Line, Refusal>
    ensures result_value { line_told result ≡ line_answer text.now bytes.old }
    ensures bytes_after { bytes.new ≡ line_bytes text.now bytes.old }
{
    if bytes.len() < CAPTURE_BYTES {
        return Err(Refusal::Output);
    }
    let kind = kind_of(text).ok_or(Refusal::Line)?;
    decode(&text[2..], bytes);
    Ok(match kind {
        Kind::Writes => Line::Writes(text.len() / 2 - 1),
        Kind::Screen => Line::Screen,
    })
}

// The kind of a line of good form.
fn kind_of(text: &[u8]) -> Option<Kind>
    ensures { result ≡ kind_told (meaning_of text.now) }
{
    if text.len() < 2 || text.len() > LINE_DIGITS || !spells(text) {
        return None;
    }
    match two_digits(text[0], text[1]) {
        1 => Some(Kind::Writes),
        2 => (text.len() == LINE_DIGITS).then_some(Kind::Screen),
        _ => None,
    }
}
