// All that the program `check` prints of a saved block on standard input: one line, `valid` or the refusal that the block calls for.
// RULES 8.7. The verdict is that of `view::check`, the reading is in `file_reader`, the writing in `log_writer`.
#![tactic(auto)]

ghost use Rattle.std.specs.Prelude.{◌≡◌, ◌≤◌, length, take, is_ok};
ghost use Rattle.bits.specs.Over.{over};
ghost use Rattle.refusal.specs.Codes.{code_of, code_or_0};
ghost use Rattle.log_writer.specs.Tally.{Sent};
ghost use Rattle.check_saved.specs.Verdict.{placed_line, verdict_line, check_text};
ghost use Rattle.check_saved.specs.Checked.{saved_bytes, line_bytes, Came, Told};

use bits::put;
use file_reader::{Print, Read, read_file};
use log_text::{decimal, number_line};
use log_writer::{Failed, Printer, write_out};
use refusal::Refusal;

// What is read at most, which is one byte more than a block has; and room for a line.
pub const SAVED_BYTES: usize = parts::BLOCK + 1;

pub const LINE_BYTES: usize = 45;

// Reads a saved block and prints its line. A block that is too long is not read to its end: the line is the same.
pub fn check(printer: &mut Printer, saved: &mut [u8], out: &mut [u8]) -> Print
    requires { (length saved.old ≡ saved_bytes) × (length out.old ≡ line_bytes) }
    ensures came { Came result.got result.end saved.new }
    ensures told { Told result.end (is_ok result.sent) (take result.got saved.new) printer.old.tally printer.new.tally }
{
    let read = read_file(printer.streams, saved);
    let sent = print(read, printer, saved, out);
    Print {
        got: read.got,
        end: read.end,
        sent,
    }
}

// By how reading ended.
// Stays: beside `print` of `pages_drawn`: what they share is `Read::front`, and each tells by its own text.
fn print(read: Read, printer: &mut Printer, saved: &[u8], out: &mut [u8]) -> Result<(), Failed>
    requires came { Came read.got read.end saved.now }
    requires saved_len { (length saved.now ≡ saved_bytes) × (length out.old ≡ line_bytes) }
    ensures { Told read.end (is_ok result) (take read.got saved.now) printer.old.tally printer.new.tally }
{
    let came = read.front(saved)?;
    verdict(printer, came, out)
}

fn verdict(printer: &mut Printer, came: &[u8], out: &mut [u8]) -> Result<(), Failed>
    requires { length out.old ≡ line_bytes }
    ensures { Sent (is_ok result) printer.old.tally (check_text came.now) printer.new.tally }
{
    let n = verdict_line(view::check(came), out);
    write_out(printer, &out[0..n])
}

// The line of a verdict at the front of the output. Answers its length.
fn verdict_line(verdict: Result<(), Refusal>, out: &mut [u8]) -> usize
    requires { length out.old ≡ line_bytes }
    ensures value { result ≡ length (verdict_line (code_or_0 verdict)) }
    ensures upper_bound { result ≤ line_bytes }
    ensures out_after { out.new ≡ over 0 (length (verdict_line (code_or_0 verdict))) (verdict_line (code_or_0 verdict)) out.old }
{
    match verdict {
        Ok(()) => {
            put(out, 0, b"valid\n");
            6
        }
        Err(refusal) => refusal_line(refusal, out),
    }
}

fn refusal_line(refusal: Refusal, out: &mut [u8]) -> usize
    requires { length out.old ≡ line_bytes }
    ensures value { result ≡ length (verdict_line (code_of refusal)) }
    ensures upper_bound { result ≤ line_bytes }
    ensures out_after { out.new ≡ over 0 (length (verdict_line (code_of refusal))) (verdict_line (code_of refusal)) out.old }
{
    let number = u64::from(refusal.number());
    match refusal {
        Refusal::Broken(_, at) => placed_line(number, u64::from(at), out),
        _ => number_line(number, out, 0),
    }
}

// Stays: the room is required, so a `write!` in place of the parts would answer an error that can't come.
fn placed_line(number: u64, offset: u64, out: &mut [u8]) -> usize
    requires { length out.old ≡ line_bytes }
    ensures value { result ≡ length (placed_line number offset) }
    ensures upper_bound { result ≤ line_bytes }
    ensures out_after { out.new ≡ over 0 (length (placed_line number offset)) (placed_line number offset) out.old }
{
    let n = decimal(number, out, 0);
    put(out, n, b" at ");
    let k = decimal(offset, out, n + 4);
    put(out, n + 4 + k, b"\n");
    n + 5 + k
}
