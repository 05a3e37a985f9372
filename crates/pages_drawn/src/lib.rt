// All that the program `page` prints of a page on standard input: the screen that carries it as a picture file, a binary Portable Graymap, or
// `10` where the input is no page. RULES 8.8. The screen is that of `pages::page_screen`, the reading is in `file_reader`, the writing in
// `log_writer`.
#![tactic(auto)]

ghost use Rattle.std.specs.Prelude.{◌≡◌, ◌<◌, ◌≤◌, length, take, is_ok};
ghost use Rattle.parts.specs.Parts.{capture_bytes};
ghost use Rattle.bits.specs.Over.{over};
ghost use Rattle.bits.specs.Tab.{tab};
ghost use Rattle.log_writer.specs.Tally.{Sent};
ghost use Rattle.file_reader.specs.Came.{Came};
ghost use Rattle.file_reader.specs.Told.{Told};
ghost use Rattle.pages_drawn.specs.Graymap.{grey_of, pixels, grey_at, graymap_of, page_text};
ghost use Rattle.pages_drawn.specs.Lent.{input_bytes, file_bytes};

use bits::put;
use file_reader::{Print, Read, read_file};
use log_text::number_line;
use log_writer::{Failed, Printer, write_out};
use screen::pair_at;
use transfer::page::PAGE_BYTES;

// What is read at most, which is one byte more than a page has; a screen; and room for a graymap, whose head has 15 bytes.
pub const INPUT_BYTES: usize = PAGE_BYTES + 1;

pub const SCREEN_BYTES: usize = parts::CAPTURE_BYTES;

pub const FILE_BYTES: usize = 15 + 4 * SCREEN_BYTES;

// Reads a page and prints the graymap of its screen. An input that is too long is not read to its end: the line is the same.
pub fn draw(printer: &mut Printer, input: &mut [u8], screen: &mut [u8], out: &mut [u8]) -> Print
    requires { (length input.old ≡ input_bytes) × ((length screen.old ≡ capture_bytes) × (length out.old ≡ file_bytes)) }
    ensures came { Came result.got result.end input.new }
    ensures told { Told page_text result.end (is_ok result.sent) (take result.got input.new) printer.old.tally printer.new.tally }
{
    let read = read_file(printer.streams, input);
    let sent = print(read, printer, input, screen, out);
    Print {
        got: read.got,
        end: read.end,
        sent,
    }
}

// By how reading ended.
fn print(
    read: Read,
    printer: &mut Printer,
    input: &[u8],
    screen: &mut [u8],
    out: &mut [u8],
) -> Result<(), Failed>
    requires came { Came read.got read.end input.now }
    requires input_len { (length input.now ≡ input_bytes) × ((length screen.old ≡ capture_bytes) × (length out.old ≡ file_bytes)) }
    ensures { Told page_text read.end (is_ok result) (take read.got input.now) printer.old.tally printer.new.tally }
{
    let came = read.front(input)?;
    tell(printer, came, screen, out)
}

// Writes what is due of a whole input.
fn tell(printer: &mut Printer, came: &[u8], screen: &mut [u8], out: &mut [u8]) -> Result<(), Failed>
    requires { (length screen.old ≡ capture_bytes) × (length out.old ≡ file_bytes) }
    ensures { Sent (is_ok result) printer.old.tally (page_text came.now) printer.new.tally }
{
    let n = text(came, screen, out);
    write_out(printer, &out[0..n])
}

// The graymap of a page's screen, or the line of its refusal, at the front of the output. Answers its length.
fn text(came: &[u8], screen: &mut [u8], out: &mut [u8]) -> usize
    requires { (length screen.old ≡ capture_bytes) × (length out.old ≡ file_bytes) }
    ensures value { result ≡ length (page_text came.now) }
    ensures upper_bound { result ≤ file_bytes }
    ensures out_after { out.new ≡ over 0 (length (page_text came.now)) (page_text came.now) out.old }
{
    match pages::page_screen(came, screen) {
        Ok(_) => {
            graymap(screen, out);
            FILE_BYTES
        }
        Err(refusal) => number_line(u64::from(refusal.number()), out, 0),
    }
}

fn graymap(screen: &[u8], out: &mut [u8])
    requires { (length screen.now ≡ capture_bytes) × (length out.old ≡ file_bytes) }
    ensures { out.new ≡ graymap_of screen.now }
{
    put(out, 0, b"P5\n160 144\n255\n");
    greys(screen, &mut out[15..]);
}

// A byte a pixel.
fn greys(screen: &[u8], out: &mut [u8])
    requires { (length screen.now ≡ capture_bytes) × (length out.old ≡ pixels) }
    ensures { out.new ≡ tab pixels (grey_at screen.now) }
{
    for k in 0..out.len() {
        out[k] = grey(pair_at(screen, k));
    }
}

fn grey(shade: usize) -> u8
    requires { shade < 4 }
    ensures { result ≡ grey_of shade }
{
    (255 - 85 * shade) as u8
}
