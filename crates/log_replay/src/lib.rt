// All that the program `replay` prints of a log: its commands and refused lines as they are read, and at its end the block's first 13 bytes.
// The reading is in `log_reader`, the writing in `log_writer`.
// Stays: that the block is valid is a clause of one function, as the reading's `Fit` tells it of `desk.block`. A struct for it tells no more.
#![tactic(auto)]

ghost use Rattle.std.specs.Prelude.{List, ◌≡◌, ℕ, length, is_ok};
ghost use Rattle.layout.specs.Valid.{Valid};
ghost use Rattle.log_chunks.specs.Texts.{head_line, replay_text};
ghost use Rattle.log_writer.specs.Tally.{Sent};
ghost use Rattle.log_reader.specs.Fed.{chunk_bytes, out_bytes};
ghost use Rattle.log_reader.specs.Read.{Printed};

use log_chunks::Desk;
use log_reader::Print;
use log_writer::{Failed, Printer};
use parts::STORE_BYTES;

// Stays: beside `log_plate::plate`, with the same buffers: docs/PROOFS.md has a contract of each.
pub fn replay(
    printer: &mut Printer,
    desk: &mut Desk<STORE_BYTES>,
    out: &mut [u8],
    chunk: &mut [u8],
) -> Print
    requires out_len { (length out.old ≡ out_bytes) × (length chunk.old ≡ chunk_bytes) }
    ensures { (input : List ℕ) × ((length input ≡ result.got) × Printed (is_ok result.sent) result.ended replay_text input printer.old.tally printer.new.tally) }
{
    let f = log_reader::read_log(printer, desk, out, chunk, false);
    if !log_reader::is_told(f) {
        return Print {
            got: f.got,
            ended: f.ended,
            sent: Err(Failed),
        };
    }
    let sent = head(printer, &desk.block, out);
    Print {
        got: f.got,
        ended: f.ended,
        sent: sent,
    }
}

// The block's first 13 bytes.
fn head(printer: &mut Printer, block: &[u8], out: &mut [u8]) -> Result<(), Failed>
    requires { Valid block.now × (length out.old ≡ out_bytes) }
    ensures { Sent (is_ok result) printer.old.tally (head_line block.now) printer.new.tally }
{
    let n = log_chunks::head_line(block, out);
    log_writer::write_out(printer, &out[0..n])
}
