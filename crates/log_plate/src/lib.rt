// All that the program `plate` prints of a log: the picture at its end, or the first refused line alone.
// The reading is in `log_reader`, the writing in `log_writer`.
// Stays: that the block is valid is a clause, as the reading's `Fit` tells it of `desk.block`. A `ValidBlock` is made of it where tables and rows are
// drawn; handed down it tells no more.
#![tactic(auto)]

ghost use Rattle.std.specs.Prelude.{List, ◌≡◌, ℕ, ◌-◌, ◌≤◌, length, is_ok};
ghost use Rattle.layout.specs.Valid.{Valid};
ghost use Rattle.layout.specs.Block.{load};
ghost use Rattle.picture.specs.Tables.{TablesOf};
ghost use Rattle.block_picture.specs.Drawn.{parts_of};
ghost use Rattle.log_chunks.specs.Texts.{picture_lines, plate_text};
ghost use Rattle.log_text.specs.Text.{refusal_text};
ghost use Rattle.log_writer.specs.Tally.{Sent};
ghost use Rattle.log_reader.specs.Fed.{chunk_bytes, out_bytes};
ghost use Rattle.log_reader.specs.Read.{Printed};
ghost use Rattle.log_plate.specs.Closed.{Closed};

use block_picture::of_block::ValidBlock;
use log_chunks::Desk;
use log_reader::{Print, Read};
use log_writer::{Failed, Printer, State, write_out};
use parts::STORE_BYTES;
use picture_runs::drawing::PictureTables;

pub fn plate(
    printer: &mut Printer,
    desk: &mut Desk<STORE_BYTES>,
    out: &mut [u8],
    chunk: &mut [u8],
) -> Print
    requires out_len { (length out.old ≡ out_bytes) × (length chunk.old ≡ chunk_bytes) }
    ensures { (input : List ℕ) × ((length input ≡ result.got) × Printed (is_ok result.sent) result.ended plate_text input printer.old.tally printer.new.tally) }
{
    let f = log_reader::read_log(printer, desk, out, chunk, true);
    let sent = print(f, printer, &desk.block, out);
    Print {
        got: f.got,
        ended: f.ended,
        sent: sent,
    }
}

// The picture where the log has ended, or the line that was refused.
fn print(read: Read, printer: &mut Printer, block: &[u8], out: &mut [u8]) -> Result<(), Failed>
    requires valid { Valid block.now × (1 ≤ read.reading.number) }
    requires out_len { length out.old ≡ out_bytes }
    ensures { Closed read.state read.reading block.now (is_ok result) printer.old.tally printer.new.tally }
{
    match read.state {
        State::Well => picture(printer, block, out),
        State::Failed => Err(Failed),
        State::Refused => refusal(printer, read.reading.number - 1, out),
    }
}

fn refusal(printer: &mut Printer, number: u64, out: &mut [u8]) -> Result<(), Failed>
    requires { length out.old ≡ out_bytes }
    ensures { Sent (is_ok result) printer.old.tally (refusal_text number) printer.new.tally }
{
    let n = log_text::refusal_line(number, out, 0);
    write_out(printer, &out[0..n])
}

fn picture(printer: &mut Printer, block: &[u8], out: &mut [u8]) -> Result<(), Failed>
    requires valid { Valid block.now }
    requires out_len { length out.old ≡ out_bytes }
    ensures { Sent (is_ok result) printer.old.tally (picture_lines (load block.now)) printer.new.tally }
{
    let mut tables = PictureTables {
        spreads: [0; 512],
        border: [0; 48],
        game: [0; 16],
    };
    block_picture::tables(ValidBlock { bytes: block }, &mut tables);
    let mut words = [0u16; 256];
    rows(printer, block, &tables, &mut words, out)
}

fn rows(
    printer: &mut Printer,
    block: &[u8],
    tables: &PictureTables,
    words: &mut [u16],
    out: &mut [u8],
) -> Result<(), Failed>
    requires valid { Valid block.now }
    requires tables_of { TablesOf (parts_of (load block.now)) tables.now.spreads tables.now.border tables.now.game }
    requires words_len { (length words.old ≡ 256) × (length out.old ≡ out_bytes) }
    ensures { Sent (is_ok result) printer.old.tally (picture_lines (load block.now)) printer.new.tally }
{
    for y in 0..224usize {
        log_chunks::row_line(block, tables, y, words, out);
        write_out(printer, &out[0..1025])?;
    }
    Ok(())
}
