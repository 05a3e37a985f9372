// Work as the programs do it, over lent memory, exported for times (tools/bench): a screen and writes on a valid block that is not checked
// again, and a whole log as `replay` and `plate` take it, with their text in the place of what they write. The log's last line has its LF.
#![tactic(auto)]

ghost use Rattle.std.specs.Prelude.{◌≡◌, ◌*◌, ◌≤◌, ◌<◌, length, true};
ghost use Rattle.parts.specs.Parts.{capture_bytes, store_bytes};
ghost use Rattle.layout.specs.Block.{load};
ghost use Rattle.layout.specs.Valid.{Valid};
ghost use Rattle.picture.specs.Tables.{TablesOf};
ghost use Rattle.block_picture.specs.Drawn.{parts_of};
ghost use Rattle.log_chunks.specs.Steps.{left};
ghost use Rattle.log_reader.specs.Fed.{chunk_bytes, out_bytes};

use bits::put;
use block_picture::of_block::ValidBlock;
use log_chunks::Desk;
use log_reader::{CHUNK_BYTES, OUT_BYTES};
use log_reading::Reading;
use parts::STORE_BYTES;
use picture_runs::drawing::PictureTables;

// A row of the picture as text, and all of them.
const ROW: usize = 1025;

const PLATE: usize = 224 * ROW;

// Which program's work a log is read for. Its number is 1 for `plate`.
#[derive(Clone, Copy, Debug, PartialEq, Eq)]
enum Prints {
    Replay,
    Plate,
}

impl From<u8> for Prints {
    fn from(number: u8) -> Prints {
        match number {
            1 => Prints::Plate,
            _ => Prints::Replay,
        }
    }
}

#[unsafe(no_mangle)]
pub extern "C" fn jobs_show(block: &mut [u8], screen: &[u8])
    requires { Valid block.old × (length screen.now ≡ capture_bytes) }
{
    block_screen::show(block, screen);
}

// Up to the next command: how many writes it took, and in the high byte the packets of the command.
#[unsafe(no_mangle)]
pub extern "C" fn jobs_play(block: &mut [u8], writes: &[u8], command: &mut [u8]) -> u64
    requires { Valid block.old × (store_bytes ≤ length command.old) }
{
    let p = block_writes::play(block, writes, command);
    p.at as u64 | u64::from(p.packets.unwrap_or(0)) << 56
}

// What `replay` prints of a log, or what `plate` does where that is 1 and no line is refused; its rows go by way of the lent words. Answers
// the text's length, or 0 if a lent part has not the length that it must have or the text has no room.
#[unsafe(no_mangle)]
pub extern "C" fn jobs_print(
    plate: u8,
    input: &[u8],
    block: &mut [u8],
    line: &mut [u8],
    bytes: &mut [u8],
    command: &mut [u8],
    words: &mut [u16],
    text: &mut [u8],
) -> usize {
    if input.len() > 0xFFFFFFFF
        || block.len() != parts::BLOCK
        || line.len() != log_line::LINE_DIGITS
        || bytes.len() != parts::CAPTURE_BYTES
        || command.len() != parts::STORE_BYTES
        || words.len() != 256
        || text.len() < PLATE
    {
        return 0;
    }
    let mut desk = Desk {
        block: [0; parts::BLOCK],
        line: [0; log_line::LINE_DIGITS],
        bytes: [0; parts::CAPTURE_BYTES],
        command: [0; parts::STORE_BYTES],
    };
    put(&mut desk.line, 0, line);
    put(&mut desk.bytes, 0, bytes);
    put(&mut desk.command, 0, command);
    let prints = Prints::from(plate);
    let n = read_log(input, &mut desk, text, prints);
    put(block, 0, &desk.block);
    put(line, 0, &desk.line);
    put(bytes, 0, &desk.bytes);
    put(command, 0, &desk.command);
    finish(prints, block, words, text, n)
}

// All of a log, a chunk at a time, from a fresh unit on. The text of each fill stands behind the one before, or in its place where none
// is kept. Answers the length of what is kept; it stops where the next fill has no room.
fn read_log(input: &[u8], desk: &mut Desk<STORE_BYTES>, text: &mut [u8], prints: Prints) -> usize
    requires { length input.now < 4294967296 }
    ensures { Valid desk.new.block × (result ≤ length text.old) }
{
    block_fresh::post_boot(&mut desk.block);
    let mut reading = log_reading::begin();
    let mut at: usize = 0;
    let mut n: usize = 0;
    // Stays: a `for` is no plainer, since a turn takes as many bytes as its fill took, and nothing is counted by one.
    'chunks: while goes_on(reading, input.len(), at, text.len() - n) {
        let end = at + chunk_size(input.len() - at);
        let f = log_chunks::fill(
            reading,
            desk,
            &input[at..end],
            0,
            &mut text[n..n + OUT_BYTES],
        );
        reading = f.reading;
        at += f.at;
        n += kept(f.size, prints);
    }
    n
}

// Whether anything is left, and the next fill has room.
fn goes_on(reading: Reading, size: usize, at: usize, room: usize) -> bool
    ensures { (result ≡ true) → ((out_bytes ≤ room) × (0 < left reading size at)) }
{
    room >= OUT_BYTES && log_reading::is_left(reading, size, at)
}

fn kept(size: usize, prints: Prints) -> usize
    ensures { result ≤ size }
{
    match prints {
        Prints::Replay => size,
        Prints::Plate => 0,
    }
}

// What of the rest is taken at once: some, if there is any.
fn chunk_size(rest: usize) -> usize
    requires { rest < 4294967296 }
    ensures { (result ≤ rest) × ((result ≤ chunk_bytes) × (rest ≤ result * 4294967296)) }
{
    rest.min(CHUNK_BYTES)
}

// Of the plate its rows, else the closing line behind the n bytes of text that there are.
fn finish(prints: Prints, block: &[u8], words: &mut [u16], text: &mut [u8], n: usize) -> usize
    requires valid { Valid block.now × (n ≤ length text.old) }
    requires words_len { (length words.old ≡ 256) × (229600 ≤ length text.old) }
{
    match prints {
        Prints::Plate => {
            picture(block, words, text);
            PLATE
        }
        Prints::Replay if text.len() - n < OUT_BYTES => 0,
        Prints::Replay => n + log_chunks::head_line(block, &mut text[n..n + OUT_BYTES]),
    }
}

fn picture(block: &[u8], words: &mut [u16], text: &mut [u8])
    requires { Valid block.now × ((length words.old ≡ 256) × (229600 ≤ length text.old)) }
{
    let mut tables = PictureTables {
        spreads: [0; 512],
        border: [0; 48],
        game: [0; 16],
    };
    block_picture::tables(ValidBlock { bytes: block }, &mut tables);
    rows(block, &tables, words, text);
}

fn rows(block: &[u8], tables: &PictureTables, words: &mut [u16], text: &mut [u8])
    requires valid { Valid block.now × ((length words.old ≡ 256) × (229600 ≤ length text.old)) }
    requires tables_of { TablesOf (parts_of (load block.now)) tables.now.spreads tables.now.border tables.now.game }
{
    for y in 0..224 {
        let at = ROW * y;
        log_chunks::row_line(block, tables, y, words, &mut text[at..at + ROW]);
    }
}
