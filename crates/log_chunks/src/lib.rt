// A log read in chunks of any size: its lines, what they do to the unit, and the text of it. Nothing here reads or writes: the caller
// feeds chunks and writes out the text that each call gives. RULES 8. The meaning of the whole is in specs/Events
// and specs/Texts, the steps are in specs/Steps, and that the steps tell the whole is in proofs/.
#![tactic(auto)]

ghost use Rattle.std.specs.Prelude.{◌≡◌, ◌+◌, ◌*◌, ◌≤◌, ◌<◌, ltb, length, take, []};
ghost use Rattle.parts.specs.Parts.{capture_bytes, store_bytes};
ghost use Rattle.layout.specs.Valid.{Valid};
ghost use Rattle.log_text.specs.Text.{hex_line, row_line};
ghost use Rattle.log_line.specs.Line.{line_digits};
ghost use Rattle.log_line.specs.Split.{held_size};
ghost use Rattle.log_chunks.specs.Steps.{fill, told_of, ran_on, answer_of, ended, stepped, Fit, desk_of, goes_on, step_room, ToldFits, Said, Full, is_refused, told_by, next_line, most64};
ghost use Rattle.layout.specs.Block.{load};
ghost use Rattle.picture.specs.Picture.{row_of};
ghost use Rattle.picture.specs.Tables.{TablesOf};
ghost use Rattle.block_picture.specs.Drawn.{parts_of};
ghost use Rattle.log_chunks.specs.Texts.{shown, head_bytes, head_line};
ghost use Rattle.bits.specs.Over.{over};

use block_picture::of_block::ValidBlock;
use block_screen::show;
use block_writes::play;
use log_line::lines::{Held, split};
use log_line::{LINE_DIGITS, Line, parse};
use log_reading::Reading;
use log_text::{command_line, refusal_line};
use parts::{BLOCK, CAPTURE_BYTES};
use picture_runs::drawing::PictureTables;

// What a reading works on: the unit, the line that is held, the decoded writes or the screen, and the last command, whose buffer may be longer
// than the longest one. A program makes one, and lends it from call to call.
#[derive(Drop)]
pub struct Desk<const COMMAND: usize> {
    pub block: [u8; BLOCK],
    pub line: [u8; LINE_DIGITS],
    pub bytes: [u8; CAPTURE_BYTES],
    pub command: [u8; COMMAND],
}

// The room that the longest text of a step needs: a command of 112 bytes has 225.
const STEP_ROOM: usize = 256;

// What a step has to tell: nothing, a command of so many packets that stands in the buffer, or that the line before the next is refused.
// Stays: three cases. `told_by`, `ToldFits` and `is_refused` of specs/Steps take it by them.
#[derive(Clone, Copy)]
enum Told {
    Nothing,
    Command(u8),
    Refused,
}

// The reading after a step, how far the chunk is used up, and what is told.
#[derive(Clone, Copy)]
struct Step {
    reading: Reading,
    at: usize,
    told: Told,
}

// The reading after steps, how far the chunk is used up, the bytes of text, and whether the last step refused a line.
// Stays: `refused` as a bool. It is no other field's flag: a refused line comes with every place, and with every size of text.
#[derive(Clone, Copy)]
pub struct Filled {
    pub reading: Reading,
    pub at: usize,
    pub size: usize,
    pub refused: bool,
}

fn told_of(packets: Option<u8>) -> Told
    ensures { result ≡ told_of packets }
{
    match packets {
        None => Told::Nothing,
        Some(n) => Told::Command(n),
    }
}

// The decoded writes, up to the next command. Not inlined: the maps that a command changes then stand on the stack only as long as it is carried
// out, and not beneath a landing.
#[inline(never)]
fn play_on<const COMMAND: usize>(reading: Reading, desk: &mut Desk<COMMAND>, at: usize) -> Step
    requires valid { Valid desk.old.block }
    requires room { store_bytes ≤ length desk.old.command }
    requires from_le_upto { (reading.from ≤ reading.upto) × (reading.upto ≤ capture_bytes) }
    ensures value { result ≡ answer_of (ran_on reading (desk_of desk.old) at) }
    ensures desk_after { desk_of desk.new ≡ (ran_on reading (desk_of desk.old) at).desk }
{
    let bytes: &[u8] = &desk.bytes;
    let p = play(
        &mut desk.block,
        &bytes[reading.from..reading.upto],
        &mut desk.command,
    );
    Step {
        reading: Reading {
            from: reading.from + p.at,
            ..reading
        },
        at: at,
        told: told_of(p.packets),
    }
}

// Whether a fill goes on: up to a refused line, while the next text has room, and while anything is left.
fn goes_on(so_far: Filled, size: usize, room: usize) -> bool
    requires { so_far.size ≤ room }
    ensures { result ≡ goes_on so_far.refused so_far.size so_far.reading so_far.at size room }
{
    !so_far.refused
        && room - so_far.size >= STEP_ROOM
        && log_reading::is_left(so_far.reading, size, so_far.at)
}

// The text of what a step tells, from `at` on. Answers its length.
// Stays: a place beside the lent output, as `log_text` has it.
fn tell(step: Step, command: &[u8], out: &mut [u8], at: usize) -> usize
    requires told_fits { ToldFits step.told × ((store_bytes ≤ length command.now) × (1 ≤ step.reading.number)) }
    requires step_room_in_bounds { at + step_room ≤ length out.old }
    ensures value { result ≡ length (shown (told_by step.told step.reading command.now)) }
    ensures upper_bound { result ≤ step_room }
    ensures out_after { out.new ≡ over at (length (shown (told_by step.told step.reading command.now))) (shown (told_by step.told step.reading command.now)) out.old }
{
    match step.told {
        Told::Nothing => 0,
        Told::Command(n) => tell_command(n, command, out, at),
        Told::Refused => refusal_line(step.reading.number - 1, out, at),
    }
}

// Stays: a place beside the lent output, as `log_text` has it.
fn tell_command(n: u8, command: &[u8], out: &mut [u8], at: usize) -> usize
    requires n_bound { (n < 8) × (store_bytes ≤ length command.now) }
    requires step_room_in_bounds { at + step_room ≤ length out.old }
    ensures value { result ≡ length (hex_line (take (16 * n) command.now)) }
    ensures upper_bound { result ≤ step_room }
    ensures out_after { out.new ≡ over at (length (hex_line (take (16 * n) command.now))) (hex_line (take (16 * n) command.now)) out.old }
{
    command_line(&command[..16 * usize::from(n)], out, at)
}

// The reading behind a line that has ended, with n writes to play.
fn behind(reading: Reading, at: usize, n: usize, told: Told) -> Step
    requires { reading.number < most64 }
    ensures { result ≡ record { reading = next_line reading n; at = at; told = told } }
{
    Step {
        reading: Reading {
            held: Held::Bytes(0),
            number: reading.number + 1,
            from: 0,
            upto: n,
        },
        at: at,
        told: told,
    }
}

// The line that is held has ended.
fn end_line<const COMMAND: usize>(reading: Reading, desk: &mut Desk<COMMAND>, at: usize) -> Step
    requires valid { Valid desk.old.block }
    requires size_le_line_digits { (held_size reading.held ≤ line_digits) × (reading.number < most64) }
    ensures value { result ≡ answer_of (ended reading (desk_of desk.old) at) }
    ensures desk_after { desk_of desk.new ≡ (ended reading (desk_of desk.old) at).desk }
{
    let Held::Bytes(size) = reading.held else {
        return behind(reading, at, 0, Told::Refused);
    };
    let line: &[u8] = &desk.line;
    match parse(&line[..size], &mut desk.bytes) {
        Err(_) => behind(reading, at, 0, Told::Refused),
        Ok(Line::Writes(n)) => behind(reading, at, n, Told::Nothing),
        Ok(Line::Screen) => {
            show(&mut desk.block, &desk.bytes);
            behind(reading, at, 0, Told::Nothing)
        }
    }
}

// One step: the decoded writes up to the next command, or the chunk up to the next line's end.
fn take_step<const COMMAND: usize>(
    reading: Reading,
    desk: &mut Desk<COMMAND>,
    chunk: &[u8],
    at: usize,
) -> Step
    requires fit { Fit reading (desk_of desk.old) }
    requires number_lt_most64 { (reading.number < most64) × ((at ≤ length chunk.now) × (length chunk.now < most64)) }
    ensures value { result ≡ answer_of (stepped reading (desk_of desk.old) chunk.now at) }
    ensures desk_after { desk_of desk.new ≡ (stepped reading (desk_of desk.old) chunk.now at).desk }
{
    if reading.from < reading.upto {
        return play_on(reading, desk, at);
    }
    let t = split(reading.held, &mut desk.line, chunk, at);
    let now = Reading {
        held: t.held,
        from: 0,
        upto: 0,
        ..reading
    };
    if t.at < chunk.len() {
        return end_line(now, desk, t.at + 1);
    }
    Step {
        reading: now,
        at: t.at,
        told: Told::Nothing,
    }
}

// One step, and its text behind the text that there is.
fn say<const COMMAND: usize>(
    so_far: Filled,
    desk: &mut Desk<COMMAND>,
    chunk: &[u8],
    out: &mut [u8],
) -> Filled
    requires fit { Fit so_far.reading (desk_of desk.old) }
    requires so_far_bound { (so_far.reading.number < most64) × ((so_far.at ≤ length chunk.now) × (length chunk.now < most64)) }
    requires step_room_in_bounds { (so_far.size + step_room ≤ length out.old) × (length out.old < most64) }
    ensures { Said so_far (desk_of desk.old) chunk.now out.old result (desk_of desk.new) out.new }
{
    let s = take_step(so_far.reading, desk, chunk, so_far.at);
    let n = tell(s, &desk.command, out, so_far.size);
    Filled {
        reading: s.reading,
        at: s.at,
        size: so_far.size + n,
        refused: is_refused(s),
    }
}

fn is_refused(step: Step) -> bool
    ensures { result ≡ is_refused step.told }
{
    matches!(step.told, Told::Refused)
}

// Steps, one after the other, with their texts together at the front of `out`: up to a refused line, while the next text has room, and
// while anything is left of the chunk or of its last line's writes.
// Stays: the chunk whole, and a place in it: a slice from there on would lose the place that the answer is told in.
pub fn fill<const COMMAND: usize>(
    start: Reading,
    desk: &mut Desk<COMMAND>,
    chunk: &[u8],
    from: usize,
    out: &mut [u8],
) -> Filled
    requires fit { Fit start (desk_of desk.old) }
    requires chunk_bound { (start.number + length chunk.now < most64 + from) × ((from ≤ length chunk.now) × (length chunk.now < most64)) }
    requires out_len_bound { length out.old < most64 }
    ensures { Full start (desk_of desk.old) chunk.now from out.old result (desk_of desk.new) out.new }
{
    let mut f = Filled {
        reading: start,
        at: from,
        size: 0,
        refused: false,
    };
    while goes_on(f, chunk.len(), out.len()) {
        f = say(f, desk, chunk, out);
    }
    f
}

// The block's first 13 bytes as `replay` ends with them, at the front of `out`. Answers the text's length.
pub fn head_line(block: &[u8], out: &mut [u8]) -> usize
    requires { (head_bytes ≤ length block.now) × (step_room ≤ length out.old) }
    ensures value { (result ≡ length (head_line block.now)) × (result ≤ step_room) }
    ensures out_after { out.new ≡ over 0 (length (head_line block.now)) (head_line block.now) out.old }
{
    command_line(&block[..parts::SPARE], out, 0)
}

// A row of the picture as `plate` prints it, at the front of `out`, from the tables of the block's picture.
// Stays: that the block is valid is a clause, as `Fit` tells it of `desk.block`. A `ValidBlock` is made of it here; handed down it tells no more.
pub fn row_line(block: &[u8], tables: &PictureTables, y: usize, words: &mut [u16], out: &mut [u8])
    requires valid { Valid block.now × (y < 224) }
    requires tables_of { TablesOf (parts_of (load block.now)) tables.now.spreads tables.now.border tables.now.game }
    requires words_len { (length words.old ≡ 256) × (1025 ≤ length out.old) }
    ensures words_after { words.new ≡ row_of (parts_of (load block.now)) y }
    ensures out_after { out.new ≡ over 0 1025 (row_line (row_of (parts_of (load block.now)) y)) out.old }
{
    block_picture::row_from(ValidBlock { bytes: block }, tables, y, words);
    log_text::row_line(words, out);
}
