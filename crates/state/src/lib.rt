// States exchanged with the emulator (RULES 11): a state of its own form becomes a block, and a block such a state. Rust: `from_state`, and
// `write_state` with `capture_memory`. Neither asks anything of its caller, and a refusal changes no lent byte. The meaning is `Coming` and
// `Going` in the crate `state_spans`; the steps are `state_in` and `state_out`.
// Stays: the block's length is a clause. Each caller is lent a slice, and would turn it into an array at each call by a conversion whose failure it has
// to rule out, which is no plainer.
#![tactic(auto)]

ghost use Rattle.std.specs.Prelude.{◌≡◌, true, cond, eqb, length};
ghost use Rattle.broken.specs.Broken.{broken, broken_number};
ghost use Rattle.parts.specs.Parts.{block_bytes};
ghost use Rattle.refusal.specs.Codes.{code_or_0};
ghost use Rattle.state_spans.specs.Told.{state_told, lent_told, SameRoom};
ghost use Rattle.state_spans.specs.Coming.{fits, cells_fit, block_from, from_answer, from_block};
ghost use Rattle.state_spans.specs.Going.{to_answer, to_lent};
ghost use Rattle.view.specs.Answers.{number_told};

use refusal::Refusal;
use state_cells::palette_numbers;
use state_spans::{Spans, SpansMut, bytes_in};

// A state into a block, or refusal 1, 8, 9 or 21 to 26. The fields are twelve bytes in the order of the Rust's `write_state`. The rules are tested
// before the block is written.
pub fn from_state(block: &mut [u8], spans: &Spans) -> Result<(), Refusal>
    ensures result_value { code_or_0 result ≡ from_answer block.old (state_told spans.now) }
    ensures block_after { block.new ≡ from_block block.old (state_told spans.now) }
{
    if block.len() != parts::BLOCK {
        return Err(Refusal::Length);
    }
    if !state_fits::fits(spans) {
        return Err(Refusal::Span);
    }
    if !cells_fit(spans) {
        return Err(Refusal::Cell);
    }
    take_in(block, spans)
}

// Whether map and files have nothing but palette numbers.
fn cells_fit(spans: &Spans) -> bool
    ensures { result ≡ cells_fit (state_told spans.now) }
{
    palette_numbers(bytes_in(spans.attribute_map))
        && palette_numbers(bytes_in(spans.attribute_files))
}

// A state whose spans fit: the rules are tested on what stands before the palettes, and then the block is written.
fn take_in(block: &mut [u8], spans: &Spans) -> Result<(), Refusal>
    requires { (length block.old ≡ block_bytes) × (fits (state_told spans.now) ≡ true) }
    ensures result_value { code_or_0 result ≡ broken_number (broken (block_from (state_told spans.now))) }
    ensures block_after { block.new ≡ cond (eqb (code_or_0 result) 0) (block_from (state_told spans.now)) block.old }
{
    let mut front = [0u8; parts::PALETTES];
    state_in::fill_front(&mut front, spans);
    state_in::broken_rule(&front)?;
    state_in::put_tables(block, &front, spans);
    state_in::put_captures(block, spans);
    state_in::put_border(block, spans);
    Ok(())
}

// A block as a state, into the fields and spans that are lent: which spans are there as a number, the bit of the first in the least significant, or
// refusal 1, 21 to 26 or 6. A longer span keeps its tail, and one that isn't there keeps every byte. The packets have 16 bytes for each that is in.
pub fn to_state(block: &[u8], room: &mut SpansMut) -> Result<usize, Refusal>
    ensures result_value { number_told result ≡ to_answer block.now (lent_told room.old) }
    ensures room_after { lent_told room.new ≡ to_lent block.now (lent_told room.old) }
    ensures same_room { SameRoom room.new room.old }
{
    view::check(block)?;
    if !state_out::roomy(room) {
        return Err(Refusal::Output);
    }
    state_out::lay(block, room);
    Ok(state_out::present_in(block))
}
