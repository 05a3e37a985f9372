// Whether a block is valid, and else which rule it breaks first, and at which byte: RULES 1.12 and 1.15. The tests V1 to V6 are the crate
// `block_valid`; here is a function for each that looks for its byte, but for V3's, which is the crate `block_broken_v3`.
// The meaning is `Broken` in the crate `broken`, function by function.
#![tactic(auto)]

ghost use Rattle.std.specs.Prelude.{◌≡◌, cond, eqb, leb, length};
ghost use Rattle.parts.specs.Parts.{block_bytes, kind_at, countdown_at};
ghost use Rattle.layout.specs.Block.{byte};
ghost use Rattle.layout.specs.Valid.{Fronted};
ghost use Rattle.broken.specs.Broken as spec;
ghost use Rattle.block_found.specs.Found.{found_told};
ghost use Rattle.refusal.specs.Codes.{rule_number, code_or_0};

use block_broken_v3::at_v3;
use block_found::{at_most, lower, set_in, unless, zero_at};
use block_receiver::v3;
use block_valid::{Front, lines_agree, mask_allows, v1, v2, v4, v5, v6};
use refusal::{Refusal, Rule};

fn at_v1(front: Front) -> Option<u16>
    ensures { found_told result ≡ spec.lowest (spec.asks1 front.entry.bytes.now) }
{
    let index = front.bytes[parts::INDEX];
    let within = index & front.bytes[parts::PADS] == index;
    let pads = at_most(front, parts::PADS, 3);
    lower(
        at_most(front, parts::MASK, 3),
        lower(unless(within, parts::INDEX as u16), pads),
    )
}

fn at_v2(front: Front) -> Option<u16>
    ensures { found_told result ≡ spec.lowest (spec.asks2 front.entry.bytes.now) }
{
    let agree = lines_agree(front.bytes[parts::P15], front.bytes[parts::BOTH]);
    let lines = unless(agree, parts::P15 as u16);
    let spare = lower(lines, set_in(front.bytes, parts::SPARE, parts::PACKET));
    let frozen = lower(at_most(front, parts::FROZEN_ON, 1), spare);
    let preset = lower(at_most(front, parts::PRESET_ON, 1), frozen);
    let both = lower(at_most(front, parts::BOTH, 1), preset);
    lower(at_most(front, parts::P15, 1), both)
}

fn at_v4(front: Front) -> Option<u16>
    ensures { found_told result ≡ spec.lowest (spec.asks4 front.entry.bytes.now) }
{
    lower(at_most(front, parts::COUNTDOWN, 3), kind(front))
}

// The kind, by the countdown.
fn kind(front: Front) -> Option<u16>
    ensures { found_told result ≡ spec.byte_of (spec.asked kind_at (cond (eqb (byte countdown_at front.entry.bytes.now) 0) (eqb (byte kind_at front.entry.bytes.now) 0) (leb (byte kind_at front.entry.bytes.now) 4))) }
{
    if front.bytes[parts::COUNTDOWN] == 0 {
        return zero_at(front, parts::KIND);
    }
    at_most(front, parts::KIND, 4)
}

fn at_v5(front: Front) -> Option<u16>
    ensures { found_told result ≡ spec.lowest (spec.asks5 front.entry.bytes.now) }
{
    if front.bytes[parts::PRESET_ON] != 0 {
        return None;
    }
    set_in(front.bytes, parts::PRESET, parts::PALETTES)
}

fn at_v6(block: &[u8]) -> Option<u16>
    requires { length block.now ≡ block_bytes }
    ensures { found_told result ≡ spec.lowest (spec.asks6 block.now) }
{
    let frozen_on = block[parts::FROZEN_ON];
    let mask = unless(
        mask_allows(block[parts::MASK], frozen_on),
        parts::MASK as u16,
    );
    if frozen_on != 0 {
        return mask;
    }
    lower(mask, set_in(block, parts::FROZEN, parts::TILES))
}

// The first of V1 to V6 that is broken, with its byte. Each is tested as a valid block's are, and its byte is looked for only where it fails.
pub fn broken(block: &[u8]) -> Result<(), Refusal>
    requires { length block.now ≡ block_bytes }
    ensures { code_or_0 result ≡ spec.broken_number (spec.broken block.now) }
{
    broken_front(block)?;
    if !v6(block) {
        return broken_at(Rule::V6, at_v6(block));
    }
    Ok(())
}

// The same of V1 to V5, which ask of nothing past the preset: of a block, or of its front alone.
pub fn broken_front(block: &[u8]) -> Result<(), Refusal>
    requires { Fronted block.now }
    ensures { code_or_0 result ≡ spec.broken_number (spec.first_of 1 (spec.front_rules block.now)) }
{
    let front = Front { bytes: block };
    if !v1(front) {
        return broken_at(Rule::V1, at_v1(front));
    }
    if !v2(front) {
        return broken_at(Rule::V2, at_v2(front));
    }
    if !v3(front) {
        return broken_at(Rule::V3, at_v3(front));
    }
    if !v4(front) {
        return broken_at(Rule::V4, at_v4(front));
    }
    if !v5(front) {
        return broken_at(Rule::V5, at_v5(front));
    }
    Ok(())
}

// A rule that is broken at the byte that was found.
fn broken_at(rule: Rule, found: Option<u16>) -> Result<(), Refusal>
    ensures { code_or_0 result ≡ spec.number_of (rule_number rule) (found_told found) }
{
    match found {
        Some(at) => Err(Refusal::Broken(rule, at)),
        None => Ok(()),
    }
}
