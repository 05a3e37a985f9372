// V3 of a block that breaks it, RULES 1.15: which byte, by what the receiver is at. All of the rules together are the crate `block_broken`.
// The meaning is `Broken` in the crate `broken`, function by function.
#![tactic(auto)]

ghost use Rattle.std.specs.Prelude.{◌≡◌, ◌+◌, ◌*◌, length, drop};
ghost use Rattle.parts.specs.Parts.{block_bytes, store_at, store_bytes};
ghost use Rattle.bits.specs.Over.{part};
ghost use Rattle.receiver.specs.declared.Stage.TheVariants.{Receiving};
ghost use Rattle.broken.specs.Broken as spec;
ghost use Rattle.block_found.specs.Found.{found_told};

use block_found::{at_most, bits_past, lower, set_in, unless, zero_at};
use block_receiver::stage;
use block_valid::Front;
use receiver::packet_count;

// An idle receiver.
// Stays: a function for each part of the rule, as `Broken` has them one by one; they differ in which bytes are asked, and not in a number.
fn resting(front: Front) -> Option<u16>
    ensures { found_told result ≡ spec.lowest (spec.resting front.entry.bytes.now) }
{
    let held = set_in(front.bytes, parts::PACKET, parts::PRESET);
    let bits = lower(zero_at(front, parts::BITS), held);
    let received = lower(zero_at(front, parts::RECEIVED), bits);
    lower(zero_at(front, parts::EXPECTED), received)
}

// The packet that is coming in.
fn coming(front: Front) -> Option<u16>
    ensures { found_told result ≡ spec.lowest (spec.coming front.entry.bytes.now) }
{
    lower(
        at_most(front, parts::BITS, 128),
        bits_past(front, front.bytes[parts::BITS]),
    )
}

// Nothing is held before the first packet.
fn first(front: Front) -> Option<u16>
    ensures { found_told result ≡ spec.lowest (spec.first front.entry.bytes.now) }
{
    lower(
        zero_at(front, parts::EXPECTED),
        set_in(front.bytes, parts::STORE, parts::PRESET),
    )
}

// No bit is in between two packets.
fn between(front: Front) -> Option<u16>
    ensures { found_told result ≡ spec.lowest (spec.between front.entry.bytes.now) }
{
    lower(
        zero_at(front, parts::BITS),
        set_in(front.bytes, parts::PACKET, parts::STORE),
    )
}

// Some packets are in and some are due.
fn later(front: Front) -> Option<u16>
    ensures { found_told result ≡ spec.lowest (spec.later front.entry.bytes.now) }
{
    let received = front.bytes[parts::RECEIVED];
    let expected = front.bytes[parts::EXPECTED];
    let count = packet_count(front.bytes[parts::STORE]);
    let counted = lower(
        unless(expected == count, parts::EXPECTED as u16),
        past(front, received),
    );
    let few = lower(at_most(front, parts::EXPECTED, 7), counted);
    let due = lower(unless(received < expected, parts::EXPECTED as u16), few);
    lower(unless(1 <= received, parts::RECEIVED as u16), due)
}

// The store behind the packets that are in. Behind seven there is none.
fn past(front: Front, received: u8) -> Option<u16>
    ensures { found_told result ≡ spec.lowest (spec.zero_from (store_at + 16 * received) (drop (16 * received) (part store_at store_bytes front.entry.bytes.now))) }
{
    if received > 7 {
        return None;
    }
    set_in(
        front.bytes,
        parts::STORE + 16 * usize::from(received),
        parts::PRESET,
    )
}

fn receiving(front: Front) -> Option<u16>
    ensures { found_told result ≡ spec.lowest (spec.asks_of Receiving front.entry.bytes.now) }
{
    if front.bytes[parts::RECEIVED] == 0 {
        return lower(coming(front), first(front));
    }
    lower(coming(front), later(front))
}

// By the receiver's stage. One that there isn't is told, and nothing else.
pub fn at_v3(front: Front) -> Option<u16>
    ensures { found_told result ≡ spec.lowest (spec.asks3 front.entry.bytes.now) }
{
    match stage(front.bytes) {
        0 => resting(front),
        1 => receiving(front),
        2 => lower(between(front), later(front)),
        _ => Some(parts::STAGE as u16),
    }
}
