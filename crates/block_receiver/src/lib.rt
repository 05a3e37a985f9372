// V3 of a block, RULES 1.8: what the receiver's bytes may be at each of its stages. The other clauses are the crate `block_valid`, all of them together `block_broken`.
// The meaning is `v3` in the crate `layout`; what it says of each stage is `Valid` in the crate `receiver`.
#![tactic(auto)]

ghost use Rattle.std.specs.Prelude.{◌≡◌, ◌^◌, ◌≤◌, ltb, length, get_or, true};
ghost use Rattle.std.proofs.Math.Pow.{are_bytes};
ghost use Rattle.bits.specs.Over.{part};
ghost use Rattle.parts.specs.Parts.{block_bytes, stage_at, packet_at, packet_bytes};
ghost use Rattle.layout.specs.Block.{load};
ghost use Rattle.layout.specs.Valid as spec;
ghost use Rattle.receiver.specs.Receive.{words};
ghost use Rattle.receiver.specs.Valid.{later, v3_at};
ghost use Rattle.receiver.specs.declared.Stage.TheVariants.{Idle, Receiving, Awaiting};

use bits::all_zero;
use block_packet::half;
use block_valid::Front;
use receiver::packet_count;

// By the receiver's stage, which is 0, 1 or 2.
pub fn v3(front: Front) -> bool
    ensures { result ≡ spec.v3 front.entry.bytes.now }
{
    match stage(front.bytes) {
        0 => idle(front),
        1 => receiving(front),
        2 => awaiting(front),
        _ => false,
    }
}

// The stage's number, of a front that is lent; of that it is then known that the packet is bytes.
pub fn stage(bytes: &[u8]) -> u8
    requires { spec.Fronted bytes.now }
    ensures value { result ≡ get_or bytes.now stage_at 0 }
    ensures packet { are_bytes (part packet_at packet_bytes bytes.now) ≡ true }
{
    bytes[parts::STAGE]
}

// An idle receiver holds nothing.
fn idle(front: Front) -> bool
    ensures { result ≡ v3_at Idle (load front.entry.bytes.now).port.rx (load front.entry.bytes.now).port.store }
{
    front.bytes[parts::EXPECTED] == 0
        && front.bytes[parts::RECEIVED] == 0
        && front.bytes[parts::BITS] == 0
        && all_zero(&front.bytes[parts::PACKET..parts::STORE])
        && all_zero(&front.bytes[parts::STORE..parts::PRESET])
}

// Up to 128 bits of the packet are in, and none of those to come is set; on the first packet nothing else is held.
fn receiving(front: Front) -> bool
    ensures { result ≡ v3_at Receiving (load front.entry.bytes.now).port.rx (load front.entry.bytes.now).port.store }
{
    let bits = front.bytes[parts::BITS];
    if bits > 128
        || !clear_from(
            half(front.bytes, parts::PACKET),
            half(front.bytes, parts::PACKET + 8),
            bits,
        )
    {
        return false;
    }
    if front.bytes[parts::RECEIVED] != 0 {
        return some_in(front);
    }
    front.bytes[parts::EXPECTED] == 0 && all_zero(&front.bytes[parts::STORE..parts::PRESET])
}

// Between two packets no bit is in.
fn awaiting(front: Front) -> bool
    ensures { result ≡ v3_at Awaiting (load front.entry.bytes.now).port.rx (load front.entry.bytes.now).port.store }
{
    front.bytes[parts::BITS] == 0
        && all_zero(&front.bytes[parts::PACKET..parts::STORE])
        && some_in(front)
}

// No bit of a packet at `bits` or past it is set.
fn clear_from(lo: u64, hi: u64, bits: u8) -> bool
    requires { bits ≤ 128 }
    ensures { result ≡ ltb (words lo hi) (2 ^ bits) }
{
    match bits {
        0..=63 => hi == 0 && lo >> bits == 0,
        64..=127 => hi >> (bits - 64) == 0,
        _ => true,
    }
}

// Some packets are in and some are due, as the store's first byte counts them, and the store holds no more than those.
fn some_in(front: Front) -> bool
    ensures { result ≡ later (load front.entry.bytes.now).port.rx.expected (load front.entry.bytes.now).port.rx.received (load front.entry.bytes.now).port.store }
{
    let received = front.bytes[parts::RECEIVED];
    let expected = front.bytes[parts::EXPECTED];
    1 <= received
        && received < expected
        && expected <= 7
        && expected == packet_count(front.bytes[parts::STORE])
        && all_zero(&front.bytes[parts::STORE + 16 * usize::from(received)..parts::PRESET])
}
