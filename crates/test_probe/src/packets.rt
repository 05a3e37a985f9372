// The receiver, a run, the encoder and the verdict. (A module can't have the name of a crate that is used.)
ghost use Rattle.std.specs.Prelude.{◌≡◌, ◌<◌, length};
ghost use Rattle.parts.specs.Parts.{store_bytes};
ghost use Rattle.receiver.specs.Count.{count_of};
ghost use Rattle.receiver.specs.Receive.{words, Sound};
ghost use Rattle.layout.specs.Block.{stage_of};

use receiver::store::byte_at;
use receiver::{Receiver, Stage};

#[unsafe(no_mangle)]
pub extern "C" fn probe_packet_count(first: u8) -> u8
    ensures { result ≡ count_of first }
{
    receiver::packet_count(first)
}

#[unsafe(no_mangle)]
pub extern "C" fn probe_index(index: u8, mask: u8, was: u8, value: u8) -> u8
    requires { index < 255 }
{
    receiver::lines::index_after(index, mask, was == 1, value)
}

// The stage that has this number in the block (RULES 1.4).
#[tactic(auto, unfolding(layout::specs::Block::stage_of))]
fn stage_of(number: u8) -> Stage
    ensures { result ≡ stage_of number }
{
    match number {
        0 => Stage::Idle,
        1 => Stage::Receiving,
        _ => Stage::Awaiting,
    }
}

// The receiver's bytes as the block has them: stage, expected, received, bit index, and at 8 the packet.
fn put_receiver(rx: Receiver, next: &mut [u8])
    requires { length next.old ≡ 24 }
{
    let stage = rx.stage;
    next[0] = receiver::stage_number(stage);
    next[1] = rx.expected;
    next[2] = rx.received;
    next[3] = rx.bits;
    for i in 0..16 {
        next[8 + i] = byte_at(rx.lo, rx.hi, i);
    }
}

// A write to a receiver: the next one goes to `next`, the packet to `store`. Answers the packets of a command that is complete, or 0.
#[unsafe(no_mangle)]
pub extern "C" fn probe_write(
    stage: u8,
    expected: u8,
    received: u8,
    bits: u8,
    lo: u64,
    hi: u64,
    value: u8,
    released: u8,
    next: &mut [u8],
    store: &mut [u8],
) -> u8
    requires sound { Sound (record { stage = stage_of stage; expected = expected; received = received; bits = bits; packet = words lo hi }) }
    requires next_len { (length next.old ≡ 24) × (length store.old ≡ store_bytes) }
{
    let rx = Receiver {
        stage: stage_of(stage),
        expected,
        received,
        bits,
        lo,
        hi,
    };
    let w = rx.write(value, released == 1);
    put_receiver(w.next, next);
    receiver::store::file(w, lo, hi, store).unwrap_or(0)
}

// The refusal's number (RULES 2.1), or how many writes: never below 260.
#[unsafe(no_mangle)]
pub extern "C" fn probe_encode(command: &[u8], out: &mut [u8]) -> usize {
    pulses::encode(command, out).unwrap_or_else(|r| usize::from(r.number()))
}

// The refusal's number (RULES 2.1), 1 if the command conforms, else 0.
#[unsafe(no_mangle)]
pub extern "C" fn probe_verdict(command: &[u8]) -> u8 {
    pulses::verdict(command).map_or_else(|r| r.number(), |conforms| u8::from(conforms))
}
