// The packet store: where a packet goes when it is in. RULES 3.6. The meaning is in specs/Store.
ghost use Rattle.std.specs.Prelude.{◌≡◌, ◌<◌, length, get_or};
ghost use Rattle.parts.specs.Parts.{store_bytes};
ghost use Rattle.receiver.specs.Receive.{words};
ghost use Rattle.receiver.specs.Store.{bytes_of, appended, filed, packets_of, packets_if, Fits};

use crate::{Done, Written};

// Byte i of a packet.
// Stays: the packet as its two words, here and below, as `Receiver` has it; and by shifts and masks, as in `bits`.
pub fn byte_at(lo: u64, hi: u64, i: usize) -> u8
    requires { i < 16 }
    ensures { result ≡ get_or (bytes_of 16 (words lo hi)) i 0 }
{
    if i < 8 {
        (lo >> (8 * i) & 0xFF) as u8
    } else {
        (hi >> (8 * (i - 8)) & 0xFF) as u8
    }
}

// The packet at its n-th place of the store.
pub fn append(store: &mut [u8], n: u8, lo: u64, hi: u64)
    requires { (n < 7) × (length store.old ≡ store_bytes) }
    ensures { store.new ≡ appended store.old (words lo hi) n }
{
    let at = 16 * usize::from(n);
    for i in 0..16 {
        store[at + i] = byte_at(lo, hi, i);
    }
}

// What a pulse completed goes into the store, with the packet that was coming in before it. Answers the packets of a command that
// is complete, whose bytes then stand at the store's front.
pub fn file(w: Written, lo: u64, hi: u64, store: &mut [u8]) -> Option<u8>
    requires { Fits w.done × (length store.old ≡ store_bytes) }
    ensures { (result ≡ packets_if (packets_of w.done)) × (store.new ≡ filed w.done (words lo hi) store.old) }
{
    match w.done {
        Done::Nothing => None,
        Done::Packet(n) => {
            append(store, n, lo, hi);
            None
        }
        Done::Command(n) => {
            append(store, n - 1, lo, hi);
            Some(n)
        }
    }
}
