// What the stored rounds send and show, and the chance that it is made from (the crate `test_seeds`): tools/oracle/stored.rs runs the Rust
// on it.
ghost use Rattle.std.specs.Prelude.{◌≡◌, ◌<◌, ◌≤◌, length};
ghost use Rattle.parts.specs.Parts.{store_bytes};

#[unsafe(no_mangle)]
pub extern "C" fn probe_round_first(round: usize) -> u8 {
    test_seeds::writes::first_of(round)
}

// Answers how many writes there are.
#[unsafe(no_mangle)]
pub extern "C" fn probe_round_writes(
    round: usize,
    first: u8,
    sent: &mut [u8],
    writes: &mut [u8],
) -> usize
    requires { (length sent.old ≡ store_bytes) × (length writes.old ≡ 1916) }
    ensures { result ≤ 1916 }
{
    test_seeds::writes::plan(round, first, sent, writes)
}

#[unsafe(no_mangle)]
pub extern "C" fn probe_round_screen(screen: &mut [u8], from: u64) {
    test_seeds::screens::draw(screen, from);
}

#[unsafe(no_mangle)]
pub extern "C" fn probe_stream(round: usize, purpose: u64) -> u64 {
    test_seeds::stream(round, purpose)
}

#[unsafe(no_mangle)]
pub extern "C" fn probe_step(x: u64) -> u64 {
    test_seeds::step(x)
}

#[unsafe(no_mangle)]
pub extern "C" fn probe_byte(x: u64) -> u8 {
    test_seeds::byte(x)
}

#[unsafe(no_mangle)]
pub extern "C" fn probe_below(x: u64, n: usize) -> usize
    requires { 0 < n }
    ensures { result < n }
{
    test_seeds::below(x, n)
}
