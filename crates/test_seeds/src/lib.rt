// What the stored rounds send and show (`test_stored`), made from seeds: commands, faults, idle writes (`writes`) and `screens`.
// Chance goes by one step of xorshift: the same numbers on every machine, and nothing that could overflow. tools/oracle/stored.rs
// runs the Rust on the same, by way of the crate `test_probe`: a change here asks for a new list.
#![tactic(auto)]

ghost use Rattle.std.specs.Prelude.{◌<◌};

pub mod screens;
pub mod writes;

// What every stream and every digest starts from.
pub const SEED: u64 = 0x53706F7265;

// Marsaglia's 13, 7 and 17: every number but 0 is met before one comes again.
pub fn step(x: u64) -> u64 {
    let a = x ^ x << 13;
    let b = a ^ a >> 7;
    b ^ b << 17
}

// Where a round's stream for one purpose starts.
pub fn stream(round: usize, purpose: u64) -> u64 {
    let x = SEED ^ (round as u64) << 8 ^ purpose;
    step(step(step(step(x))))
}

pub fn byte(x: u64) -> u8 {
    (x >> 56) as u8
}

pub fn below(x: u64, n: usize) -> usize
    requires { 0 < n }
    ensures { result < n }
{
    ((x >> 32) as usize) % n
}
