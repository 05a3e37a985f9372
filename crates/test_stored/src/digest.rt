// Digests: a step of chance for each number. It can be undone, so that a difference never gets lost by itself.
use test_seeds::step;

pub fn number(h: u64, v: u64) -> u64 {
    step(h ^ v)
}

// Of bytes or words, one after the other.
pub fn all<T: Copy + Into<u64>>(h: u64, s: &[T]) -> u64 {
    s.iter().fold(h, |d, v| number(d, (*v).into()))
}
