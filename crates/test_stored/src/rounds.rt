// The rounds. Of the first 512 every second one sends a command of another first byte, so that each code comes with each count; those
// between send one packet of a code that does something, so that there is a border to draw, files to take, and a mask that ends again.
// The last 96 are alike, with a fault in every second. The unit starts anew four times.
use crate::{digest, looks, screens, writes};
use std::io::Stdout;
use test_seeds::SEED;
use test_seeds::writes::first_of;

pub fn all(stdout: Stdout, block: &mut [u8]) {
    for round in 0..608 {
        start(round, block);
        one(stdout, round, block);
    }
}

fn start(round: usize, block: &mut [u8]) {
    if round % 304 == 0 {
        let _ = unit::post_boot(block);
    } else if round % 152 == 0 {
        let _ = unit::new(block);
    }
}

fn one(stdout: Stdout, round: usize, block: &mut [u8]) {
    let first = first_of(round);
    let writes = writes::write(round, first, block, SEED);
    let screens = screens::show(round, block, SEED);
    let looks = looks::look(round, block, SEED);
    let whole = digest::all(SEED, block);
    let _ = print!(stdout; "{round:03x} {first:02x}");
    for digest in [writes, screens, looks, whole] {
        let _ = print!(stdout; " {digest:016x}");
    }
    let _ = stdout.println("");
}
