// What the worked examples print, in `test_edges` and in `test_pages`: bytes in upper-case hexadecimal, as RULES 8.5 has them, a line each.
#![tactic(auto)]

pub mod sent;

use refusal::Refusal;
use std::io::Stdout;

pub fn line(stdout: Stdout, s: &[u8]) {
    for x in s {
        let _ = print!(stdout; "{x:02X}");
    }
    say(stdout, b"\n");
}

// A write that fails is passed over: what is missing is seen beside the file `stdout`.
pub fn say(stdout: Stdout, what: &[u8]) {
    let _ = stdout.write_all(what);
}

// In decimal.
pub fn number(stdout: Stdout, n: u64) {
    let _ = stdout.print(n);
}

// A refusal's number, and the offset that may come with it.
pub fn refused(stdout: Stdout, told: Refusal) {
    at(stdout, told.number().into(), told.offset() as u64);
}

// Piece by piece, here and wherever a line has a number: what a full pipe takes of a line is then what it took of it at first.
fn at(stdout: Stdout, refused: u64, offset: u64) {
    number(stdout, refused);
    say(stdout, b" at ");
    number(stdout, offset);
    say(stdout, b"\n");
}

// The same of a call that can only be refused: 0 at 0 where it isn't.
pub fn checked(stdout: Stdout, told: Result<(), Refusal>) {
    match told {
        Ok(()) => at(stdout, 0, 0),
        Err(r) => refused(stdout, r),
    }
}
