// `check`: a saved block on standard input; on standard output one line, `valid`, `1`, or as `23 at 8` the number of the rule that it
// breaks and the offset of the lowest byte that does. What is printed stands in the contract of `check_saved::check`; here are the buffers
// that it is lent, and the exit status, 1 where a read or a write failed.
#![tactic(auto)]

use log_writer::Printer;
use std::process::ExitCode;

fn main(rt: HostRuntime) -> ExitCode {
    let mut printer = Printer::of(&rt);
    let mut saved = [0u8; check_saved::SAVED_BYTES];
    let mut line = [0u8; check_saved::LINE_BYTES];
    let print = check_saved::check(&mut printer, &mut saved, &mut line);
    log_writer::status(print.sent)
}
