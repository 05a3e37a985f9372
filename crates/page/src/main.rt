// `page`: a page on standard input; on standard output the picture of the screen that carries it, or `10`. What is printed stands in the
// contract of `pages_drawn::draw`; here are the buffers that it is lent, and the exit status,
// 1 where a read or a write failed.
#![tactic(auto)]

use log_writer::Printer;
use std::process::ExitCode;

fn main(rt: HostRuntime) -> ExitCode {
    let mut printer = Printer::of(&rt);
    let mut input = [0u8; pages_drawn::INPUT_BYTES];
    let mut screen = [0u8; pages_drawn::SCREEN_BYTES];
    let mut out = [0u8; pages_drawn::FILE_BYTES];
    let print = pages_drawn::draw(&mut printer, &mut input, &mut screen, &mut out);
    log_writer::status(print.sent)
}
