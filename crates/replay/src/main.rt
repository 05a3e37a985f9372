// `replay`: a log on standard input; its commands, its refused lines and the block's first 13 bytes on standard output.
// What is printed stands in the contract of `log_replay::replay`; here are the buffers that it is lent, and the exit status, 1 where
// a read or a write failed.
// Stays: the two mains of the log differ in the call alone; a function that takes it as a closure would owe `main`'s buffers their contract.
#![tactic(auto)]

use log_chunks::Desk;
use log_writer::Printer;
use std::process::ExitCode;

fn main(rt: HostRuntime) -> ExitCode {
    let mut printer = Printer::of(&rt);
    let mut desk = Desk {
        block: [0; parts::BLOCK],
        line: [0; log_line::LINE_DIGITS],
        bytes: [0; parts::CAPTURE_BYTES],
        command: [0; parts::STORE_BYTES],
    };
    let mut out = [0u8; log_reader::OUT_BYTES];
    let mut chunk = [0u8; log_reader::CHUNK_BYTES];
    let print = log_replay::replay(&mut printer, &mut desk, &mut out, &mut chunk);
    log_writer::status(print.sent)
}
