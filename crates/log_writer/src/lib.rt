// Text written to standard output, and how a reading stands behind it. What `write` took is kept in one number, the tally of the lent
// printer: the kit's contract of `write` says how many bytes it took and nothing of which, so that a contract can name what was printed only
// by a value that the code carries.
#![tactic(auto)]

ghost use Rattle.std.specs.Prelude.{◌≡◌, ◌≤◌, cond, length, take, is_ok, IfOk, OnErr};
ghost use Rattle.std.specs.Process.{exit_status};
ghost use Rattle.log_writer.specs.Tally.{tallied, Sent};
ghost use Rattle.log_writer.specs.Told.{ToldAs};

use std::io;
use std::io::{ErrorKind, Stderr, Stdin, Stdout};
use std::process::ExitCode;

// The standard streams.
#[derive(Clone, Copy)]
pub struct Streams {
    pub input: Stdin,
    pub output: Stdout,
    pub words: Stderr,
}

// What is printed to: the streams, and the tally of what standard output took. `main` makes one, and lends it from call to call.
#[derive(Drop)]
pub struct Printer {
    pub streams: Streams,
    pub tally: u64,
}

impl Printer {
    // Nothing is printed yet. A bound on the runtime would not do: std's traits have no call that hands out a stream.
    pub fn of(rt: &HostRuntime) -> Printer
        ensures { result.tally ≡ 0 }
    {
        Printer {
            streams: Streams {
                input: rt.stdin(),
                output: rt.stdout(),
                words: rt.stderr(),
            },
            tally: 0,
        }
    }
}

// A read or a write failed, which has been said.
#[derive(Clone, Copy, Debug, PartialEq, Eq)]
pub struct Failed;

// The exit status of a program.
pub fn status(sent: Result<(), Failed>) -> ExitCode
    ensures { exit_status result ≡ cond (is_ok sent) 0 1 }
{
    match sent {
        Ok(()) => ExitCode::SUCCESS,
        Err(Failed) => ExitCode::FAILURE,
    }
}

// All that came is told; a read or a write failed, which has been said; a quiet reading came to a refused line, the one before the
// reading's next.
// Stays: three outcomes. A refused line is no failure, so a `Result` would count it as one.
#[derive(Clone, Copy, Debug, PartialEq, Eq)]
pub enum State {
    Well,
    Failed,
    Refused,
}

// How it stands behind a fill: a quiet reading goes on up to a refused line, the other one while its text can be written.
// Stays: `quiet` is a `bool`, as which the definition `ToldAs` and those of `log_reader/specs/Read` ask for it.
pub fn told(printer: &mut Printer, text: &[u8], refused: bool, quiet: bool) -> State
    ensures { ToldAs quiet refused printer.old.tally text.now result printer.new.tally }
{
    if quiet {
        return if refused { State::Refused } else { State::Well };
    }
    match write_out(printer, text) {
        Ok(()) => State::Well,
        Err(Failed) => State::Failed,
    }
}

// Writes all of a text, or as much as can be, and then says that it could not.
pub fn write_out(printer: &mut Printer, text: &[u8]) -> Result<(), Failed>
    ensures { Sent (is_ok result) printer.old.tally text.now printer.new.tally }
{
    let sent = hand_over(printer, text);
    sent.map_err(|why| fail(printer.streams, "write", why))
}

// By its own loop: std's `write_all` does not tell how much of a text went out before a write failed.
fn hand_over(printer: &mut Printer, text: &[u8]) -> io::Result<()>
    ensures { Sent (is_ok result) printer.old.tally text.now printer.new.tally }
{
    let mut done: usize = 0;
    // Stays: the place goes on by what one write took.
    while done < text.len() {
        let n = put(printer, &text[done..])?;
        if n == 0 {
            return Err(io::Error::from(ErrorKind::WriteZero));
        }
        done += n;
    }
    Ok(())
}

// One call of `write`, the only one to standard output: the tally goes on by the bytes that it took. That these are the bytes that it
// was handed is read off these lines. Where it fails it took none.
fn put(printer: &mut Printer, text: &[u8]) -> io::Result<usize>
    ensures ok { IfOk result (λ n. (n ≤ length text.now) × (printer.new.tally ≡ tallied printer.old.tally (take n text.now))) }
    ensures err { OnErr result (printer.new.tally ≡ printer.old.tally) }
{
    let n = printer.streams.output.write_some(text)?;
    printer.tally = weigh(printer.tally, &text[..n]);
    Ok(n)
}

// Says which call failed, and why. Where that can't be written either nothing more is said, and the exit status still tells.
pub fn fail(streams: Streams, call: &str, why: io::Error) -> Failed {
    let _ = eprintln!(streams.words; "{call}: {why}");
    Failed
}

fn weigh(start: u64, text: &[u8]) -> u64
    ensures { result ≡ tallied start text.now }
{
    let mut tally = start;
    for b in text {
        tally = tally.wrapping_add(4294967296 + u64::from(*b));
    }
    tally
}
