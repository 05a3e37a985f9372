// Standard input read into a lent buffer, up to the end of the input or of the buffer: for the programs that hold a whole file, `check` and
// `page`. Here are the calls of `read`; the writing is in `log_writer`.
#![tactic(auto)]

ghost use Rattle.std.specs.Prelude.{◌≡◌, ◌+◌, ◌≤◌, length, take, is_ok, IfOk};
ghost use Rattle.file_reader.specs.Came.{Came, is_read};

use log_writer::{Failed, Streams, fail};
use std::io::Read as _;

// How reading ended: the input did; the buffer is full; a read failed, which has been said.
// Stays: three ends. The definition `Told` says another thing of each, and `Came` holds of the count at each.
#[derive(Clone, Copy, Debug, PartialEq, Eq)]
pub enum End {
    Ended,
    Full,
    Failed,
}

// How many bytes came.
#[derive(Clone, Copy, Debug, PartialEq, Eq)]
pub struct Read {
    pub got: usize,
    pub end: End,
}

// What a program printed: the same, and whether all that is due was written.
#[derive(Clone, Copy, Debug, PartialEq, Eq)]
pub struct Print {
    pub got: usize,
    pub end: End,
    pub sent: Result<(), Failed>,
}

// Up to the end of the input or of the buffer: each read brings a byte at least, or is the last.
pub fn read_file(streams: Streams, file: &mut [u8]) -> Read
    ensures { Came result.got result.end file.new }
{
    let mut got: usize = 0;
    // Stays: the place goes on by what one read brought.
    while got < file.len() {
        match read_more(streams, file, got) {
            Ok(0) => {
                return Read {
                    got,
                    end: End::Ended,
                };
            }
            Ok(n) => got += n,
            Err(Failed) => {
                return Read {
                    got,
                    end: End::Failed,
                };
            }
        }
    }
    Read {
        got,
        end: End::Full,
    }
}

// One call of `read`, behind what came, which stays.
fn read_more(streams: Streams, file: &mut [u8], got: usize) -> Result<usize, Failed>
    requires { got ≤ length file.old }
    ensures bytes_in_bounds { IfOk result (λ n. got + n ≤ length file.new) }
    ensures file_unchanged { take got file.new ≡ take got file.old }
{
    let mut input = streams.input;
    let brought = input.read(&mut file[got..]);
    brought.map_err(|why| fail(streams, "read", why))
}

impl Read {
    // What came, to be told of, unless a read failed.
    pub fn front(self, file: &[u8]) -> Result<&[u8], Failed>
        requires { Came self.got self.end file.now }
        ensures value { IfOk result (λ came. came.now ≡ take self.got file.now) }
        ensures variant { is_ok result ≡ is_read self.end }
    {
        match self.end {
            End::Ended | End::Full => Ok(&file[..self.got]),
            End::Failed => Err(Failed),
        }
    }
}
