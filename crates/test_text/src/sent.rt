// A command that is sent, and screens: what each leaves of the block.
ghost use Rattle.std.specs.Prelude.{◌+◌, ◌≤◌};
ghost use Rattle.parts.specs.Parts.{block_bytes};

use crate::{line, number, say};
use refusal::Refusal;
use std::io::Stdout;
use transfer::pending::Transfer;
use unit::Played;

// A command of one packet or two by writes in a row: how many were taken, the command, and the block's first 13 bytes.
pub fn played(stdout: Stdout, d: &[u8], block: &mut [u8; parts::BLOCK]) {
    let _ = unit::post_boot(block);
    let mut pulses = [0u8; 2 * 260];
    let _ = pulses::encode(d, &mut pulses);
    let mut command = [0u8; parts::STORE_BYTES];
    if let Ok(told) = unit::play(block, &pulses, &mut command) {
        counted(stdout, told, &command);
    }
    line(stdout, &block[0..13]);
}

fn counted(stdout: Stdout, told: Played, command: &[u8]) {
    if told.packets.is_none() {
        return;
    }
    let taken = [(told.writes / 256 % 256) as u8, (told.writes % 256) as u8];
    line(stdout, &taken);
    completed(stdout, told.packets, command);
}

// The command that a write completes, if it does.
pub fn completed(stdout: Stdout, packets: Option<u8>, command: &[u8]) {
    let Some(n) = packets else {
        return;
    };
    let end = 16 * usize::from(n);
    if end <= command.len() {
        line(stdout, &command[0..end]);
    }
}

// What lands, and what the part of the block that starts there then begins with.
pub fn show(stdout: Stdout, screen: &[u8], block: &mut [u8; parts::BLOCK], part: usize)
    requires { part + 2 ≤ block_bytes }
{
    tell(stdout, unit::update_screen(block, screen));
    line(stdout, &block[part..part + 2]);
}

fn tell(stdout: Stdout, told: Result<Option<Transfer>, Refusal>) {
    match told {
        Err(r) => {
            say(stdout, b"refused ");
            number(stdout, r.number().into());
        }
        Ok(None) => say(stdout, b"nothing lands"),
        Ok(Some(transfer)) => {
            say(stdout, b"kind ");
            number(stdout, transfer.number().into());
            say(stdout, b" lands");
        }
    }
    say(stdout, b", the part starts ");
}
