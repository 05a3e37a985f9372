// What `replay` prints of one line of writes: each command that they complete, then the block's first 13 bytes.
// RULES 8.5 and 10.2.

use std::io::Stdout;
use test_text::line;
use test_text::sent::{completed, played};

pub fn examples(stdout: Stdout, block: &mut [u8; parts::BLOCK]) {
    // a start pulse, a release and a data bit: bit index 1
    replay(stdout, &[0x00, 0x30, 0x20], block);
    // no release between: bit index 0
    replay(stdout, &[0x00, 0x20], block);
    // MASK_EN to black, as pulses
    command(
        stdout,
        &[0xB9, 0x02, 0, 0, 0, 0, 0, 0, 0, 0, 0, 0, 0, 0, 0, 0],
        block,
    );
    // the same in one call: 259 writes are taken, and the release behind the stop pulse is left
    played(
        stdout,
        &[0xB9, 0x02, 0, 0, 0, 0, 0, 0, 0, 0, 0, 0, 0, 0, 0, 0],
        block,
    );
}

// A command of one packet, sent by its pulses.
pub fn command(stdout: Stdout, d: &[u8], block: &mut [u8; parts::BLOCK]) {
    let mut pulses = [0u8; 260];
    let _ = pulses::encode(d, &mut pulses);
    replay(stdout, &pulses, block);
}

fn replay(stdout: Stdout, writes: &[u8], block: &mut [u8; parts::BLOCK]) {
    let _ = unit::post_boot(block);
    let mut command = [0u8; parts::STORE_BYTES];
    send(stdout, writes, block, &mut command);
    line(stdout, &block[0..13]);
}

fn send(stdout: Stdout, writes: &[u8], block: &mut [u8; parts::BLOCK], command: &mut [u8]) {
    for write in writes {
        if let Ok(packets) = unit::write_joypad(block, *write, command) {
            completed(stdout, packets, command);
        }
    }
}
