// Verdicts, RULES 7.2: as many items as the packets just hold conform, and with one more the command differs. Then ATTR_LIN is sent, and the
// map's first row shown: what conforms is carried out whole, RULES 7.3, and a line that the packets don't hold changes nothing.

use crate::emulator::part;
use crate::maps::row;
use bits::{high_byte, low_byte, put};
use refusal::Refusal;
use std::io::Stdout;
use test_text::sent::played;
use test_text::{number, say};

// A command that announces how many items follow.
#[derive(Clone, Copy, Debug, PartialEq, Eq)]
enum Announced {
    Sets,
    Lines,
    Cells,
}

impl Announced {
    // The code of ATTR_BLK, ATTR_LIN or ATTR_CHR.
    fn code(self) -> u8 {
        match self {
            Announced::Sets => 0x04,
            Announced::Lines => 0x05,
            Announced::Cells => 0x07,
        }
    }

    fn name(self, stdout: Stdout) {
        match self {
            Announced::Sets => say(stdout, b", sets "),
            Announced::Lines => say(stdout, b", lines "),
            Announced::Cells => say(stdout, b", cells "),
        }
    }
}

pub fn examples(stdout: Stdout, block: &mut [u8; parts::BLOCK]) {
    sets(stdout);
    lines(stdout);
    cells(stdout);
    // one packet holds fourteen lines: fifteen announced do no more; two packets hold the fifteenth
    columns(stdout, 1, 14, block);
    columns(stdout, 1, 15, block);
    columns(stdout, 2, 15, block);
}

// Two bytes, and six a set: thirteen fill five packets, and eighteen take seven. None announced is too few.
fn sets(stdout: Stdout) {
    judge(stdout, Announced::Sets, 1, 0);
    judge(stdout, Announced::Sets, 1, 2);
    judge(stdout, Announced::Sets, 1, 3);
    judge(stdout, Announced::Sets, 1, 18);
    judge(stdout, Announced::Sets, 5, 13);
    judge(stdout, Announced::Sets, 5, 14);
    judge(stdout, Announced::Sets, 7, 18);
    judge(stdout, Announced::Sets, 7, 19);
}

// Two bytes, and one a line.
fn lines(stdout: Stdout) {
    judge(stdout, Announced::Lines, 1, 14);
    judge(stdout, Announced::Lines, 1, 15);
    judge(stdout, Announced::Lines, 7, 110);
    judge(stdout, Announced::Lines, 7, 111);
}

// Six bytes, and one for every four cells, also for those left over. Seven packets are too many, whatever they hold.
fn cells(stdout: Stdout) {
    judge(stdout, Announced::Cells, 1, 40);
    judge(stdout, Announced::Cells, 1, 41);
    judge(stdout, Announced::Cells, 6, 360);
    judge(stdout, Announced::Cells, 6, 361);
    judge(stdout, Announced::Cells, 7, 360);
}

// The verdict on a command that announces so many items in so many packets.
fn judge(stdout: Stdout, items: Announced, packets: u8, count: u16) {
    say(stdout, b"packets ");
    number(stdout, packets.into());
    items.name(stdout);
    number(stdout, count.into());
    say(stdout, b": ");
    let d = announcing(items, packets, count);
    tell(
        stdout,
        pulses::verdict(part(&d, 0, 16 * usize::from(packets))),
    );
}

// A command of zeros but for its first byte and the number that it announces, in an array of seven packets.
fn announcing(items: Announced, packets: u8, count: u16) -> [u8; parts::STORE_BYTES] {
    let mut d = [0u8; parts::STORE_BYTES];
    d[0] = items.code() << 3 | packets;
    match items {
        Announced::Sets | Announced::Lines => d[1] = low_byte(count),
        Announced::Cells => {
            d[3] = low_byte(count);
            d[4] = high_byte(count);
        }
    }
    d
}

// A line's byte is its column and 32 times its palette: columns 0 to 13 take palette 1, and fill the first packet; column 14 takes palette 2.
fn columns(stdout: Stdout, packets: u8, count: u16, block: &mut [u8; parts::BLOCK]) {
    let mut d = announcing(Announced::Lines, packets, count);
    put(
        &mut d,
        2,
        &[32, 33, 34, 35, 36, 37, 38, 39, 40, 41, 42, 43, 44, 45, 78],
    );
    carried(stdout, part(&d, 0, 16 * usize::from(packets)), block);
}

fn carried(stdout: Stdout, d: &[u8], block: &mut [u8; parts::BLOCK]) {
    tell(stdout, pulses::verdict(d));
    played(stdout, d, block);
    row(stdout, &block[parts::MAP..parts::MAP + 5]);
}

fn tell(stdout: Stdout, told: Result<bool, Refusal>) {
    match told {
        Err(_) => say(stdout, b"malformed\n"),
        Ok(true) => say(stdout, b"conforms\n"),
        Ok(false) => say(stdout, b"differs\n"),
    }
}
