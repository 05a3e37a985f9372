// The screen that carries a page, RULES 5.6: of two bytes of the page, and zeros besides, the two bytes that pack their eight pixels. Then
// PAL_TRN is sent, and such a screen, shown as the third, lands: RULES 5.7. (A module can't have the name of a crate that is used.)
ghost use Rattle.std.specs.Prelude.{◌+◌, ◌<◌, ◌≤◌};
ghost use Rattle.parts.specs.Parts.{capture_bytes};
ghost use Rattle.transfer.specs.Page.{page_bytes};

use refusal::Refusal;
use std::io::Stdout;
use test_text::sent::{played, show};
use test_text::{line, number, refused, say};
use transfer::page::PAGE_BYTES;

pub fn examples(stdout: Stdout, block: &mut [u8; parts::BLOCK]) {
    // the first pixel is bit 7: shade 1 by the low plane's byte, 2 by the high plane's
    carried(stdout, 0, 0x80, 0, 0);
    carried(stdout, 0, 0, 0x80, 0);
    // the shades 0 to 3, twice, as in RULES 10.1; the next tile stands beside them, and the 21st beneath
    carried(stdout, 0, 0x55, 0x33, 0);
    carried(stdout, 16, 0x55, 0x33, 2);
    carried(stdout, 320, 0x55, 0x33, 320);
    // the last pixel of tile 255: column 127 of row 103
    carried(stdout, 4094, 0, 1, 4150);
    full(stdout);
    // a page of another length comes before an output that is short
    misfit(stdout, PAGE_BYTES - 1, parts::CAPTURE_BYTES);
    misfit(stdout, PAGE_BYTES + 1, parts::CAPTURE_BYTES);
    misfit(stdout, PAGE_BYTES - 1, parts::CAPTURE_BYTES - 1);
    misfit(stdout, PAGE_BYTES, parts::CAPTURE_BYTES - 1);
    lands(stdout, block);
}

fn carried(stdout: Stdout, at: usize, low: u8, high: u8, shown: usize)
    requires { (at + 1 < page_bytes) × (shown + 2 ≤ capture_bytes) }
{
    let page = two(at, low, high);
    let mut screen = [0u8; parts::CAPTURE_BYTES];
    let _ = pages::page_screen(&page, &mut screen);
    say(stdout, b"page byte ");
    number(stdout, at as u64);
    say(stdout, b", screen byte ");
    number(stdout, shown as u64);
    say(stdout, b": ");
    line(stdout, &screen[shown..shown + 2]);
}

// A page of zeros but for two bytes.
fn two(at: usize, low: u8, high: u8) -> [u8; PAGE_BYTES]
    requires { at + 1 < page_bytes }
{
    let mut page = [0u8; PAGE_BYTES];
    page[at] = low;
    page[at + 1] = high;
    page
}

// Shade 3 all over the page, in an output with two bytes too many: where tile 255 ends, and where the screen does.
fn full(stdout: Stdout) {
    let page = [0xFFu8; PAGE_BYTES];
    let mut out = [0xAAu8; parts::CAPTURE_BYTES + 2];
    tell(stdout, pages::page_screen(&page, &mut out));
    line(stdout, &out[4150..4154]);
    line(stdout, &out[5758..5762]);
}

fn misfit(stdout: Stdout, bytes: usize, room: usize)
    requires { (bytes ≤ page_bytes + 1) × (room ≤ capture_bytes) }
{
    let page = [0u8; PAGE_BYTES + 1];
    let mut screen = [0u8; parts::CAPTURE_BYTES];
    tell(
        stdout,
        pages::page_screen(&page[0..bytes], &mut screen[0..room]),
    );
}

fn tell(stdout: Stdout, told: Result<usize, Refusal>) {
    match told {
        Err(r) => refused(stdout, r),
        Ok(n) => {
            number(stdout, n as u64);
            say(stdout, b" bytes\n");
        }
    }
}

// A first colour of 1234 hex; the two screens before it are blank.
fn lands(stdout: Stdout, block: &mut [u8; parts::BLOCK]) {
    played(
        stdout,
        &[0x59, 0, 0, 0, 0, 0, 0, 0, 0, 0, 0, 0, 0, 0, 0, 0],
        block,
    );
    let page = two(0, 0x34, 0x12);
    let mut screen = [0u8; parts::CAPTURE_BYTES];
    show(stdout, &screen, block, parts::SYSTEM);
    show(stdout, &screen, block, parts::SYSTEM);
    let _ = pages::page_screen(&page, &mut screen);
    show(stdout, &screen, block, parts::SYSTEM);
}
