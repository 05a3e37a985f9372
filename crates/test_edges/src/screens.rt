// Screens: the third one after a transfer command lands (RULES 10.2).

use crate::replays::command;
use std::io::Stdout;
use test_text::sent::show;

// CHR_TRN to the upper half, and three screens whose first eight pixels have the shades 0 to 3, twice: planes 55 and 33, which the
// upper half of the tiles then starts with.
pub fn examples(stdout: Stdout, block: &mut [u8; parts::BLOCK]) {
    command(
        stdout,
        &[0x99, 0x01, 0, 0, 0, 0, 0, 0, 0, 0, 0, 0, 0, 0, 0, 0],
        block,
    );
    let mut screen = [0u8; parts::CAPTURE_BYTES];
    screen[0] = 0x1B;
    screen[1] = 0x1B;
    show(stdout, &screen, block, parts::UPPER_TILES);
    show(stdout, &screen, block, parts::UPPER_TILES);
    show(stdout, &screen, block, parts::UPPER_TILES);
}
