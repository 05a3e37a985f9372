// The attribute commands, sent to the unit as it boots, and the map that each leaves: eighteen lines of twenty palette numbers.
ghost use Rattle.std.specs.Prelude.{◌≡◌, length};
ghost use Rattle.parts.specs.Parts.{map_bytes};

use crate::replays::command;
use std::io::Stdout;
use test_text::say;

pub fn examples(stdout: Stdout, block: &mut [u8; parts::BLOCK]) {
    // ATTR_CHR, two cells from the map's last one on: the second pair falls off the map
    show(
        stdout,
        &[0x39, 19, 17, 2, 0, 0, 0xF0, 0, 0, 0, 0, 0, 0, 0, 0, 0],
        block,
    );
    // ATTR_BLK with one corner twice, set inside alone: the line follows inside, and is that cell
    show(
        stdout,
        &[0x21, 1, 1, 0x02, 3, 3, 3, 3, 0, 0, 0, 0, 0, 0, 0, 0],
        block,
    );
    // ATTR_BLK with its corners crossed, set outside alone: every cell is outside
    show(
        stdout,
        &[0x21, 1, 4, 0x10, 5, 0, 4, 17, 0, 0, 0, 0, 0, 0, 0, 0],
        block,
    );
}

fn show(stdout: Stdout, d: &[u8], block: &mut [u8; parts::BLOCK]) {
    command(stdout, d, block);
    rows(stdout, &block[parts::MAP..parts::SYSTEM]);
}

fn rows(stdout: Stdout, map: &[u8])
    requires { length map.now ≡ map_bytes }
{
    for y in 0..18 {
        row(stdout, &map[5 * y..5 * y + 5]);
    }
}

// A row's five packed bytes.
pub fn row(stdout: Stdout, packed: &[u8])
    requires { length packed.now ≡ 5 }
{
    let mut line = [b'\n'; 21];
    for (x, digit) in line[..20].iter_mut().enumerate() {
        *digit = b'0' | bits::pair(packed[x / 4], (x % 4) as u8);
    }
    say(stdout, &line);
}
