// A screen: flat, noise, or noise whose page has a border map that mostly draws.
use crate::{byte, step};

pub fn draw(screen: &mut [u8], from: u64) {
    let flat = byte(from);
    let mut x = from;
    for (i, four) in screen.iter_mut().enumerate() {
        x = step(x);
        *four = pixels(flat, byte(x), i % 2 == 0);
    }
}

// Four pixels, by the manner of the screen. Two bytes are a row of a tile: with pixel 3 high and 6 and 7 low in the high plane the
// row's word, taken as a map word, has a tile that is there and a palette from 4 on.
fn pixels(flat: u8, noise: u8, high: bool) -> u8 {
    match flat {
        0..64 => flat,
        64..128 => noise,
        _ if high => noise | 0x02,
        _ => noise & 0xF5,
    }
}
