// The round's screens.
use crate::digest::number;
use refusal::Refusal;
use test_seeds::screens::draw;
use test_seeds::{below, step, stream};
use transfer::pending::Transfer;

// None to three of them, so that a transfer lands in its own round, in a later one, or is replaced before it does.
pub fn show(round: usize, block: &mut [u8], h: u64) -> u64 {
    let x = stream(round, 4);
    let mut screen = [0u8; parts::CAPTURE_BYTES];
    update(below(x, 4), x, block, &mut screen, h)
}

fn update(count: usize, from: u64, block: &mut [u8], screen: &mut [u8], h: u64) -> u64 {
    let mut x = from;
    let mut d = h;
    for _ in 0..count {
        x = step(x);
        draw(screen, x);
        d = answer(d, unit::update_screen(block, screen));
    }
    d
}

// The kind that landed, 255 for none; a refusal n is 256 + n.
fn answer(h: u64, told: Result<Option<Transfer>, Refusal>) -> u64 {
    let n = match told {
        Err(n) => 256 + u64::from(n.code()),
        Ok(landed) => landed.map_or(255, |transfer| u64::from(transfer.number())),
    };
    number(h, n)
}
