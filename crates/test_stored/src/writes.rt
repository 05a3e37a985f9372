// The round's writes, one by one.
use crate::digest::{all, number};
use refusal::Refusal;

// The digest of all that the round's writes tell.
pub fn write(round: usize, first: u8, block: &mut [u8], h: u64) -> u64 {
    let mut sent = [0u8; parts::STORE_BYTES];
    let mut writes = [0u8; 1916];
    let n = test_seeds::writes::plan(round, first, &mut sent, &mut writes);
    let mut command = [0u8; parts::STORE_BYTES];
    send(block, &writes[0..n], &mut command, h)
}

fn send(block: &mut [u8], writes: &[u8], command: &mut [u8], h: u64) -> u64 {
    let mut d = h;
    for write in writes {
        let told = unit::write_joypad(block, *write, command);
        d = answer(d, told, command);
    }
    d
}

// Nothing is 0, a refusal n 256 + n; a command is its packets and the whole buffer, of which the tail is kept.
fn answer(h: u64, told: Result<Option<u8>, Refusal>, command: &[u8]) -> u64 {
    match told {
        Err(n) => number(h, 256 + u64::from(n.code())),
        Ok(None) => number(h, 0),
        Ok(Some(n)) => all(number(h, u64::from(n)), command),
    }
}
