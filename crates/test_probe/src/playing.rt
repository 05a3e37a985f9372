// Writes in a row on a block, by the public call. (A module can't have the name of a crate that is used.)
// Answers after how many writes it ended, times 256, and the packets of the command that the last of them completed, or 0;
// a refusal as 0x80000000 and its number, with 256 times its offset where it has one.
#[unsafe(no_mangle)]
pub extern "C" fn probe_play(block: &mut [u8], writes: &[u8], command: &mut [u8]) -> usize {
    match unit::play(block, writes, command) {
        Ok(played) => played.writes << 8 | usize::from(played.packets.unwrap_or(0)),
        Err(r) => r.code() as usize | 0x80000000,
    }
}
