// The public calls that change a block: a joypad write, writes in a row, a screen, and the fresh blocks; and the check of a saved one.
// Rust: `write_joypad`, `update_screen`, `new`, `post_boot`. None asks anything of its caller, and a refusal changes no lent byte.
// The meaning is in specs/Calls. The workers below them (the crates `block_..`) require a valid block and leave one, so that a long run checks once.
#![tactic(auto)]

ghost use Rattle.std.specs.Prelude.{◌≡◌};
ghost use Rattle.refusal.specs.Codes.{told_by, code_or_0};
ghost use Rattle.view.specs.Refusal.{refusal_of};
ghost use Rattle.unit.specs.Calls.{with_room, write_answer, write_block, write_command, screen_answer, screen_block, fresh_answer, new_block, post_boot_block};
ghost use Rattle.unit.specs.Plays.{play_answer, play_block, play_command};
ghost use Rattle.unit.specs.Answers.{written_told, played_told, shown_told};

use refusal::Refusal;
use transfer::pending::Transfer;

// What writes in a row answer: how many were taken, and the packets of the command that the last of them completed, if it did.
#[derive(Clone, Copy, Debug, PartialEq, Eq)]
pub struct Played {
    pub writes: usize,
    pub packets: Option<u8>,
}

// The most writes that one call of `play` takes. The caller hands over the rest in the next.
pub const PLAY_MOST: usize = 1048576;

// A write to the joypad register: the packets of a command that stands at the front of the buffer, if the write completes one.
pub fn write_joypad(block: &mut [u8], value: u8, command: &mut [u8]) -> Result<Option<u8>, Refusal>
    ensures result_value { written_told result ≡ write_answer block.old value command.old }
    ensures block_after { block.new ≡ write_block block.old value command.old }
    ensures command_after { command.new ≡ write_command block.old value command.old }
{
    check_with_room(block, command)?;
    Ok(block_writes::write(block, value, command))
}

// Writes in a row, up to and with the first that completes a command. Of more than PLAY_MOST only so many are taken.
pub fn play(block: &mut [u8], writes: &[u8], command: &mut [u8]) -> Result<Played, Refusal>
    ensures result_value { played_told result ≡ play_answer block.old writes.now command.old }
    ensures block_after { block.new ≡ play_block block.old writes.now command.old }
    ensures command_after { command.new ≡ play_command block.old writes.now command.old }
{
    check_with_room(block, command)?;
    let most = writes.len().min(PLAY_MOST);
    let p = block_writes::play(block, &writes[..most], command);
    Ok(Played {
        writes: p.at,
        packets: p.packets,
    })
}

// The block's own refusals, and then room for the longest command.
fn check_with_room(block: &[u8], command: &[u8]) -> Result<(), Refusal>
    ensures { told_by (λ u. u) result ≡ with_room block.now command.now tt }
{
    check(block)?;
    if command.len() < parts::STORE_BYTES {
        return Err(Refusal::Output);
    }
    Ok(())
}

// A screen: it becomes the live capture, and a transfer that is due lands. The answer is what landed.
pub fn update_screen(block: &mut [u8], screen: &[u8]) -> Result<Option<Transfer>, Refusal>
    ensures result_value { shown_told result ≡ screen_answer block.old screen.now }
    ensures block_after { block.new ≡ screen_block block.old screen.now }
{
    view::check(block)?;
    if screen.len() != parts::CAPTURE_BYTES {
        return Err(Refusal::Screen);
    }
    Ok(block_screen::show(block, screen))
}

// The fresh blocks refuse a block of another length, and ask nothing else of what it held.
// Stays: `new` and `post_boot` are two public calls, also for C, and differ in the worker that they ask.
pub fn new(block: &mut [u8]) -> Result<(), Refusal>
    ensures value { code_or_0 result ≡ fresh_answer block.old }
    ensures block_after { block.new ≡ new_block block.old }
{
    if block.len() != parts::BLOCK {
        return Err(Refusal::Length);
    }
    block_fresh::new(block);
    Ok(())
}

pub fn post_boot(block: &mut [u8]) -> Result<(), Refusal>
    ensures value { code_or_0 result ≡ fresh_answer block.old }
    ensures block_after { block.new ≡ post_boot_block block.old }
{
    if block.len() != parts::BLOCK {
        return Err(Refusal::Length);
    }
    block_fresh::post_boot(block);
    Ok(())
}

// A saved block: refused for another length, or for the first of V1 to V6 that it breaks, with the byte that breaks it.
pub fn check(block: &[u8]) -> Result<(), Refusal>
    ensures { code_or_0 result ≡ refusal_of block.now }
{
    view::check(block)
}
