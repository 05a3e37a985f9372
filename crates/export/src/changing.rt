// The calls that change a block, and the check of a saved one (the crate `unit`).
ghost use Rattle.std.specs.Prelude.{◌≡◌};
ghost use Rattle.unit.specs.Calls.{write_answer, write_block, write_command, screen_answer, screen_block, fresh_answer, new_block, post_boot_block};
ghost use Rattle.unit.specs.Plays.{play_answer, play_block, play_command};
ghost use Rattle.view.specs.Refusal.{refusal_of};
ghost use Rattle.export_answers.specs.Coded.{coded, optional, run};

#[unsafe(no_mangle)]
pub extern "C" fn sporedrift_new(block: &mut [u8]) -> u32
    ensures value { result ≡ fresh_answer block.old }
    ensures block_after { block.new ≡ new_block block.old }
{
    export_answers::coded(unit::new(block))
}

#[unsafe(no_mangle)]
pub extern "C" fn sporedrift_post_boot(block: &mut [u8]) -> u32
    ensures value { result ≡ fresh_answer block.old }
    ensures block_after { block.new ≡ post_boot_block block.old }
{
    export_answers::coded(unit::post_boot(block))
}

#[unsafe(no_mangle)]
pub extern "C" fn sporedrift_check(block: &[u8]) -> u32
    ensures { result ≡ refusal_of block.now }
{
    export_answers::coded(unit::check(block))
}

#[unsafe(no_mangle)]
pub extern "C" fn sporedrift_write_joypad(block: &mut [u8], value: u8, command: &mut [u8]) -> u32
    ensures value { result ≡ coded optional (write_answer block.old value command.old) }
    ensures block_after { block.new ≡ write_block block.old value command.old }
    ensures command_after { command.new ≡ write_command block.old value command.old }
{
    export_answers::coded(unit::write_joypad(block, value, command))
}

#[unsafe(no_mangle)]
pub extern "C" fn sporedrift_play(block: &mut [u8], writes: &[u8], command: &mut [u8]) -> u32
    ensures value { result ≡ coded run (play_answer block.old writes.now command.old) }
    ensures block_after { block.new ≡ play_block block.old writes.now command.old }
    ensures command_after { command.new ≡ play_command block.old writes.now command.old }
{
    export_answers::coded(unit::play(block, writes, command))
}

#[unsafe(no_mangle)]
pub extern "C" fn sporedrift_update_screen(block: &mut [u8], screen: &[u8]) -> u32
    ensures value { result ≡ coded optional (screen_answer block.old screen.now) }
    ensures block_after { block.new ≡ screen_block block.old screen.now }
{
    export_answers::coded(unit::update_screen(block, screen))
}
