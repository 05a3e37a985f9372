// The public calls that change a block, and the check of a saved one; their answers as numbers.
use super::drawing::landed_kind;
use refusal::Refusal;

// What a call answers, its value as a number. A refusal is 0x80000000 and its own number, with 256 times its offset where it has one.
pub fn number<T, F: FnOnce(T) -> u32>(told: Result<T, Refusal>, value: F) -> u32
    requires { F.IsAlwaysCallable value }
{
    match told {
        Ok(v) => value(v),
        Err(r) => r.code() | 0x80000000,
    }
}

// Of a count, of which none needs more bits than these.
pub fn count(n: usize) -> u32 {
    (n & 0xFFFFFFFF) as u32
}

// The refusal as it is, or 0.
pub fn refusal(told: Result<(), Refusal>) -> u32 {
    told.map_or_else(|r| r.code(), |()| 0)
}

// 0 for nothing, else the packets of the command that is complete.
#[unsafe(no_mangle)]
pub extern "C" fn probe_write_joypad(block: &mut [u8], value: u8, command: &mut [u8]) -> u32 {
    number(unit::write_joypad(block, value, command), |n| {
        u32::from(n.unwrap_or(0))
    })
}

// 255 if nothing landed, else the number of the kind that did.
#[unsafe(no_mangle)]
pub extern "C" fn probe_update_screen(block: &mut [u8], screen: &[u8]) -> u32 {
    number(unit::update_screen(block, screen), |landed| {
        u32::from(landed_kind(landed))
    })
}

#[unsafe(no_mangle)]
pub extern "C" fn probe_check(block: &[u8]) -> u32 {
    refusal(unit::check(block))
}

#[unsafe(no_mangle)]
pub extern "C" fn probe_new(block: &mut [u8]) -> u32 {
    refusal(unit::new(block))
}

#[unsafe(no_mangle)]
pub extern "C" fn probe_post_boot(block: &mut [u8]) -> u32 {
    refusal(unit::post_boot(block))
}
