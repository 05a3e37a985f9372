// The two lines of the joypad register, and the joypad index that P15 steps. RULES 3.1 and 3.2. The meaning is in specs/Lines.
ghost use Rattle.std.specs.Prelude.{◌≡◌, ◌<◌};
ghost use Rattle.receiver.specs.Lines.{p15_high, both_high, indexed};

pub fn p15_high(value: u8) -> bool
    ensures { result ≡ p15_high value }
{
    value & 0x20 != 0
}

pub fn both_high(value: u8) -> bool
    ensures { result ≡ both_high value }
{
    value & 0x30 == 0x30
}

// The joypad index after a write: it steps as P15 rises, packet traffic included. `was` is whether P15 was high before.
pub fn index_after(index: u8, mask: u8, was: bool, value: u8) -> u8
    requires { index < 255 }
    ensures { result ≡ indexed index mask was value }
{
    if value & 0x20 == 0 || was {
        index
    } else {
        (index + 1) & mask
    }
}
