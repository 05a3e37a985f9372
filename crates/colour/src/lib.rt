// Colour words and map words (RULES 6.8 and 6.1): both have sixteen bits, and their types keep them apart, so that no map word gets
// painted. Carried over: `Rgb555`, `GAMMA_RAMP`, `BorderMapEntry`.
#![tactic(auto)]

ghost use Rattle.std.specs.Prelude.{◌≡◌, ◌<◌};
ghost use Rattle.bits.specs.Word.{word};
ghost use Rattle.colour.specs.Colour.{ramp, rgb8};
ghost use Rattle.colour.specs.Entry.{tile_of, palette_of, flip_x, flip_y};

// A 15-bit colour of the SNES, as a palette holds it.
#[derive(Clone, Copy, Debug, PartialEq, Eq)]
pub struct Rgb555(pub u16);

// The same colour at eight bits a channel, as a screen shows it.
#[derive(Clone, Copy, Debug, PartialEq, Eq)]
pub struct Rgb8 {
    pub r: u8,
    pub g: u8,
    pub b: u8,
}

// The brightness of each five-bit level on a television of the time, darker than a straight line.
const GAMMA_RAMP: [u8; 32] = [
    0, 2, 5, 9, 15, 20, 27, 34, 42, 50, 58, 67, 76, 85, 94, 104, 114, 123, 133, 143, 153, 163, 173,
    182, 192, 202, 211, 220, 229, 238, 247, 255,
];

impl Rgb555 {
    // Stays: `to_rgb8` and `from_bytes` are public calls by these names, the first also for C.
    pub fn to_rgb8(self) -> Rgb8
        ensures { result ≡ rgb8 self.0 }
    {
        let w = self.0;
        Rgb8 {
            r: brightness(w & 0x1F),
            g: brightness(w >> 5 & 0x1F),
            b: brightness(w >> 10 & 0x1F),
        }
    }

    pub fn from_bytes(low: u8, high: u8) -> Self
        ensures { result.0 ≡ word low high }
    {
        Rgb555(bits::word(low, high))
    }
}

// The ramp at a level.
fn brightness(level: u16) -> u8
    requires { level < 32 }
    ensures { result ≡ ramp level }
{
    GAMMA_RAMP[usize::from(level)]
}

// One entry of the border's map: `VH-P PPCC CCCC CCCC`.
#[derive(Clone, Copy, Debug, PartialEq, Eq)]
pub struct BorderMapEntry(pub u16);

impl BorderMapEntry {
    pub fn tile(self) -> u16
        ensures { result ≡ tile_of self.0 }
    {
        self.0 & 0x3FF
    }

    pub fn palette(self) -> u16
        ensures { result ≡ palette_of self.0 }
    {
        self.0 >> 10 & 0x07
    }

    pub fn flip_x(self) -> bool
        ensures { result ≡ flip_x self.0 }
    {
        self.0 & 0x4000 != 0
    }

    pub fn flip_y(self) -> bool
        ensures { result ≡ flip_y self.0 }
    {
        self.0 & 0x8000 != 0
    }
}
