// The screen that is shown and the colours of its pixels (RULES 5.5, 6.4 and 6.5).
// Rust: `displayed_screen`, `render_data`, `SgbRenderData::backdrop` and `color_at`.
#![tactic(auto)]

ghost use Rattle.std.specs.Prelude.{◌≡◌, ◌<◌, ◌/◌, length};
ghost use Rattle.parts.specs.Parts.{preset_bytes, palettes_bytes, map_bytes};
ghost use Rattle.screen.specs.Packed.{pair_at};
ghost use Rattle.screen.specs.Displayed.{displayed};
ghost use Rattle.screen.specs.Colours.{palette_colour, backdrop_of, shaded_of, masked_of, colour_at};

use colour::Rgb555;

// The live capture or the frozen one, whole and not copied.
// The part is empty if one of them doesn't have 5,760 bytes, and only then.
// Stays: it refuses by an empty part, and takes the mode as any byte, as RULES 2.7 and the call for C have it.
#[tactic(auto, unfolding(crate::specs::Displayed::displayed))]
pub fn displayed_screen<'a>(live: &'a [u8], frozen: &'a [u8], mode: u8) -> &'a [u8]
    ensures { result.now ≡ displayed live.now frozen.now mode }
{
    if live.len() != parts::CAPTURE_BYTES || frozen.len() != parts::CAPTURE_BYTES {
        return &live[..0];
    }
    if mode == 1 { frozen } else { live }
}

// What a screen's colours come from: four palettes, and the preset, which stands for all four while it is in force.
// Stays: the flag beside the preset, as `backdrop_of` and `colour_at` take both.
#[derive(Clone, Copy)]
pub struct Colours<'a> {
    pub palettes: &'a [u8],
    pub preset: &'a [u8],
    pub in_force: bool,
    pub ghost palettes_long: { length palettes.now ≡ palettes_bytes },
    pub ghost preset_long: { length preset.now ≡ preset_bytes },
}

impl<'a> Colours<'a> {
    // A shade at column x of row y, by its cell's palette. It doesn't look at the mask.
    #[tactic(auto, unfolding(crate::specs::Colours::colour_at))]
    pub fn color_at(self, attributes: &[u8], x: usize, y: usize, shade: usize) -> Rgb555
        requires attributes_len { length attributes.now ≡ map_bytes }
        requires x_bound { (x < 160) × (y < 144) × (shade < 4) }
        ensures { result.0 ≡ colour_at self.entry.palettes.now self.entry.preset.now self.entry.in_force attributes.now x y shade }
    {
        let n = pair_at(attributes, y / 8 * 20 + x / 8);
        self.shaded(n, shade)
    }

    // A shade under palette n, as the mask mode lets it be seen.
    // Stays: the mode is the block's byte, as `masked_of` takes it.
    #[tactic(auto, unfolding(crate::specs::Colours::masked_of))]
    pub fn masked(self, mode: u8, n: usize, shade: usize) -> Rgb555
        requires { (n < 4) × (shade < 4) }
        ensures { result.0 ≡ masked_of self.entry.palettes.now self.entry.preset.now self.entry.in_force mode n shade }
    {
        match mode {
            2 => Rgb555(0),
            3 => self.backdrop(),
            _ => self.shaded(n, shade),
        }
    }

    // A shade under palette n. Shade 0 is transparent on the SNES, so every palette shows the one backdrop.
    #[tactic(auto, unfolding(crate::specs::Colours::shaded_of))]
    pub fn shaded(self, n: usize, shade: usize) -> Rgb555
        requires { (n < 4) × (shade < 4) }
        ensures { result.0 ≡ shaded_of self.entry.palettes.now self.entry.preset.now self.entry.in_force n shade }
    {
        if shade == 0 {
            return self.backdrop();
        }
        self.color(n, shade)
    }

    #[tactic(auto, unfolding(crate::specs::Colours::backdrop_of))]
    pub fn backdrop(self) -> Rgb555
        ensures { result.0 ≡ backdrop_of self.entry.palettes.now self.entry.preset.now self.entry.in_force }
    {
        self.color(0, 0)
    }

    // Colour k of palette n.
    #[tactic(auto, unfolding(crate::specs::Colours::palette_colour, bits::specs::Word::word_at))]
    fn color(self, n: usize, k: usize) -> Rgb555
        requires { (n < 4) × (k < 4) }
        ensures { result.0 ≡ palette_colour self.entry.palettes.now self.entry.preset.now self.entry.in_force n k }
    {
        if self.in_force {
            let at = k * 2;
            return Rgb555::from_bytes(self.preset[at], self.preset[at + 1]);
        }
        let at = n * 8 + k * 2;
        Rgb555::from_bytes(self.palettes[at], self.palettes[at + 1])
    }
}

// The k-th of packed numbers of two bits.
pub fn pair_at(b: &[u8], k: usize) -> usize
    requires { k / 4 < length b.now }
    ensures { (result ≡ pair_at b.now k) × (result < 4) }
{
    usize::from(bits::pair(b[k / 4], (k % 4) as u8))
}
