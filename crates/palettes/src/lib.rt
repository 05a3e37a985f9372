// PAL01, PAL23, PAL03, PAL12 and PAL_SET on the 32 bytes of the four palettes.
// RULES 4.3 and 4.4; Pan Docs, Palettes. A colour stays the two bytes that the game sent: nothing here looks into it.
#![tactic(auto)]

ghost use Rattle.std.specs.Prelude.{◌≡◌, ◌+◌, ◌*◌, ◌≤◌, ◌<◌, length};
ghost use Rattle.parts.specs.Parts.{palettes_bytes, system_bytes};
ghost use Rattle.palettes.specs.Palettes.{shared, pal_pair, system_number, pal_set};

// Palettes a and b get their own colours, and all four share colour 0.
pub fn pal_pair(palettes: &mut [u8], a: usize, b: usize, d: &[u8])
    requires { (length palettes.old ≡ palettes_bytes) × (16 ≤ length d.now) × (a < 4) × (b < 4) }
    ensures { palettes.new ≡ pal_pair a b d.now palettes.old }
{
    share(palettes, d);
    bits::put(palettes, 8 * a + 2, &d[3..9]);
    bits::put(palettes, 8 * b + 2, &d[9..15]);
}

// Colour 0, word d1, into each of the four.
fn share(palettes: &mut [u8], d: &[u8])
    requires { (length palettes.old ≡ palettes_bytes) × (16 ≤ length d.now) }
    ensures { palettes.new ≡ shared d.now palettes.old }
{
    let colour = &d[1..3];
    bits::put(palettes, 0, colour);
    bits::put(palettes, 8, colour);
    bits::put(palettes, 16, colour);
    bits::put(palettes, 24, colour);
}

// The four palettes become system palettes, eight bytes at a time; what they held is gone.
pub fn pal_set(palettes: &mut [u8], system: &[u8], d: &[u8])
    requires { (length palettes.old ≡ palettes_bytes) × (length system.now ≡ system_bytes) × (16 ≤ length d.now) }
    ensures { palettes.new ≡ pal_set d.now system.now }
{
    for i in 0..4 {
        let at = 8 * system_number(d, i);
        bits::put(palettes, 8 * i, &system[at..at + 8]);
    }
}

// The system palette for palette i: a number has nine bits.
fn system_number(d: &[u8], i: usize) -> usize
    requires { (16 ≤ length d.now) × (i < 4) }
    ensures { (result ≡ system_number d.now i) × (result < 512) }
{
    let at = 1 + 2 * i;
    usize::from(bits::word(d[at], d[at + 1]) & 0x1FF)
}
