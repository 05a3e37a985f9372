// Hexadecimal text: what its digits spell, and bytes spelled out. RULES 8.2 and 8.5. The meaning is in specs/Hex.
// Stays: a place beside the lent output. What a text leaves of the rest is told by `over`, which every caller's contract cites.
#![tactic(auto)]

ghost use Rattle.std.specs.Prelude.{◌≡◌, true, ◌∷◌, [], ◌+◌, ◌*◌, ◌≤◌, ◌<◌, length};
ghost use Rattle.bits.specs.Over.{over};
ghost use Rattle.hex_digits.specs.Hex.{nibble, spells, spelled, capital, hex_text};

// The value of a digit of either case, or 16. Every byte of a log passes here, so the tests are such as become selections, and no branch
// follows the digits: a line is read in half the time of the plain ranges.
// Stays: a number, not an `Option`. `spells` joins the values of a whole text by `|`, and its contract states the value of `nibble`.
pub fn digit(b: u8) -> u8
    ensures { result ≡ nibble b }
{
    let number = b ^ 0x30;
    if number < 10 {
        return number;
    }
    let letter = (b | 0x20) ^ 0x60;
    if letter == 0 {
        return 16;
    }
    if letter < 7 {
        return letter + 9;
    }
    16
}

// The digit of a value, in upper case.
pub fn capital(d: u8) -> u8
    requires { d < 16 }
    ensures { result ≡ capital d }
{
    if d < 10 { 48 + d } else { 55 + d }
}

// Whether a text spells bytes: digits alone, an even number of them. There is no way out before the end, so that many are looked at at
// once.
pub fn spells(text: &[u8]) -> bool
    ensures { result ≡ spells text.now }
{
    if text.len() % 2 == 1 {
        return false;
    }
    let mut all: u8 = 0;
    for b in text {
        all |= digit(*b);
    }
    all < 16
}

// The bytes that a text spells, at the front of `bytes`. Not inlined: where a caller lends both from one struct, the loop would else be no
// vector code.
#[inline(never)]
pub fn decode(text: &[u8], bytes: &mut [u8])
    requires text_value { spells text.now ≡ true }
    requires text_len_bound { length text.now ≤ 2 * length bytes.old }
    ensures { bytes.new ≡ over 0 (length (spelled text.now)) (spelled text.now) bytes.old }
{
    let n = text.len() / 2;
    for i in 0..n {
        bytes[i] = two_digits(text[2 * i], text[2 * i + 1]);
    }
}

// The byte that two digits spell. A digit's low half is its value, to which a letter, which has bit 6, adds 9. Both go in one word, which
// is then one load: in half the time of a digit by itself.
pub fn two_digits(high: u8, low: u8) -> u8
    requires { (nibble high < 16) × (nibble low < 16) }
    ensures { result ≡ nibble high * 16 + nibble low }
{
    let both = bits::word(high, low);
    let values = (both & 0x0F0F) + (both >> 6 & 0x0101) * 9;
    ((values << 4 | values >> 8) & 0xFF) as u8
}

// All of src in upper-case digits, from `at` on.
pub fn spell(src: &[u8], out: &mut [u8], at: usize)
    requires { at + 2 * length src.now ≤ length out.old }
    ensures { out.new ≡ over at (2 * length src.now) (hex_text src.now) out.old }
{
    for (i, b) in src.iter().enumerate() {
        spell_byte(*b, out, at + 2 * i);
    }
}

// One byte's two digits.
pub fn spell_byte(b: u8, out: &mut [u8], at: usize)
    requires { at + 2 ≤ length out.old }
    ensures { out.new ≡ over at 2 (hex_text (b ∷ [])) out.old }
{
    out[at] = capital(b >> 4);
    out[at + 1] = capital(b & 15);
}
