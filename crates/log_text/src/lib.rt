// The lines that the programs print, a command, a number, a refused line, a row of the picture; and a number in decimal. RULES 8.5 to 8.8.
// Nothing here writes to anywhere but the lent text; the meaning is in specs/Text.
// Stays: a place beside the lent output. What a text leaves of the rest is told by `over`, which every caller's contract cites.
#![tactic(auto)]

ghost use Rattle.std.specs.Prelude.{◌≡◌, ◌+◌, ◌*◌, ◌≤◌, length};
ghost use Rattle.bits.specs.Over.{over};
ghost use Rattle.log_text.specs.Text.{hex_line, decimal_text, number_line, refusal_text, word_text, row_line};

use bits::{high_byte, low_byte, put};
use hex_digits::{spell, spell_byte};

// Bytes in upper-case hexadecimal, and LF, from `at` on. Answers the text's length.
// Stays: a call for each kind of line. They share `decimal` and `spell`; each contract names its own definition of the text.
pub fn command_line(command: &[u8], out: &mut [u8], at: usize) -> usize
    requires { at + 2 * length command.now + 1 ≤ length out.old }
    ensures value { result ≡ length (hex_line command.now) }
    ensures out_after { out.new ≡ over at (length (hex_line command.now)) (hex_line command.now) out.old }
{
    let n = 2 * command.len();
    spell(command, out, at);
    out[at + n] = 10;
    n + 1
}

// A number in decimal, from `at` on. Answers how many digits it has.
pub fn decimal(number: u64, out: &mut [u8], at: usize) -> usize
    requires { at + 20 ≤ length out.old }
    ensures value { result ≡ length (decimal_text number) }
    ensures upper_bound { result ≤ 20 }
    ensures out_after { out.new ≡ over at (length (decimal_text number)) (decimal_text number) out.old }
{
    let mut digits = [0u8; 20];
    let k = io::decimal(number, &mut digits);
    put(out, at, &digits[0..k]);
    k
}

// A number in decimal, and LF, from `at` on. Answers the text's length.
pub fn number_line(number: u64, out: &mut [u8], at: usize) -> usize
    requires { at + 21 ≤ length out.old }
    ensures value { result ≡ length (number_line number) }
    ensures upper_bound { result ≤ 21 }
    ensures out_after { out.new ≡ over at (length (number_line number)) (number_line number) out.old }
{
    let k = decimal(number, out, at);
    out[at + k] = 10;
    k + 1
}

// `line N: 7` and LF, from `at` on. Answers the text's length.
pub fn refusal_line(number: u64, out: &mut [u8], at: usize) -> usize
    requires { at + 29 ≤ length out.old }
    ensures value { result ≡ length (refusal_text number) }
    ensures upper_bound { result ≤ 29 }
    ensures out_after { out.new ≡ over at (length (refusal_text number)) (refusal_text number) out.old }
{
    put(out, at, b"line ");
    let n = decimal(number, out, at + 5);
    put(out, at + 5 + n, b": 7\n");
    n + 9
}

// A row of the picture, at the front: 256 words with nothing between, and LF.
pub fn row_line(words: &[u16], out: &mut [u8])
    requires words_len { length words.now ≡ 256 }
    requires in_bounds { 1025 ≤ length out.old }
    ensures { out.new ≡ over 0 (length (row_line words.now)) (row_line words.now) out.old }
{
    for (i, word) in words.iter().enumerate() {
        spell_word(*word, out, 4 * i);
    }
    out[1024] = 10;
}

// One word's four digits.
fn spell_word(w: u16, out: &mut [u8], at: usize)
    requires { at + 4 ≤ length out.old }
    ensures { out.new ≡ over at 4 (word_text w) out.old }
{
    spell_byte(high_byte(w), out, at);
    spell_byte(low_byte(w), out, at + 2);
}
