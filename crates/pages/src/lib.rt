// The screen that carries a page: what a game must draw so that 4,096 bytes land. RULES 5.6. The Rust has no such call; its
// `screen_to_transfer_data` goes the other way.
// The meaning is in specs/Pixels; that the page of that screen is the page, and the other way round, in proofs/Pages.
#![tactic(auto)]

ghost use Rattle.std.specs.Prelude.{◌≡◌, ◌+◌, ◌*◌, ◌/◌, ◌<◌, ◌≤◌, length};
ghost use Rattle.parts.specs.Parts.{capture_bytes};
ghost use Rattle.bits.specs.Paint.{Painted};
ghost use Rattle.transfer.specs.Page.{page_bytes};
ghost use Rattle.view.specs.Answers.{number_told};
ghost use Rattle.pages.specs.Pixels.{screen_of, page_screen_answer, page_screen_left};
ghost use Rattle.pages.specs.Passes.{reached, fours_in, four_byte, row_byte, rows_of, packed_byte};

use refusal::Refusal;
use transfer::page::PAGE_BYTES;

// The bytes of the 104 rows of pixels that a page reaches.
const REACHED: usize = 104 * 40;

// The screen of a page, at the front of `screen`: 5,760 bytes.
pub fn page_screen(page: &[u8], screen: &mut [u8]) -> Result<usize, Refusal>
    ensures result_value { number_told result ≡ page_screen_answer page.now screen.old }
    ensures screen_after { screen.new ≡ page_screen_left page.now screen.old }
{
    if page.len() != PAGE_BYTES {
        return Err(Refusal::Page);
    }
    if screen.len() < parts::CAPTURE_BYTES {
        return Err(Refusal::Output);
    }
    draw(page, &mut screen[..parts::CAPTURE_BYTES]);
    Ok(parts::CAPTURE_BYTES)
}

// Every byte of the screen, in two passes over it, so that nothing is held beside it. The second has no order to follow, and goes many bytes at a
// time in vector code.
pub fn draw(page: &[u8], screen: &mut [u8])
    requires { (length page.now ≡ page_bytes) × (length screen.old ≡ capture_bytes) }
    ensures { screen.new ≡ screen_of page.now }
{
    lay(page, screen);
    pack(screen);
}

// The plane bytes of each row of pixels, side by side, and nothing beneath the thirteen rows of tiles that a page reaches.
fn lay(page: &[u8], screen: &mut [u8])
    requires { (length page.now ≡ page_bytes) × (length screen.old ≡ capture_bytes) }
    ensures { screen.new ≡ rows_of page.now }
{
    for y in 0..104 {
        lay_row(page, screen, y);
    }
    blank(screen, REACHED, parts::CAPTURE_BYTES - REACHED);
}

// Row y: of the tiles that a page fills, and nothing in the others.
fn lay_row(page: &[u8], screen: &mut [u8], y: usize)
    requires page_len { (length page.now ≡ page_bytes) × (length screen.old ≡ capture_bytes) }
    requires y_bound { y < 104 }
    ensures { Painted screen.new screen.old (y * 40) 40 (row_byte page.now y) }
{
    let f = fours_in(y);
    lay_fours(page, screen, y, f);
    blank(screen, y * 40 + 8 * f, 40 - 8 * f);
}

// A page fills twenty tiles of a row, and of the last row of tiles sixteen: so many times four.
fn fours_in(y: usize) -> usize
    ensures { result ≡ fours_in y }
{
    if y < 96 { 5 } else { 4 }
}

// The first 4 f tiles of row y: a tile's rows stand two bytes apart in the page, and its next tile sixteen.
fn lay_fours(page: &[u8], screen: &mut [u8], y: usize, f: usize)
    requires page_len { (length page.now ≡ page_bytes) × (length screen.old ≡ capture_bytes) }
    requires y_bound { (y < 104) × ((f ≤ 5) × (y / 8 * 20 + 4 * f ≤ 256)) }
    ensures { Painted screen.new screen.old (y * 40) (8 * f) (row_byte page.now y) }
{
    let from = y / 8 * 320 + y % 8 * 2;
    let to = y * 40;
    for g in 0..f {
        lay_four(page, screen, from + g * 64, to + 8 * g);
    }
}

// A row of four tiles, from o on in the page and from i on in the screen. Both bytes are read before either is written, and there are always
// four: so that each two go as one.
fn lay_four(page: &[u8], screen: &mut [u8], o: usize, i: usize)
    requires o_in_bounds { (o + 50 ≤ length page.now) × (i + 8 ≤ length screen.old) }
    requires page_len { (length page.now ≡ page_bytes) × (length screen.old ≡ capture_bytes) }
    ensures { Painted screen.new screen.old i 8 (four_byte page.now o) }
{
    for c in 0..4 {
        let a = o + c * 16;
        let low = page[a];
        let high = page[a + 1];
        let b = i + 2 * c;
        screen[b] = low;
        screen[b + 1] = high;
    }
}

// Shade 0 in n bytes from `at` on.
// Stays: a place beside the lent screen, as `Painted` tells what is left of the rest.
fn blank(screen: &mut [u8], at: usize, n: usize)
    requires { at + n ≤ length screen.old }
    ensures { Painted screen.new screen.old at n (λ i. 0) }
{
    bits::clear(&mut screen[at..at + n]);
}

// Where two bytes are the planes of eight pixels, those pixels packed. What a page doesn't reach is 0 either way.
fn pack(screen: &mut [u8])
    requires { length screen.old ≡ capture_bytes }
    ensures { Painted screen.new screen.old 0 reached (packed_byte screen.old) }
{
    for k in 0..2080 {
        let i = 2 * k;
        let low = screen[i];
        let high = screen[i + 1];
        screen[i] = bits::left_four(low, high);
        screen[i + 1] = bits::right_four(low, high);
    }
}
