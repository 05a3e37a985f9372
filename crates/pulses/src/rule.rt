// The rule of the verdict. RULES 7.2. The meaning is in specs/Verdict.
ghost use Rattle.std.specs.Prelude.{◌≡◌, ◌≤◌, ◌<◌, length};
ghost use Rattle.pulses.specs.Bytes.{packets_in};
ghost use Rattle.pulses.specs.Verdict.{most_packets, announces, announced, most_items, bytes_for, brings, one_to, conforms};

use bits::word;

const ATTR_BLK: u8 = 0x04;

const ATTR_LIN: u8 = 0x05;

const ATTR_CHR: u8 = 0x07;

const LAST_CODE: u8 = 0x19;

// Whether a command of n packets conforms.
pub fn conforms(command: &[u8], n: usize) -> bool
    requires { (16 ≤ length command.now) × ((n < 8) × (n ≡ packets_in command.now)) }
    ensures { result ≡ conforms command.now }
{
    let code = command[0] >> 3;
    code <= LAST_CODE
        && n <= most_packets(code)
        && (!announces(code) || brings(code, n, announced(code, command)))
}

// How many packets a command of this code may have.
#[tactic(auto, unfolding(crate::specs::Verdict::most_packets))]
pub fn most_packets(code: u8) -> usize
    ensures { result ≡ most_packets code }
{
    match code {
        ATTR_BLK | ATTR_LIN => 7,
        ATTR_CHR => 6,
        _ => 1,
    }
}

// Whether a command of this code announces how many items it brings: sets, lines or cells.
#[tactic(auto, unfolding(crate::specs::Verdict::announces))]
pub fn announces(code: u8) -> bool
    ensures { result ≡ announces code }
{
    matches!(code, ATTR_BLK | ATTR_LIN | ATTR_CHR)
}

// How many items it announces.
#[tactic(auto, unfolding(crate::specs::Verdict::announced, bits::specs::Word::word_at))]
pub fn announced(code: u8, command: &[u8]) -> usize
    requires { 16 ≤ length command.now }
    ensures { result ≡ announced code command.now }
{
    match code {
        ATTR_CHR => usize::from(word(command[3], command[4])),
        _ => usize::from(command[1]),
    }
}

// Whether this number of items may be announced, and these packets hold them all.
pub fn brings(code: u8, packets: usize, items: usize) -> bool
    requires { packets < 8 }
    ensures { result ≡ brings code packets items }
{
    one_to(items, most_items(code)) && bytes_for(code, items) <= 16 * packets
}

// How many items there may be: as many sets or lines as seven packets hold, as many cells as the map has.
#[tactic(auto, unfolding(crate::specs::Verdict::most_items))]
pub fn most_items(code: u8) -> usize
    ensures { result ≡ most_items code }
{
    match code {
        ATTR_BLK => 18,
        ATTR_LIN => 110,
        _ => 360,
    }
}

// Where the last of so many items ends: six bytes a set and one a line behind the first two, four cells a byte behind the first six.
#[tactic(auto, unfolding(crate::specs::Verdict::bytes_for))]
pub fn bytes_for(code: u8, items: usize) -> usize
    requires { items ≤ 360 }
    ensures { result ≡ bytes_for code items }
{
    match code {
        ATTR_BLK => 2 + 6 * items,
        ATTR_LIN => 2 + items,
        _ => 6 + (items + 3 >> 2),
    }
}

// Whether n is from 1 to `most`.
pub fn one_to(n: usize, most: usize) -> bool
    ensures { result ≡ one_to most n }
{
    1 <= n && n <= most
}
