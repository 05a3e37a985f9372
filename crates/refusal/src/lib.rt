// A refusal, as every call over a block tells it, and the one number as which it crosses to C (RULES 2.1).
#![tactic(auto)]

ghost use Rattle.std.specs.Prelude.{◌≡◌, ◌/◌, ◌%◌};
ghost use Rattle.refusal.specs.Codes.{rule_number, code_of};

// A rule of a valid block.
#[derive(Clone, Copy, Debug, PartialEq, Eq)]
pub enum Rule {
    V1,
    V2,
    V3,
    V4,
    V5,
    V6,
}

// Why a call is refused: a lent block, screen, output or page of another length than is asked for; a place or a shade that isn't there; bytes
// that are no command; a line that is none of a log; a span or a cell of a state; or the first rule that a block breaks, with the lowest byte
// that breaks it.
#[derive(Clone, Copy, Debug, PartialEq, Eq)]
pub enum Refusal {
    Length,
    Screen,
    Place,
    Command,
    Output,
    Line,
    Span,
    Cell,
    Page,
    Broken(Rule, u16),
}

impl Rule {
    // Stays: its contract says which number, where a conversion by `From` says it by a ghost member alone.
    fn number(self) -> u8
        ensures { result ≡ rule_number self }
    {
        match self {
            Rule::V1 => 21,
            Rule::V2 => 22,
            Rule::V3 => 23,
            Rule::V4 => 24,
            Rule::V5 => 25,
            Rule::V6 => 26,
        }
    }
}

impl Refusal {
    // Both as one number: the refusal's own is the low byte, and the offset stands above it.
    pub fn code(self) -> u32
        ensures { result ≡ code_of self }
    {
        u32::from(self.number()) + 256 * self.offset() as u32
    }

    // Stays: `number` and `offset` are public calls by these names.
    pub fn number(self) -> u8
        ensures { result ≡ code_of self % 256 }
    {
        match self {
            Refusal::Length => 1,
            Refusal::Screen => 3,
            Refusal::Place => 4,
            Refusal::Command => 5,
            Refusal::Output => 6,
            Refusal::Line => 7,
            Refusal::Span => 8,
            Refusal::Cell => 9,
            Refusal::Page => 10,
            Refusal::Broken(rule, _) => rule.number(),
        }
    }

    // The byte of the block that breaks a rule; 0 for every other.
    pub fn offset(self) -> usize
        ensures { result ≡ code_of self / 256 }
    {
        match self {
            Refusal::Broken(_, at) => usize::from(at),
            _ => 0,
        }
    }

    // The number in a code, for whoever holds the code alone, as C does: of any code, also of one that no refusal has.
    pub fn number_in(code: u32) -> u8
        ensures { result ≡ code % 256 }
    {
        (code & 0xFF) as u8
    }

    // What stands above the number in a code, likewise of any.
    pub fn offset_in(code: u32) -> usize
        ensures { result ≡ code / 256 }
    {
        (code >> 8) as usize
    }
}
