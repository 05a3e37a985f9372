// What each public call answers, as the number that crosses (specs/Coded).
#![tactic(auto)]

ghost use Rattle.std.specs.Prelude.{◌≡◌, ◌+◌, ◌*◌, ◌<◌, ◌≤◌, ℕ, IfOk, IfSome};
ghost use Rattle.refusal.specs.Codes.{told_by};
ghost use Rattle.transfer.specs.Pending.{number_of};
ghost use Rattle.unit.specs.Answers.{taken_as};
ghost use Rattle.pulses.specs.Answer.{given};
ghost use Rattle.export_answers.specs.Coded.{coded, value, or_none, truth, run, content, content_of, Fits, RunFits, ContentFits};

use colour::{BorderMapEntry, Rgb555};
use log_line::Line;
use parts::CAPTURE_BYTES;
use refusal::Refusal;
use transfer::pending::Transfer;
use unit::Played;

// Stays: none as a number, as include/sporedrift.h has it for C.
pub const NONE: u32 = 128;

// A value stands above the low byte.
pub fn value(v: u32) -> u32
    requires { v < 16777216 }
    ensures { result ≡ value v }
{
    256 * v
}

// A number and one below 8 beside it, as a value.
fn eighths(n: usize, k: u8) -> u32
    requires { (n ≤ 1048576) × (k < 8) }
    ensures { result ≡ value (8 * n + k) }
{
    value((8 * n) as u32 + u32::from(k))
}

// The refusal's own number, or what the value crosses as.
#[tactic(auto, unfolding(crate::specs::Coded::coded))]
pub fn coded<T: Crosses>(told: Result<T, Refusal>) -> u32
    requires { IfOk told (λ v. T.fits v) }
    ensures { result ≡ coded T.number (told_by (λ v. v) told) }
{
    match told {
        Ok(v) => v.cross(),
        Err(r) => r.code(),
    }
}

// A value that a public call answers. It crosses as a number if it fits.
pub trait Crosses {
    ghost fits: { Self → Type 0 };

    ghost number: { Self → ℕ };

    fn cross(self) -> u32
        requires { fits self }
        ensures { result ≡ number self };
}

// Of a call that can only be refused.
impl Crosses for () {
    ghost fits = { λ u. Unit {0} };

    ghost number = { λ u. 0 };

    fn cross(self) -> u32 {
        0
    }
}

impl Crosses for usize {
    ghost fits = { λ v. Fits (given v) };

    ghost number = { value };

    #[tactic(auto, unfolding(crate::specs::Coded::Fits))]
    fn cross(self) -> u32 {
        value(self as u32)
    }
}

impl Crosses for u8 {
    ghost fits = { λ v. Unit {0} };

    ghost number = { value };

    fn cross(self) -> u32 {
        value(u32::from(self))
    }
}

impl Crosses for bool {
    ghost fits = { λ b. Unit {0} };

    ghost number = { truth };

    #[tactic(auto, unfolding(crate::specs::Coded::truth))]
    fn cross(self) -> u32 {
        value(u32::from(self))
    }
}

impl Crosses for Rgb555 {
    ghost fits = { λ c. Unit {0} };

    ghost number = { λ c. value c.0 };

    fn cross(self) -> u32 {
        value(u32::from(self.0))
    }
}

impl Crosses for BorderMapEntry {
    ghost fits = { λ w. Unit {0} };

    ghost number = { λ w. value w.0 };

    fn cross(self) -> u32 {
        value(u32::from(self.0))
    }
}

impl Crosses for Transfer {
    ghost fits = { λ t. Unit {0} };

    ghost number = { λ t. value (number_of t) };

    fn cross(self) -> u32 {
        value(u32::from(self.number()))
    }
}

impl<T: Crosses> Crosses for Option<T> {
    ghost fits = { λ o. IfSome o (λ v. T.fits v) };

    ghost number = { or_none T.number };

    fn cross(self) -> u32 {
        match self {
            None => NONE,
            Some(v) => v.cross(),
        }
    }
}

impl Crosses for Played {
    ghost fits = { λ p. RunFits (given (taken_as p)) };

    ghost number = { λ p. run (taken_as p) };

    #[tactic(auto, unfolding(crate::specs::Coded::RunFits, crate::specs::Coded::run, crate::specs::Coded::packets_number))]
    fn cross(self) -> u32 {
        eighths(self.writes, self.packets.unwrap_or(0))
    }
}

impl Crosses for Line {
    ghost fits = { λ l. ContentFits (given (content_of l)) };

    ghost number = { λ l. content (content_of l) };

    #[tactic(auto, unfolding(crate::specs::Coded::ContentFits, crate::specs::Coded::content))]
    fn cross(self) -> u32 {
        match self {
            Line::Writes(n) => eighths(n, 1),
            Line::Screen => eighths(CAPTURE_BYTES, 2),
        }
    }
}
