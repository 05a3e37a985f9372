// Eight bytes as one number, the first one lowest: half a packet of the block, and eight writes that are looked at at once.
#![tactic(auto)]

ghost use Rattle.std.specs.Prelude.{◌≡◌, ◌+◌, ◌≤◌, length};
ghost use Rattle.bits_eight.specs.Eight.{eight_at};

// The eight from `at` on. In this flat form they become one load; as a loop they were eight.
// Stays: by shifts, and no `from_le_bytes`: a rule of the project (docs/DECISIONS.md, Leaves over bytes).
pub fn eight(s: &[u8], at: usize) -> u64
    requires { at + 8 ≤ length s.now }
    ensures { result ≡ eight_at s.now at }
{
    u64::from(s[at])
        | u64::from(s[at + 1]) << 8
        | u64::from(s[at + 2]) << 16
        | u64::from(s[at + 3]) << 24
        | u64::from(s[at + 4]) << 32
        | u64::from(s[at + 5]) << 40
        | u64::from(s[at + 6]) << 48
        | u64::from(s[at + 7]) << 56
}
