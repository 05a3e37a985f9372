// The unit block as a record, and what makes one valid (RULES 1). The meaning is in specs/: `Sgb` (the record),
// `Block` (one as the other), `Valid` (V1 to V6), `Good` (the same of the record), `Fresh` (new, post_boot). Where each part stands is
// said by the crate `parts`. There is no code here.
#![tactic(auto)]
