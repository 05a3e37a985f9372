// What a write and a screen do to the unit, whole: specs/Write and specs/Screen. That a valid unit stays valid is proved in proofs/.
// There is no code here: the crate `unit` does on the block what these rules say.
#![tactic(auto)]
