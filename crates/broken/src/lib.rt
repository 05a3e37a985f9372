// Which rule a block breaks first, and at which byte: specs/Broken. What is told of it is proved in proofs/.
// There is no code here: the crate `block_broken` looks for it in the block.
#![tactic(auto)]
