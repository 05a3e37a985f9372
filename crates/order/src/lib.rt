// Demand 3 (RULES 9.3): two logs of one run, merged differently, end in the same block and answer alike, wherever the writes that read or set
// what screens change keep their place. The statement is specs/Log and specs/Blocks; the theorems are proofs/Order and proofs/BlockOrder.
// There is no code here.
#![tactic(auto)]
