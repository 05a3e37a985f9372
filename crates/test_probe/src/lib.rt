// The parts of the port, exported one by one for the runs against the Rust (tools/oracle) and for times beside it (tools/bench).
// Each wrapper only hands its arguments on, so each says no more than what its own callee ensures.
// Stays: the C interface is of numbers and slices, so a flag, a kind and a refusal cross as numbers here, as the harness reads them.
#![tactic(auto)]

mod calls;
mod drawing;
mod effects;
mod leaves;
mod logs;
mod packets;
mod playing;
mod rounds;
mod states;
mod views;
