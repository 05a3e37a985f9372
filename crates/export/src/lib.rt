// The public calls for C, and for Rust that is compiled by another compiler: numbers and slices alone, each answer one number.
// include/sporedrift.h tells each call to its user; the numbers are those of the crate `export_answers`. A slice crosses as a pointer and a length.
// None asks anything of its caller, and each contract is that of the call which it passes on.
// Stays: the C interface is of numbers and slices, so a mode, a presence and a refusal cross as numbers.
#![tactic(auto)]

pub mod changing;
pub mod exchanging;
pub mod lending;
pub mod looking;
pub mod reading;
pub mod sending;
