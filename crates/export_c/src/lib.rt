// The calls of the crate `export` for C and its linker. A crate is a library or an archive to link, and this one is the archive: each call here has
// the name, the parameters and the contract of the one that it passes on, and does nothing besides.
// Stays: the C interface needs each call under its name in the archive, so those of `export` stand here once more.
#![tactic(auto)]

mod changing;
mod exchanging;
mod lending;
mod looking;
mod reading;
mod sending;
