//! The tests of turns, rings, standbys and the kernel's callers, with outputs, threads and gates that
//! stand in for the host's. There are only tests, so that no crate below is proved twice. Begin at
//! the tests.
#![tactic(auto)]

#[cfg(test)]
mod tests;
