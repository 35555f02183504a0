//! The tests of whole runs of the program, over files, outputs, threads and gates that stand in for
//! the host's. There are only tests, so that no crate below is proved twice. Begin at the tests.
#![tactic(auto)]

#[cfg(test)]
mod tests;
