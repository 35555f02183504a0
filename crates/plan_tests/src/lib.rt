//! The tests of the plans: worked values of steps, moves, blends, roots, cams, gears, lines, queues,
//! units and counts, also at the ends of their ranges; and what texts are read as by the grammar of
//! Structured Text, by which line and rule its declarations are refused, and what its operators and
//! functions make of values. There are only tests, so that no crate below is proved twice. Begin at
//! the tests.
#![tactic(auto)]

#[cfg(test)]
mod tests;
