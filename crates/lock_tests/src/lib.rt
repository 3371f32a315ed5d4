//! Tests of the lock protocol: conversations of seats with the pure machine, of threads with the running table, and of passes
//! with the store, with callers of a store of tallies.
//! Expected values are written out in the tests, never taken from the program.
#![tactic(auto)]

pub mod callers;
pub mod shelves;
#[cfg(test)]
mod tests;
