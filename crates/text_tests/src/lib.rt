//! Tests of the data of files, which no table shows.
//!
//! The crate has no item of its own. Expected values are written out in the tests, never taken from the program.
#![tactic(auto)]

#[cfg(test)]
mod tests;
