//! Tests of the public calls of the engine and of the values of the model, which no file of cases shows.
//!
//! The crate has no item of its own. Expected bytes are written out in the tests, never taken from the program. Where a clause says that a
//! copy is equal, a test shows that the call succeeds.
#![tactic(auto)]

#[cfg(test)]
mod tests;
