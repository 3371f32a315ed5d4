//! Tests of the service over threads: its receipts, two passes at a time, its refusals, and its end.
//!
//! The crate has no item of its own. Expected values are written out in the tests, never taken from the program. Every wait is
//! bounded, and past its bound the test fails.
#![tactic(auto)]

#[cfg(test)]
mod tests;
