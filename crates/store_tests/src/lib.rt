//! Tests of the store over the namespace: one store, lent to threads.
//! Expected values are written out in the tests, never taken from the program.
#![tactic(auto)]

#[cfg(test)]
mod tests;
