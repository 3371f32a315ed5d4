//! Tests of what the outside does: reads and writes that fail, sinks that are full, and the adapters over the real things.
//!
//! The crate has no item of its own. What goes from bytes to bytes is shown by `conversation_cases`, which lets each read and each write of
//! its conversations fail; here stand the ends by their names, the entries that are left, and the calls of `conn_io` and `commit_journal`.
#![tactic(auto)]

#[cfg(test)]
mod tests;
