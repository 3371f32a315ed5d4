//! Tests of the nodes of `inode_tree`: each public call once with ample memory, at values that are made by hand.
//!
//! The crate has no item of its own. Each test makes a few calls, and each helper one, without a clause, so that the proofs stay short.
#![tactic(auto)]

#[cfg(test)]
mod tests;
