//! A queue of connections: a lock round a listener, from which workers take one connection after the other.
//!
//! What one turn does is said of `ConnState::next`, which takes no lock. `ConnQueue::take` takes the lock and answers what `next` answers.
//!
//! Definitions: specs/Turns.antt.
#![tactic(auto)]

mod queue;

pub use queue::{ConnQueue, ConnState, Shut, Taken};
