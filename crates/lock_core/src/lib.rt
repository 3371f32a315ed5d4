//! The lock machine: two-phase locking through one journal, as plain data, over any object that is cut into 64 parts.
//!
//! `Parted` says what an object is: what an entry of the journal answers, reads, writes and leaves, and by which laws. `Core`
//! is the machine, which takes one `Event` at a time. Each event asks for its clauses in an order. It is `Ok` exactly where
//! all hold, and else names the first that is broken and changes nothing. The definitions stand in specs/: `Object` for the
//! object and its laws, `Machine` for the state, the clauses and the changes, `Invariant` for what holds between any two
//! events, and `Sound` for the same by stripes and seats, which the proofs keep. A running table of locks stands on these.
#![tactic(auto)]

mod machine;
mod marks;
mod object;
mod pure_core;
mod run;
mod tally;

pub use machine::{Clause, Event, Hold, Known, Sitting, StepStop};
pub use object::{Bodied, LockMode, Parted, Played};
pub use pure_core::Core;
pub use run::{run_events, runs_keep_the_invariant};
pub use tally::{Tally, TallyEntry};
