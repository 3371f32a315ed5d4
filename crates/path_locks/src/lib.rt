//! The running table of locks: 64 stripes, each with a part, and one journal, shared by seats that threads own.
//!
//! A seat takes the stripes of a plan in ascending order and waits for each. What it then holds is the plan, and each part
//! that it holds exclusively is in its hands. It looks at the part of a stripe that it holds shared under the stripe's
//! latch, may let go of some of what it holds, and commits an entry with the journal that it took. The words of the table,
//! its slots and its seats are at every moment a state of the lock machine, and each step on a word is one event of it, so a
//! caller may rely on the machine's invariant: a part that is home, or that a seat found, is that of the replay of the
//! journal. The definitions stand in specs/: `Rule` for the rule of the table, `Stands` for what a seat knows, `Plays` and
//! `Moves` for what each step tells, `Plans` for plans, `Narrow` for what is left of a hold, `Working` and `Committing` for
//! what a commit needs and does, and `Views`, `Holding` and `Alike` for what a contract sees of seats, of what they hold,
//! and of the table. Nothing is said of when a wait ends.
#![tactic(auto)]

mod ending;
mod held;
mod plan;
mod plays;
mod rule;
mod seating;
mod start;
mod steps;
mod table;

pub use held::{Held, Seat};
pub use plan::Plan;
pub use table::LockTable;
