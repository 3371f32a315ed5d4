//! The store: an object in 64 parts to which passes commit entries, each under the locks of its own footprint.
//!
//! A pass begins with a plan of stripes, looks at their parts, narrows what it holds to what its entry reads and writes, and
//! commits the entry with its work, or finishes without one. A caller may rely on this: what a pass has found is, on the stripes
//! that it holds, the replay of one journal, the journal of that moment; a commit that succeeds has added exactly its entry behind
//! that journal, holds nothing any more, and tells the entry's number and the stripes that were held; a refused commit changes
//! nothing; and the journal that is handed out at the end has each pass's entries and no others, with its replay as the parts.
//! The definitions stand in specs/: `Views` for what a contract sees of a store and its passes, `Passes` for what holds of them
//! between two calls, `Commits` for what a commit needs and does, `Receipts` for what a receipt tells, and `Closed` for the end.
//! Nothing is said of when a wait ends.
#![tactic(auto)]

mod commit;
mod pass;
mod receipt;
mod seats;
mod store;
mod used;

pub use pass::Pass;
pub use receipt::{CommitRefusal, Receipt};
pub use store::{Closing, Store};
