//! The journal: the entries in the order in which they took effect, within limits that it never passes.
//!
//! A caller makes room for one entry before it adds it, and is told there which limit stands against it; to add an entry
//! then never fails. `Limits` has the four numbers that a service is started with, of which a journal keeps two: the most
//! entries and the most bytes of their bodies. The definitions stand in specs/: `Limits` and `Journal`.
#![tactic(auto)]

mod journal;
mod keeper;
mod limits;

pub use journal::{Journal, ReserveStop};
pub use keeper::{KeepStop, Keeper, NoKeep};
pub use limits::{BYTES_MOST, Full, JOURNAL_MOST, Limits, PASSES_MOST, REQUESTS_MOST};
