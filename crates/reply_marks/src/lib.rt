//! What the replies of a journal count as: done, refused, or denied; and how many there were of each.
//!
//! Definitions: specs/Marks.antt (the mark of a reply, and those of a journal), specs/Tallies.antt (how many there are of each).
#![tactic(auto)]

mod mark;
mod tally;

pub use mark::Mark;
pub use tally::Tally;
