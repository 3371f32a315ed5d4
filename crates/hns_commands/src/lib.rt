//! The commands of the program `hns`, over any source, sink and clock.
//!
//! The program is a few lines that make the real ends and call a function of this library, so that what it does is proved of the
//! call that it makes, and tests make the same call over ends in memory.
//!
//! Definitions: specs/Piped.antt (what `hns pipe` does, and its statuses), specs/Serves.antt (what `hns serve` does, and its statuses),
//! specs/Summary.antt (the summary that it ends with). Words are those of `command_words`.
#![tactic(auto)]

mod pipe;
mod serve;
mod summary;
mod team;
mod usage;

pub use pipe::run_pipe;
pub use serve::{Served, run_serve};
pub use usage::text_of;
