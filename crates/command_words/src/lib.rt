//! The words of the program `hns`: a command, and options behind it.
//!
//! A command line is `pipe` or `serve`, and then options in any order, each at most once, as `--journal-max 3` or `--journal-max=3`. Other
//! words are none. A caller may rely on this: what is read is exactly what the definitions say of the words.
//!
//! Definitions: specs/Words.antt.
#![tactic(auto)]

mod job;
mod options;

pub use job::{Command, Job, ServeWords, pipe_limits, read_words, serve_words};
