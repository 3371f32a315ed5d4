//! The serving of one connection, over anything that answers requests.
//!
//! A `Desk` puts a request into a journal and answers the text of its reply; it may be the one user of its journal or
//! one of many. `serve` reads requests from a source, has a desk answer them and writes the replies to a sink. A
//! caller may rely on this: `serve` carries the serving theorem for every desk, so that whoever shows what a desk owes
//! for one request has it of whole connections; each end comes with its cause, and causes bring their ends; and where
//! the desk waits for nobody, `serve` returns for every source.
//!
//! Definitions: specs/Served.antt (one connection), specs/Ends.antt (ends and their causes), specs/Completes.antt
//! (what is asked is answered), specs/Answered.antt (what a desk owes), specs/Known.antt (what a server knows of a
//! journal), specs/Texts.antt (the texts of a journal), specs/Moments.antt (which of the clock's answers moments are),
//! specs/Written.antt and specs/Refuses.antt (last replies). The bytes of replies are those of `reply_text`, requests
//! those of `http_front` and `op_decode`, limits those of `commit_journal`.
#![tactic(auto)]

mod connection;
mod desk;
mod end;
mod last;
mod laws;
mod refusal;
mod writing;

pub use connection::serve;
pub use desk::Desk;
pub use end::End;
pub use laws::replies_are_those_of_the_run;
pub use refusal::SubmitRefusal;
pub use writing::write_all;
