//! The engine: the evaluators of all operations, the namespace in memory, the text of replies, and one connection served from them.
//!
//! `eval` calls the evaluator of an operation, each of them for every sound request. `Solo` keeps a journal and the 64 stripes that the run of it left, and answers each
//! request with the text of the reply that the run gives at its place. A caller may rely on this: the parts of the stripes stand for the
//! tree of that run, new nodes get the ids of pass 0 in their order, and a receipt has the stripes of what its entry read and wrote.
//! `serve_solo` reads requests from a source and writes their replies to a sink; its contract is the serving theorem.
//!
//! Definitions: specs/Solos.antt (what a contract sees of `Solo`, and what it keeps), specs/Submits.antt (one submit). The serving
//! theorem and the texts of a journal are those of `serving`, the bytes of replies those of `reply_text`, the journal and its limits
//! those of `commit_journal`, and what every evaluator promises stands in `inode_tree`.
#![tactic(auto)]

mod desk;
mod evaluation;
mod receipt;
mod solo;
mod spelling;
mod stripes;

pub use desk::serve_solo;
pub use evaluation::eval;
pub use serving::{End, SubmitRefusal};
pub use solo::{Answer, Solo};
pub use striped_store::Receipt;
