//! The data of a file: what `eval_data` replies to the calls that read a file, append to it and flush it, and what it makes of the node.
//!
//! It finds the node through the view and asks it. A read replies the bytes, or a range of them, and copies them once, into the reply. An
//! append stages the body of the request, which the node then shares, and may flush at once and act on the lease; a flush takes what is
//! staged into the file. Neither copies a byte of the file. A caller may rely on this: for all parts that stand for a tree, agree with what
//! the view has shown and keep none of the ids that are still to be given, the reply, the nodes that are read and written and the parts
//! after are those of the model's step, for every sound request. Where a stripe that the step reads or writes isn't held so, the answer
//! names one of them, and where all of them are held it is no need.
//!
//! The step is that of `namespace_model`; what every evaluator promises stands in `inode_tree`; what may be staged and flushed is in
//! `file_data`, and what an append does with a lease in `lease_state`. Each operation is a task for the node that was found; what comes of
//! a task is in `specs/Tasks.antt`.
#![tactic(auto)]

mod append;
mod eval;
mod file;
mod flush;
mod read;
mod task;

pub use eval::eval_data;
