//! Files and directories are made: what `eval_create` replies to the call that makes one, and what it makes of the nodes.
//!
//! It goes the way to the parent of the path, asks what the model's step asks, in its order, and where nothing refuses makes the node,
//! and before it the directories that are missing on the way, each below the one before it. A caller may rely on this: for all parts
//! that stand for a tree, agree with what the view has shown and keep none of the ids that are still to be given, the reply, the nodes
//! that are read and written, the ids that are drawn and the parts after are those of the model's step, for every caller and every
//! condition, with permissions, umask and properties or without. Where a stripe that the step reads or writes isn't held so, the answer
//! names one of them, and where all of them are held it is no need.
//!
//! The step is that of `namespace_model`; what every evaluator promises stands in `inode_tree`. What a request comes to once a directory
//! was looked at is in `specs/Creates.antt`, and the draft by which new nodes come to stand in `specs/Chains.antt`.
#![tactic(auto)]

mod drafts;
mod eval;
mod nodes;
mod place;
mod refusals;

pub use eval::eval_create;
