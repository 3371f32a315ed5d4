//! Files and directories are taken away: what `eval_delete` replies to the call that deletes one, and what it makes of the nodes.
//!
//! It goes the way to the parent of the path, asks the parent, looks at the node and asks it, and takes the node away. Where the call is
//! recursive it looks at all that stands below the node, in path order, asks each directory of it, and takes all of it away, or nothing.
//! A caller may rely on this: for all parts that stand for a tree, agree with what the view has shown and keep none of the ids that are
//! still to be given, the reply, the nodes that are read and written and the parts after are those of the model's step, for every sound
//! request. Where a stripe that the step reads or writes isn't held so, the answer names one of them, and where all of them are held it is
//! no need.
//!
//! The step is that of `namespace_model`; what every evaluator promises stands in `inode_tree`; the draft by which nodes go is that of
//! `path_walk`. What is asked of the node, and what a look through a subtree gives, are in `specs/Deletes.antt`.
#![tactic(auto)]

mod clear;
mod directory;
mod eval;

pub use eval::eval_delete;
