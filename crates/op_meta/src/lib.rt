//! What is kept of a node besides its children and its bytes: what `eval_meta` replies to the calls that ask for it, and what it makes of
//! the node by those that set it.
//!
//! It finds the node through the view. An operation is then a function of the node: to an answer, or to an edit of the node with a reply.
//! A caller may rely on this: for all parts that stand for a tree, agree with what the view has shown and keep no id that is still to be
//! given, the reply, the nodes that are read and written and the parts after are those of the model's step, for every sound request. Where
//! a stripe that the step reads or writes isn't held so, the answer names one of them, and where all of them are held it is no need.
//!
//! The step is that of `namespace_model`; what every evaluator promises stands in `inode_tree`. What comes of the node by each of
//! the operations is in `specs/Metas.antt`.
#![tactic(auto)]

mod access;
mod eval;
mod leases;
mod properties;

pub use eval::eval_meta;
