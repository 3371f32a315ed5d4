//! Changes of access control lists of a whole subtree, batch by batch: what `eval_batch` replies to the call that
//! sets, modifies or removes entries at a node and at all that is below it.
//!
//! It goes the way to the node, looks at it, and then takes the nodes behind the token in path order, each as it
//! comes: the caller has to be its owner or the superuser, and its lists are changed by the entries that are for its
//! kind. A node that fails is told in the reply, and ends the batch unless the batch is forced. The changed nodes are
//! edited at once. The directories along the token are looked at, and each node once; whether more is left behind the
//! batch is told without a look at what lies there.
//!
//! A caller may rely on this: for all parts that stand for a tree, agree with what the view has shown and keep none
//! of the ids that are still to be given, the reply, the nodes that are read and what becomes of the nodes that are
//! written are those of the model's step, for every sound request. Where a stripe that the step reads or writes isn't
//! held as it has to be, the answer names one of them, and where all of them are held it is no need.
//!
//! The step is that of `namespace_model`; what every evaluator promises stands in `inode_tree`; the walk is that of
//! `path_order`, the changes of lists are those of `acl_text`, and the values of the body those of `body_text`. What
//! the nodes of a batch are, what comes of each, and the batch that they make, are in `specs/Batched.antt`.
#![tactic(auto)]

mod asked;
mod eval;
mod reply;
mod run;
mod tally;
mod turn;
mod walk;

pub use eval::eval_batch;
