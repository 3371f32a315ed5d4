//! Filesystems: what `eval_filesystem` replies to the calls that list, make, show, change and delete them, and what it
//! makes of the nodes.
//!
//! It asks whether the caller is the superuser and looks at the account. A filesystem is made where its name leads
//! nowhere yet: a root, to which the account leads by that name. The root of one that is there is shown, or its
//! properties are replaced, or all that stands in the filesystem is taken away. A page of filesystems has those whose
//! names begin with a prefix and stand behind a token; each of their roots is looked at once, and none behind the page.
//!
//! A caller may rely on this: for all parts that stand for a tree, agree with what the view has shown and keep none of
//! the ids that are still to be given, the reply, the nodes that are read and written, the ids that are drawn and the
//! parts after are those of the model's step, for every sound request. Where a stripe that the step reads or writes
//! isn't held so, the answer names one of them, and where all of them are held it is no need.
//!
//! The step is that of `namespace_model`; what every evaluator promises stands in `inode_tree`. The draft by which a
//! filesystem is made is in `specs/Filesystems.antt`, what is found at a root and what becomes of it in
//! `specs/Roots.antt`, and a page in `specs/Listed.antt`.
#![tactic(auto)]

mod create;
mod delete;
mod drafts;
mod eval;
mod find;
mod listing;
mod names;
mod page;
mod properties;
mod root;

pub use eval::eval_filesystem;
