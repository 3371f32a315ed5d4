//! Listings of a directory, page by page: what `eval_list` replies to the call that lists the children of a directory, or all that is
//! below it.
//!
//! It goes the way to the directory, looks at it and asks it, reads the page behind the token, and tells of each of its nodes in a JSON
//! body. The children are found from the directory alone. Where all that is below it is listed, the directories along the token are looked
//! at, and then the nodes of the page in path order, each as it comes; each directory among them is asked, and the first that is closed is
//! the answer. Whether more is left behind the page is told without a look at what lies there.
//!
//! A caller may rely on this: for all parts that stand for a tree, agree with what the view has shown and keep none of the ids that are
//! still to be given, the reply and the nodes that are read are those of the model's step, for every sound request, and nothing is
//! written. Where a stripe that the step reads isn't held at least shared, the answer names one of them, and where all of them are held it
//! is no need.
//!
//! The step is that of `namespace_model`; what every evaluator promises stands in `inode_tree`; the walk is that of `path_order`, and the
//! values of the body those of `body_text`. What a page is that was read, and the reply by it, are in `specs/Listed.antt`.
#![tactic(auto)]

mod below;
mod body;
mod children;
mod eval;
mod questions;
mod rows;

pub use eval::eval_list;
