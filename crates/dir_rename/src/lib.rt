//! Renames: what `eval_rename` replies to the call that moves a file or a directory, and what it makes of the nodes.
//!
//! It goes the way to the source, asks its directory and looks at it, does the same at the destination, and asks what was found there. Then
//! one name goes, one name comes, and the node itself is stamped; nothing of what stands below it is written, and it is read only where a
//! path may come out too long. A caller may rely on this: for all parts that stand for a tree, agree with what the view has shown and keep
//! none of the ids that are still to be given, the reply, the nodes that are read and written and the parts after are those of the model's
//! step, for every sound request. Where a stripe that the step reads or writes isn't held so, the answer names one of them, and where all
//! of them are held it is no need.
//!
//! The step is that of `namespace_model` (`specs/Rename.antt`); what every evaluator promises stands in `inode_tree`. What moves, and by
//! which changes, is in `specs/Shifts.antt`; a look at one end in `specs/Ends.antt`; the questions in `specs/Questions.antt`; the lengths
//! of paths in `specs/Lengths.antt` and `specs/Through.antt`; how far a rename has come in `specs/Stages.antt`.
#![tactic(auto)]

mod ends;
mod eval;
mod lengths;
mod questions;
mod shift;
mod through;

pub use eval::eval_rename;
