//! The way from the account to the parent of a path, over any view of the nodes.
//!
//! `visit` goes from id to id, from the account through each name of the path but the last. It looks at each node and asks each
//! directory whether it lets the caller through. A caller may rely on this: for all parts that stand for a tree and agree with what the
//! view has shown, the visit ends as the way through that tree does, for every caller, its ids are those of the nodes that this way reads,
//! and each of them lies in a stripe that is held. Where a node of the way lies in a stripe that isn't held, it names that stripe. `walk`
//! answers the same as a path's ids or as the reason for which its parent isn't reached.
//!
//! `enter` goes the same way, and answers the parent with the last name of the path, or how the way ends before it. `look_up` goes on to
//! the node of the path itself, and `look_below` from a directory that was looked at to the node of one of its names. `unheld` names a
//! stripe of the nodes that are to be written, where one isn't held for that.
//!
//! A `Call` is what is asked of an evaluator. Each function that looks through a view keeps what is held, what it is a view of, and what
//! was shown (`GoesOn`).
//!
//! `refusal`, `denial`, `stop_reply` and `closing` make the replies that all operations share, and `answered` the draft of an answer that
//! changes nothing.
//!
//! `lacks`, `guarded`, `unmet`, `lease_refuses` and the others of `questions.rt` ask what the model asks of a node, each with the refusal that it
//! gives or none. `put_stamps` and the others of `lines.rt` put the lines that tell what a node is.
//!
//! An operation on one node is a function of the node that gives a `Verdict`; `settle` makes the draft of it, or names the stripe that has to
//! be held exclusively. `settle_all` does so for many nodes, and `settle_removal` for nodes that go out of a directory.
//!
//! The way is that of the model (`namespace_model`, `specs/Ways.antt`). What a visit is of it stands in `specs/Visits.antt`; where a path's
//! parent is in `specs/Parents.antt`; what stands at a path in `specs/Finds.antt`; calls in `specs/Calls.antt`; answers in
//! `specs/Answers.antt`; holds in `specs/Holds.antt`; edits in `specs/Edits.antt` and `specs/Batches.antt`; removals in
//! `specs/Removals.antt`; what `settle` promises in `specs/Settles.antt`.
#![tactic(auto)]

mod answer;
mod call;
mod edits;
mod find;
mod hold;
mod lines;
mod look;
mod parent;
mod questions;
mod removals;
mod settles;
mod stop;
mod way;

pub use answer::{answered, closing, denial, refusal, stop_reply};
pub use call::Call;
pub use edits::{Verdict, edited, edited_all, ids_in, keep, one_edit, stamp, two_edits};
pub use find::{Find, Found, look_below, look_up};
pub use hold::unheld;
pub use lines::{
    missing_code, not_met, put_access, put_kind, put_lease, put_length, put_properties, put_stamps,
    stamped, success,
};
pub use look::{child_above, child_of, has_children, is_directory, may_enter};
pub use parent::{Entered, Parent, enter, parent_at};
pub use questions::{
    guarded, lacks, lacks_above, lease_code, lease_refuses, may_not_chgrp, may_not_chmod,
    may_not_chown, refuse_if, superuser_only, taken, unmet, unmet_look, unmet_without,
};
pub use removals::{Removal, removed, settle_removal};
pub use settles::{settle, settle_all};
pub use stop::{Base, End, Visit, Walk, WalkStop};
pub use way::{visit, walk};
