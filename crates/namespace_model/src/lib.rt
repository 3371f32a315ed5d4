//! What the service means: the requests, the replies, and the one sequential namespace that gives every reply.
//!
//! The tree of the namespace is a finite map from paths to nodes. An entry of the journal is a request with its place and
//! moment; `step` says what an entry replies on a tree and what tree it leaves, and the run of a journal is its fold from
//! the opening tree, with numbers from 1. Nothing here runs: a reader who believes these definitions believes the service.
//!
//! docs/MODEL.md says how to read the definitions, and names the file of each operation.
#![tactic(auto)]

mod caller;
mod code;
mod copying;
mod denied;
mod field;
mod laws;
mod op;
mod op_copy;
mod reply;
mod request;

pub use caller::{Caller, IdList};
pub use code::Code;
pub use denied::{Denied, Refusal, Rule};
pub use field::{Field, FieldList, Media};
pub use laws::{
    denials_are_in_place, denials_name_their_rule, lines_are_in_order, new_nodes_are_few,
    pages_cover_their_course, refusals_change_nothing, renames_move_a_subtree,
    replies_tell_what_is, stamps_are_where_the_operation_stamps, steps_are_closed, steps_are_local,
    steps_keep_trees, successes_put_what_is_named, worked_steps,
};
pub use op::{BatchChange, Kind, Op};
pub use reply::Reply;
pub use request::{Entry, Request};
