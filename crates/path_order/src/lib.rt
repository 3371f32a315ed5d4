//! The walk below a directory in path order, over any view of the nodes.
//!
//! A `Cursor` is a walk that has come to a path: `next` answers the node of the first path behind it and goes there, until nothing that
//! is below the directory is left. It keeps the directories on the way to that path and nothing else, and it makes one look a step. A
//! caller may rely on this: for all parts that stand for a tree and agree with what the view has shown, the node is that of the first
//! path of the tree behind the last one, no other stripe was looked at than that of this node, and where the node lies in a stripe that
//! isn't held, the answer names it. After an error nothing is said of the cursor: who goes on begins anew.
//!
//! `start_at` begins a walk behind a token, and answers the nodes on the way to it; `behind` does so by the names of a path that may be
//! lost. `next_page` takes the next nodes of a walk, `list_below` makes a page of all that is below a directory with its token, as the
//! model has it, and `walk_subtree` takes a node with all that is below it.
//!
//! Where a walk is and what comes next stands in `specs/Cursors.antt`, pages in `specs/PagesBelow.antt` and `specs/Listings.antt`,
//! beginnings in `specs/Starts.antt`, whole subtrees in `specs/Subtrees.antt`, and pages that follow one another in `specs/Followed.antt`.
#![tactic(auto)]

mod begin;
mod cursor;
mod ids;
mod laws;
mod listing;
mod names;
mod paging;
mod token;
mod whole;

pub use begin::{Start, behind};
pub use cursor::{Cursor, Seen};
pub use ids::with_ids;
pub use laws::pages_cover_their_list;
pub use listing::{Listing, list_below};
pub use names::path_below;
pub use paging::{Page, next_page};
pub use token::start_at;
pub use whole::{Subtree, walk_subtree};
