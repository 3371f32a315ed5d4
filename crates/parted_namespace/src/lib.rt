//! The namespace as an object whose parts are shared under locks.
//!
//! `Namespace` implements `Parted` over the 64 stripes of `inode_tree`: an entry is a `Placed`, its work is a list of changes. A caller may
//! rely on the laws of `Parted`, and on `fitting_journals_stand`: the replay of a journal in which each entry fits stands for the tree of
//! the run of its entries, and each id that it keeps was given once, by one pass, in the order of the pass's row.
//!
//! The definitions stand in specs/: `Opening` for the stripes at the start, `Namespace` for the object, `Laws` for what it keeps, and
//! `Journals` for what holds of a journal.
#![tactic(auto)]

mod laws;
mod namespace;
mod opening;

pub use laws::fitting_journals_stand;
pub use namespace::Namespace;
