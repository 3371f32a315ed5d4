//! Access control lists: ids, permissions, entries, and what setting, modifying and removing entries make of them.
//!
//! An `AclPair` is the access list of a file or a directory and, of a directory, perhaps a default list. `read_acl` and
//! `read_remove_list` read the texts of callers, `set`, `modify`, `remove` and `with_mode` make new pairs of them and leave
//! what they were handed as it was, and `write_acl` and `write_permissions` print. A caller may rely on each list being
//! complete and in printed order, on each reader accepting exactly its grammar, and on each change being its function on
//! finite maps. The laws of `laws` say in plain words what the changes keep.
//!
//! Definitions: specs/Ids.antt (ids), specs/Scopes.antt, specs/Whos.antt (whom an entry is for, and the printed order),
//! specs/Held.antt and specs/Acls.antt (what holds of each entry and of each list), specs/AclMaps.antt (the mask rule),
//! specs/AclChanges.antt (the changes), specs/AclFaults.antt (when a change is refused), specs/PermTexts.antt and
//! specs/AclTexts.antt (the grammars, and when a text is refused), specs/AclWriting.antt (printed texts), specs/Stops.antt (how an
//! answer yields to want of memory), specs/AclLaws.antt (words of the laws).
//!
//! The grammar of entries, the roles and the sticky bit are those of Microsoft's documentation of access control in Azure
//! Data Lake Storage Gen2; the grammar of ids, the computed mask and how default lists are completed are this project's own.
#![tactic(auto)]

mod acl;
mod change;
mod entries;
mod id;
mod item;
pub mod laws;
mod list;
mod mode;
mod perm;
mod read_entry;
mod read_list;
mod scope;
mod who;
mod write;

pub use acl::{Acl, AclFault, AclPair, AclStop, ENTRIES_MAX};
pub use change::{modify, remove, set, with_mode};
pub use id::{ID_MAX, Id, read_id};
pub use list::{AclList, ITEMS_MAX, RemoveList};
pub use mode::{read_permissions, read_umask, write_permissions};
pub use perm::{ModeBits, Perm, read_perm};
pub use read_list::{read_acl, read_remove_list};
pub use scope::Scope;
pub use who::Who;
pub use write::write_acl;
