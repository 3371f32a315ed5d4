//! Who may do what with a file or a directory, and what a new one takes from the directory above it.
//!
//! `check` judges the permissions that a caller has on a node, `sticky_allows` guards the children of sticky directories,
//! `may_chmod`, `may_chown` and `may_chgrp` say who sets lists, owners and groups, and `inherit` makes the lists of a new node. A
//! caller may rely on each being its definition of the service's model (specs/Access.antt of `namespace_model`) at every list, id
//! and caller; a refusal has the rule of the case that decided, and the bits that were compared last. Only `inherit` takes memory.
//!
//! The laws of `laws` say in plain words what the definitions keep, by the words of specs/AccessLaws.antt. The model of access is
//! the one that Microsoft documents for Azure Data Lake Storage Gen2, "Access control model"; which rule a refusal has is this
//! project's own.
#![tactic(auto)]

mod inheritance;
pub mod laws;
mod permission;
mod rights;

pub use inheritance::inherit;
pub use namespace_model::Refusal;
pub use permission::check;
pub use rights::{is_superuser, may_chgrp, may_chmod, may_chown, sticky_allows};
