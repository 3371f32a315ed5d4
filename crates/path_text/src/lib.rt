//! Paths of the namespace: filesystem names, names, and lists of them.
//!
//! A contract sees a name as the list of its bytes, a path as the list of its parts with the filesystem's name first, and a
//! query as the list of its pairs of a key and a value; the empty path is the account. `read_target` reads a request's target,
//! `read_plain` a text without escapes, and `read_token` a continuation token; `write_path` and `write_token` write what is
//! read back. A caller may rely on each reader answering exactly its definition, up to want of memory, on each fault coming exactly
//! where its statement on the bytes holds, and on each path that is read keeping the limits. Each `Name` is a name, each `FsName` a
//! name of a filesystem and each `Path` a list of them; only length and depth are to be carried by a contract.
//!
//! Definitions: specs/Names.antt (names of filesystems, names, and lists of them), specs/Paths.antt (the order of paths, prefixes and
//! parents), specs/Parts.antt (the parts of a path), specs/Texts.antt (the limits and the texts of paths), specs/Targets.antt (escapes
//! and targets), specs/Queries.antt (queries and the value of a key), specs/Faults.antt (when each fault comes, and which goes before
//! which), specs/Tokens.antt (tokens). The laws of `laws` say in plain words what names, paths and readers keep.
#![tactic(auto)]

mod escape;
mod fault;
pub mod laws;
mod limits;
mod name;
mod parts;
mod path;
mod plain;
mod query;
mod target;
mod token;

pub use fault::{PathFault, TargetStop};
pub use limits::{DEPTH_MOST, FS_NAME_LEAST, FS_NAME_MOST, NAME_MOST, PATH_MOST};
pub use name::{FsName, Name, read_fs_name};
pub use parts::Parts;
pub use path::Path;
pub use plain::read_plain;
pub use query::{Pair, Query};
pub use target::{read_target, write_path};
pub use token::{read_token, write_token};
