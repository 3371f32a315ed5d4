//! The JSON values in the bodies of listings, of paths and of filesystems, and of batches, which set access lists
//! below a directory.
//!
//! A caller may rely on each value being that of the namespace's definition: `path_value` is `path_data`,
//! `filesystem_value` is `filesystem_data`, `failure_value` is `failure_data`, and `paths_body`, `filesystems_body`
//! and `batch_body` are the bytes of their namesakes, which a reader of JSON reads as those values. Names, ETags and
//! dates in them are the texts of `name_in_body`, `etag_in_body` and `date_in_body`; `name_below` makes the name of a
//! path that is told by names below another. Nothing here looks at a node: each call takes what is told of one.
//!
//! The definitions of the values stand in `namespace_model` (`ListPaths`, `ListFilesystems`, `SetAccessRecursive`,
//! `Replies`). Those of `specs/Told` say of which nodes an entry, a stamp and the counts of a batch are.
//!
//! The members and their names are those of Microsoft's REST reference for Azure Data Lake Storage Gen2 (Path - List,
//! Filesystem - List, Path - Update); their order, by name, is this project's own.
#![tactic(auto)]

mod batches;
mod filesystems;
mod paths;
mod texts;
mod words;

pub use batches::{Changed, batch_body, failure_value};
pub use filesystems::{filesystem_value, filesystems_body};
pub use paths::{Contents, PathEntry, path_value, paths_body};
pub use texts::{date_in_body, etag_in_body, name_below, name_in_body};
