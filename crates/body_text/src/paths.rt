ghost use Rattle.std.specs.Prelude.{◌≡◌, true, false, List, Some, IfOk, string_bytes};
ghost use Rattle.serde_json.specs.Read.{read};
ghost use Rattle.serde_json.specs.View.{items_view, view};
ghost use Rattle.namespace_model.specs.ListPaths.{path_data, path_items, paths_body};
ghost use Rattle.namespace_model.specs.Nodes.{Node};
ghost use Rattle.namespace_model.specs.Replies.{name_in_body};
ghost use Rattle.namespace_model.specs.Trees.{Path, Tree};
ghost use Rattle.body_text.specs.Entries.{AreTexts, length_of, texts_data};
ghost use Rattle.body_text.specs.Told.{IsEntryOf};
ghost use Rattle.body_text.specs.Written.{paths_data};

use super::texts::{date_in_body, etag_in_body, id_in_body, number_in_body, permissions_in_body};
use acl_text::{Acl, Id};
use serde_json::{Value, json};
use std::alloc::{AllocError, Global};

/// What stands at a listed path.
#[derive(Clone, Copy)]
pub enum Contents {
    /// A directory, whose length is told as 0.
    Directory,
    /// A file of so many bytes, those that are staged not counted.
    File(u64),
}

/// What a listing tells of what stands at a path.
#[derive(Clone, Copy)]
pub struct PathEntry<'a> {
    pub contents: Contents,
    /// The number of the entry that made the node or last stamped it.
    pub number: u64,
    /// The moment of that entry, in milliseconds since 1970.
    pub moment: u64,
    /// The owner.
    pub owner: &'a Id,
    /// The owning group.
    pub group: &'a Id,
    /// The access control list, of which the permissions are told.
    pub access: &'a Acl,
    /// The sticky bit, which is told among them.
    pub sticky: bool,
}

impl Contents {
    // The bytes of a file; a directory has none.
    fn length(self) -> u64
        ensures { result ≡ length_of self }
    {
        match self {
            Contents::Directory => 0,
            Contents::File(length) => length,
        }
    }
}

// The texts of an entry's members.
#[derive(Drop)]
struct Texts {
    length: String,
    etag: String,
    group: String,
    modified: String,
    name: String,
    owner: String,
    permissions: String,
}

fn texts_of(alloc: Global, name: String, entry: &PathEntry<'_>) -> Result<Texts, AllocError>
    ensures { IfOk result (AreTexts entry.now (string_bytes name)) }
{
    Ok(Texts {
        length: number_in_body(alloc, entry.contents.length())?,
        etag: etag_in_body(alloc, entry.number)?,
        group: id_in_body(alloc, entry.group)?,
        modified: date_in_body(alloc, entry.moment)?,
        name,
        owner: id_in_body(alloc, entry.owner)?,
        permissions: permissions_in_body(alloc, entry.access, entry.sticky)?,
    })
}

fn directory_value(alloc: Global, texts: Texts) -> Result<Value, AllocError>
    ensures { IfOk result (λ v. view v ≡ texts_data true texts) }
{
    json!(in alloc; {
        "contentLength": texts.length,
        "etag": texts.etag,
        "group": texts.group,
        "isDirectory": "true",
        "lastModified": texts.modified,
        "name": texts.name,
        "owner": texts.owner,
        "permissions": texts.permissions
    })
}

fn file_value(alloc: Global, texts: Texts) -> Result<Value, AllocError>
    ensures { IfOk result (λ v. view v ≡ texts_data false texts) }
{
    json!(in alloc; {
        "contentLength": texts.length,
        "etag": texts.etag,
        "group": texts.group,
        "lastModified": texts.modified,
        "name": texts.name,
        "owner": texts.owner,
        "permissions": texts.permissions
    })
}

/// The value of one listed path, by the text of its name, which `name_in_body` or `name_below` makes. The one error
/// is want of memory.
pub fn path_value(alloc: Global, name: String, entry: &PathEntry<'_>) -> Result<Value, AllocError>
    ensures { IfOk result (λ v. (p : Path) (x : Node) → string_bytes name ≡ name_in_body p → IsEntryOf entry.now x →
        view v ≡ path_data p x) }
{
    let texts = texts_of(alloc, name, entry)?;
    match entry.contents {
        Contents::Directory => directory_value(alloc, texts),
        Contents::File(_) => file_value(alloc, texts),
    }
}

fn paths_value(alloc: Global, entries: Vec<Value>) -> Result<Value, AllocError>
    ensures { IfOk result (λ v. view v ≡ paths_data (items_view entries.items)) }
{
    json!(in alloc; {"paths": entries})
}

/// The body of a page of paths, whose values come in the order of the page. The one error is want of memory.
pub fn paths_body(alloc: Global, entries: Vec<Value>) -> Result<Vec<u8>, AllocError>
    ensures text { IfOk result (λ body. (t : Tree) (ps : List Path) →
        items_view entries.items ≡ path_items t ps → body.items ≡ paths_body t ps) }
    ensures reads_back { IfOk result (λ body. (t : Tree) (ps : List Path) →
        items_view entries.items ≡ path_items t ps → read body.items ≡ Some (paths_data (path_items t ps))) }
{
    paths_value(alloc, entries)?.to_vec(alloc)
}
