ghost use Rattle.std.specs.Prelude.{◌≡◌, ◌∷◌, [], List, Some, IfOk};
ghost use Rattle.serde_json.specs.Read.{read};
ghost use Rattle.serde_json.specs.View.{items_view, view};
ghost use Rattle.namespace_model.specs.ListFilesystems.{filesystem_data, filesystem_items, filesystems_body};
ghost use Rattle.namespace_model.specs.Nodes.{Node};
ghost use Rattle.namespace_model.specs.Trees.{Path, Tree};
ghost use Rattle.body_text.specs.Told.{IsStampOf};
ghost use Rattle.body_text.specs.Written.{filesystems_data};

use super::texts::{date_in_body, etag_in_body};
use path_text::Name;
use serde_json::{Value, json};
use std::alloc::{AllocError, Global};

/// The value of one listed filesystem: its name, and the number and the moment, in milliseconds since 1970, of the
/// entry that made its root or last stamped it. The one error is want of memory.
pub fn filesystem_value(
    alloc: Global,
    name: &Name,
    number: u64,
    moment: u64,
) -> Result<Value, AllocError>
    ensures { IfOk result (λ v. (x : Node) → IsStampOf number moment x →
        view v ≡ filesystem_data (name.now ∷ []) x) }
{
    let etag = etag_in_body(alloc, number)?;
    let modified = date_in_body(alloc, moment)?;
    json!(in alloc; {"etag": etag, "lastModified": modified, "name": name.as_str()})
}

fn filesystems_value(alloc: Global, entries: Vec<Value>) -> Result<Value, AllocError>
    ensures { IfOk result (λ v. view v ≡ filesystems_data (items_view entries.items)) }
{
    json!(in alloc; {"filesystems": entries})
}

/// The body of a page of filesystems, whose values come in the order of the page. The one error is want of memory.
pub fn filesystems_body(alloc: Global, entries: Vec<Value>) -> Result<Vec<u8>, AllocError>
    ensures text { IfOk result (λ body. (t : Tree) (ps : List Path) →
        items_view entries.items ≡ filesystem_items t ps → body.items ≡ filesystems_body t ps) }
    ensures reads_back { IfOk result (λ body. (t : Tree) (ps : List Path) →
        items_view entries.items ≡ filesystem_items t ps →
        read body.items ≡ Some (filesystems_data (filesystem_items t ps))) }
{
    filesystems_value(alloc, entries)?.to_vec(alloc)
}
