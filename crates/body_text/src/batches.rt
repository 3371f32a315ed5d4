ghost use Rattle.std.specs.Prelude.{◌≡◌, List, length, Some, IfOk, string_bytes};
ghost use Rattle.serde_json.specs.Read.{read};
ghost use Rattle.serde_json.specs.View.{items_view, view};
ghost use Rattle.namespace_model.specs.Nodes.{Node, kind_of};
ghost use Rattle.namespace_model.specs.Replies.{name_in_body};
ghost use Rattle.namespace_model.specs.Trees.{Path};
ghost use Rattle.namespace_model.specs.SetAccessRecursive.{Batch, batch_body, failure_data, kind_in_body};
ghost use Rattle.body_text.specs.Told.{IsCountOf};
ghost use Rattle.body_text.specs.Written.{batch_data, data_of_batch};

use namespace_model::{Code, Kind};
use serde_json::{Value, json};
use std::alloc::{AllocError, Global};

/// How many nodes a batch changed.
#[derive(Clone, Copy)]
pub struct Changed {
    /// The directories among them.
    pub directories: u64,
    /// The files among them.
    pub files: u64,
}

fn kind_in_body(kind: Kind) -> &'static str
    ensures { (x : Node) → kind ≡ kind_of x → result.now ≡ kind_in_body x }
{
    match kind {
        Kind::Directory => "DIRECTORY",
        Kind::File => "FILE",
    }
}

/// The value of a node that failed in a batch: the text of its name, which `name_in_body` or `name_below` makes, its
/// kind, and why it failed. The one error is want of memory.
pub fn failure_value(
    alloc: Global,
    name: String,
    kind: Kind,
    code: Code,
) -> Result<Value, AllocError>
    ensures { IfOk result (λ v. (p : Path) (x : Node) → string_bytes name ≡ name_in_body p → kind ≡ kind_of x →
        view v ≡ failure_data (record { path = p; node = x; code = code })) }
{
    json!(in alloc; {"errorMessage": code.name(), "name": name, "type": kind_in_body(kind)})
}

fn batch_value(alloc: Global, changed: Changed, failed: Vec<Value>) -> Result<Value, AllocError>
    ensures { IfOk result (λ v. view v ≡
        batch_data changed.directories (items_view failed.items) (length failed.items) changed.files) }
{
    let failures = failed.len();
    json!(in alloc; {
        "directoriesSuccessful": changed.directories,
        "failedEntries": failed,
        "failureCount": failures,
        "filesSuccessful": changed.files
    })
}

/// The body of a batch's answer: how many nodes it changed, and the values of those that failed in it, in path order.
/// The one error is want of memory.
pub fn batch_body(
    alloc: Global,
    changed: Changed,
    failed: Vec<Value>,
) -> Result<Vec<u8>, AllocError>
    ensures text { IfOk result (λ body. (b : Batch) → IsCountOf changed (items_view failed.items) b →
        body.items ≡ batch_body b) }
    ensures reads_back { IfOk result (λ body. (b : Batch) → IsCountOf changed (items_view failed.items) b →
        read body.items ≡ Some (data_of_batch b)) }
{
    batch_value(alloc, changed, failed)?.to_vec(alloc)
}
