//! Nodes that are edited in their places.
ghost use Rattle.std.specs.Prelude.{◌≡◌, ◌∷◌, [], IfOk, true, false};
ghost use Rattle.inode_tree.specs.declared.change.Edit.TheVariants as edit;
ghost use Rattle.path_walk.specs.Batches.{AreEdited, changes_by, ids_in};
ghost use Rattle.path_walk.specs.Edits.{AreEdits, IsEdited, changes_at};

use super::answer::closing;
use inode_tree::{Change, Draft, Edit, Meta, NodeId};
use namespace_model::Reply;
use std::alloc::{AllocError, Global};

/// What an operation on one node comes to.
#[derive(Drop)]
pub enum Verdict {
    /// This reply, and nothing changes.
    Answer(Reply),
    /// These edits of the node, in this order, and this reply.
    Edits(Vec<Edit>, Reply),
}

/// One edit, with this reply. The one error is want of memory.
pub fn one_edit(alloc: Global, edit: Edit, reply: Reply) -> Result<Verdict, AllocError>
    ensures { IfOk result (AreEdits (edit ∷ []) reply) }
{
    let mut edits = Vec::new(alloc);
    edits.push(edit)?;
    Ok(Verdict::Edits(edits, reply))
}

/// One edit and then another, with this reply. The one error is want of memory.
pub fn two_edits(
    alloc: Global,
    first: Edit,
    second: Edit,
    reply: Reply,
) -> Result<Verdict, AllocError>
    ensures { IfOk result (AreEdits (first ∷ second ∷ []) reply) }
{
    let mut edits = Vec::new(alloc);
    edits.push(first)?;
    edits.push(second)?;
    Ok(Verdict::Edits(edits, reply))
}

/// The edit by which a node has this meta from now on, with the moment and the number of the entry: it is stamped. The moment is in
/// milliseconds since 1970.
pub fn stamp(meta: Meta, moment: u64) -> Edit
    ensures { result ≡ edit.Meta (record meta { moment = moment }) true }
{
    let mut meta = meta;
    meta.moment = moment;
    Edit::Meta(meta, true)
}

/// The edit by which a node has this meta from now on, with the moment and the number that are in it.
pub fn keep(meta: Meta) -> Edit
    ensures { result ≡ edit.Meta meta false }
{
    Edit::Meta(meta, false)
}

// These edits as changes of the node of an id.
fn changes_at(alloc: Global, id: NodeId, edits: Vec<Edit>) -> Result<Vec<Change>, AllocError>
    ensures { IfOk result (λ changes. changes.items ≡ changes_at id edits.items) }
{
    let mut changes = Vec::new(alloc);
    for edit in edits {
        changes.push(Change::Edit(id, edit))?;
    }
    Ok(changes)
}

/// The draft by which the node of an id is edited so, behind these nodes that were read. The one error is want of memory.
pub fn edited(
    alloc: Global,
    reads: Vec<NodeId>,
    id: NodeId,
    edits: Vec<Edit>,
    reply: Reply,
    close: bool,
) -> Result<Draft, AllocError>
    ensures { IfOk result (IsEdited close reply reads.items id edits.items) }
{
    let mut writes = Vec::new(alloc);
    writes.push(id)?;
    Ok(Draft {
        reply: closing(alloc, reply, close)?,
        reads,
        writes,
        changes: changes_at(alloc, id, edits)?,
        drawn: 0,
    })
}

/// The ids of nodes that are edited, in their order. The one error is want of memory.
pub fn ids_in(alloc: Global, edits: &[(NodeId, Edit)]) -> Result<Vec<NodeId>, AllocError>
    ensures { IfOk result (λ ids. ids.items ≡ ids_in edits.now) }
{
    let mut ids = Vec::new(alloc);
    for edit in edits {
        ids.push(edit.0)?;
    }
    Ok(ids)
}

// One edit of each of these nodes, as changes.
fn changes_by(alloc: Global, edits: Vec<(NodeId, Edit)>) -> Result<Vec<Change>, AllocError>
    ensures { IfOk result (λ changes. changes.items ≡ changes_by edits.items) }
{
    let mut changes = Vec::new(alloc);
    for (id, edit) in edits {
        changes.push(Change::Edit(id, edit))?;
    }
    Ok(changes)
}

/// The draft by which each of these nodes is edited so, behind these that were read. The one error is want of memory.
pub fn edited_all(
    alloc: Global,
    reads: Vec<NodeId>,
    edits: Vec<(NodeId, Edit)>,
    reply: Reply,
    close: bool,
) -> Result<Draft, AllocError>
    ensures { IfOk result (AreEdited close reply reads.items edits.items) }
{
    Ok(Draft {
        reply: closing(alloc, reply, close)?,
        reads,
        writes: ids_in(alloc, edits.as_slice())?,
        changes: changes_by(alloc, edits)?,
        drawn: 0,
    })
}
