//! Nodes that go.
ghost use Rattle.std.specs.Prelude.{◌≡◌, ◌∷◌, IfOk};
ghost use Rattle.path_walk.specs.Calls.{IsCall};
ghost use Rattle.path_walk.specs.Removals.{removals, IsRemoved};
ghost use Rattle.path_walk.specs.Settles.{SettlesRemoval};

use super::answer::closing;
use super::call::Call;
use super::hold::unheld;
use inode_tree::{Change, Draft, EvalStop, NodeId, View};
use namespace_model::Reply;
use path_text::Name;
use std::alloc::{AllocError, Global};

/// What goes out of a directory.
#[derive(Drop)]
pub struct Removal {
    /// The directory.
    pub base: NodeId,
    /// Its name that goes.
    pub name: Name,
    /// The node to which the name leads, and all that stand below it.
    pub taken: Vec<NodeId>,
}

// The name goes from a directory, and each of these nodes goes.
fn removals(
    alloc: Global,
    base: NodeId,
    name: Name,
    taken: &[NodeId],
) -> Result<Vec<Change>, AllocError>
    ensures { IfOk result (λ changes. changes.items ≡ removals base name taken.now) }
{
    let mut changes = Vec::new(alloc);
    changes.push(Change::Unlink(base, name))?;
    for id in taken {
        changes.push(Change::Drop(*id))?;
    }
    Ok(changes)
}

// The directory, and then the nodes that go.
fn written(alloc: Global, base: NodeId, taken: &[NodeId]) -> Result<Vec<NodeId>, AllocError>
    ensures { IfOk result (λ ids. ids.items ≡ base ∷ taken.now) }
{
    let mut ids = Vec::new(alloc);
    ids.push(base)?;
    ids.extend_from_slice(taken)?;
    Ok(ids)
}

/// The draft by which this goes out of a directory, behind these nodes that were read. The one error is want of memory.
pub fn removed(
    alloc: Global,
    reads: Vec<NodeId>,
    removal: Removal,
    reply: Reply,
    close: bool,
) -> Result<Draft, AllocError>
    ensures { IfOk result (IsRemoved close reply reads.items removal.base removal.name removal.taken.items) }
{
    let Removal { base, name, taken } = removal;
    Ok(Draft {
        reply: closing(alloc, reply, close)?,
        reads,
        writes: written(alloc, base, taken.as_slice())?,
        changes: removals(alloc, base, name, taken.as_slice())?,
        drawn: 0,
    })
}

/// The draft of a call that takes this out of a directory, behind these nodes that were read. Where the directory or a node that goes
/// lies in a stripe that isn't held exclusively, the answer is `Need`; want of memory may come at any time.
pub fn settle_removal<V: View>(
    alloc: Global,
    view: &V,
    call: &Call<'_>,
    reads: Vec<NodeId>,
    removal: Removal,
    reply: Reply,
) -> Result<Draft, EvalStop>
    requires call { IsCall call.now }
    ensures evaluated { SettlesRemoval (V.held view.now) (V.shown view.now) call.now reads.items removal reply result }
{
    let writes = written(alloc, removal.base, removal.taken.as_slice())?;
    if let Some(need) = unheld(view, writes.as_slice()) {
        return Err(EvalStop::Need(need));
    }
    Ok(removed(alloc, reads, removal, reply, call.request.close)?)
}
