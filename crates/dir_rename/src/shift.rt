//! A node moves to another name.
ghost use Rattle.std.specs.Prelude.{◌≡◌, IfOk};
ghost use Rattle.dir_rename.specs.Shifts.{shifts, dropped, to_write, IsShifted, IsShiftOf};
ghost use Rattle.path_walk.specs.Calls.{IsCall, Answers};
ghost use Rattle.path_walk.specs.Visits.{AreLookedAt};

use inode_tree::{Change, Draft, Edit, EvalStop, Meta, NodeId, View};
use path_text::Name;
use path_walk::{Call, closing, stamped, unheld};
use std::alloc::{AllocError, Global};

// What moves.
#[derive(Drop)]
pub(crate) struct Shift {
    // What stands at the destination, which goes.
    pub(crate) old: Option<NodeId>,
    // The directory out of which the node moves.
    pub(crate) from: NodeId,
    // Its name there.
    pub(crate) name: Name,
    // The directory into which it moves.
    pub(crate) to: NodeId,
    // Its name there.
    pub(crate) new_name: Name,
    // The node.
    pub(crate) id: NodeId,
    // Its meta from now on, but for the number, which is that of the entry.
    pub(crate) meta: Meta,
}

// What stood at the destination goes.
fn dropped(alloc: Global, old: Option<NodeId>) -> Result<Vec<Change>, AllocError>
    ensures { IfOk result (λ changes. changes.items ≡ dropped old) }
{
    let mut changes = Vec::new(alloc);
    if let Some(id) = old {
        changes.push(Change::Drop(id))?;
    }
    Ok(changes)
}

// The name goes from the one directory, the other one has the node under the new name, and the node is stamped.
fn shifts(alloc: Global, shift: Shift) -> Result<Vec<Change>, AllocError>
    ensures { IfOk result (λ changes. changes.items ≡ shifts shift) }
{
    let Shift {
        old,
        from,
        name,
        to,
        new_name,
        id,
        meta,
    } = shift;
    let mut changes = dropped(alloc, old)?;
    changes.push(Change::Unlink(from, name))?;
    changes.push(Change::Link(to, new_name, id))?;
    changes.push(Change::Edit(id, Edit::Meta(meta, true)))?;
    Ok(changes)
}

// Both directories, the node, and what stood at the destination.
fn written(alloc: Global, shift: &Shift) -> Result<Vec<NodeId>, AllocError>
    ensures { IfOk result (λ ids. ids.items ≡ to_write shift.now) }
{
    let mut ids = Vec::new(alloc);
    ids.push(shift.from)?;
    ids.push(shift.to)?;
    ids.push(shift.id)?;
    if let Some(id) = shift.old {
        ids.push(id)?;
    }
    Ok(ids)
}

// The draft by which it moves, behind these nodes that were read.
fn shifted(
    alloc: Global,
    call: &Call<'_>,
    reads: Vec<NodeId>,
    writes: Vec<NodeId>,
    shift: Shift,
) -> Result<Draft, AllocError>
    requires writes { writes.items ≡ to_write shift }
    ensures { IfOk result (IsShifted call.now.request.now.close call.now.moment reads.items shift) }
{
    Ok(Draft {
        reply: closing(alloc, stamped(alloc, 201, call.moment)?, call.request.close)?,
        reads,
        writes,
        changes: shifts(alloc, shift)?,
        drawn: 0,
    })
}

// The draft of a call that moves this, behind these nodes that were read. Where one of the nodes that are to be written lies in a stripe
// that isn't held exclusively, the answer is `Need`; want of memory may come at any time.
pub(crate) fn settle_shift<V: View>(
    alloc: Global,
    view: &V,
    call: &Call<'_>,
    reads: Vec<NodeId>,
    shift: Shift,
) -> Result<Draft, EvalStop>
    requires call { IsCall call.now }
    requires looked { AreLookedAt (V.held view.now) (V.shown view.now) reads.items }
    requires shift { IsShiftOf (V.shown view.now) call.now reads.items shift }
    ensures { Answers (V.held view.now) (V.shown view.now) call.now result }
{
    let writes = written(alloc, &shift)?;
    if let Some(need) = unheld(view, writes.as_slice()) {
        return Err(EvalStop::Need(need));
    }
    Ok(shifted(alloc, call, reads, writes, shift)?)
}
