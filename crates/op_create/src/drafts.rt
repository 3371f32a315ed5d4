//! The draft by which new nodes come to stand.
ghost use Rattle.std.specs.Prelude.{◌≡◌, ◌≤◌, ◌<◌, ◌^◌, ◌++◌, length, IfOk};
ghost use Rattle.inode_tree.specs.Drawing.{next_ids};
ghost use Rattle.op_create.specs.Creates.{making_of};
ghost use Rattle.op_create.specs.Chains.{maker_of, chained, dropped, to_write, IsMade};

use super::nodes::{NewNode, next_inode};
use super::place::Place;
use inode_tree::{Change, Draft, Fresh, NodeId};
use path_walk::{Call, closing, stamped};
use std::alloc::{AllocError, Global};

// So many of the ids that are still to be given.
pub(crate) fn drawn(alloc: Global, fresh: &Fresh, many: usize) -> Result<Vec<NodeId>, AllocError>
    requires pass { fresh.now.pass < 64 }
    requires used { fresh.now.used < 2 ^ 40 }
    requires many { many ≤ 60 }
    ensures { IfOk result (λ ids. ids.items ≡ next_ids fresh.now.pass fresh.now.used many) }
{
    let mut ids = Vec::new(alloc);
    for place in 0..many {
        ids.push(fresh.id(place as u32))?;
    }
    Ok(ids)
}

// The nodes that are to be written.
pub(crate) fn written(
    alloc: Global,
    place: &Place<'_>,
    ids: &[NodeId],
) -> Result<Vec<NodeId>, AllocError>
    ensures { IfOk result (λ writes. writes.items ≡ to_write place.now.base.id place.now.replaced ids.now) }
{
    let mut writes = Vec::new(alloc);
    writes.push(place.base.id)?;
    if let Some(old) = place.replaced {
        writes.push(old)?;
    }
    writes.extend_from_slice(ids)?;
    Ok(writes)
}

// What stood at the path goes.
fn dropped(alloc: Global, replaced: Option<NodeId>) -> Result<Vec<Change>, AllocError>
    ensures { IfOk result (λ changes. changes.items ≡ dropped replaced) }
{
    let mut changes = Vec::new(alloc);
    if let Some(old) = replaced {
        changes.push(Change::Drop(old))?;
    }
    Ok(changes)
}

// The nodes of the place come to stand under these ids, each below the one before it.
fn changes(
    alloc: Global,
    call: &Call<'_>,
    new: &NewNode<'_>,
    place: &Place<'_>,
    ids: &[NodeId],
) -> Result<Vec<Change>, AllocError>
    requires many { length ids.now ≡ length place.now.names.now }
    ensures { IfOk result (λ changes. changes.items
        ≡ dropped place.now.replaced ++ chained (maker_of call.now) (making_of call.now new.now) place.now.base.node.meta.group place.now.base.node.meta.acl place.now.base.id place.now.names.now ids.now) }
{
    let meta = &place.base.node.inode().meta;
    let names = place.names;
    let mut changes = dropped(alloc, place.replaced)?;
    let mut acl = meta.acl.copy(alloc)?;
    let mut above = place.base.id;
    for i in 0..names.len() {
        let last = i + 1 == names.len();
        let inode = next_inode(alloc, call, new, &meta.group, &acl, last)?;
        acl = inode.meta.acl.copy(alloc)?;
        changes.push(Change::Link(above, names[i].copy(alloc)?, ids[i]))?;
        changes.push(Change::Put(ids[i], inode))?;
        above = ids[i];
    }
    Ok(changes)
}

// The nodes of the place come to stand.
pub(crate) fn made(
    alloc: Global,
    call: &Call<'_>,
    new: &NewNode<'_>,
    place: Place<'_>,
    ids: Vec<NodeId>,
    writes: Vec<NodeId>,
) -> Result<Draft, AllocError>
    requires many { length ids.items ≡ length place.names.now }
    requires few { length place.names.now ≤ 60 }
    ensures { IfOk result (λ draft. IsMade call.now new.now place.entry ids.items writes.items draft) }
{
    let drawn = ids.len() as u32;
    let changes = changes(alloc, call, new, &place, ids.as_slice())?;
    let reply = stamped(alloc, 201, call.moment)?;
    Ok(Draft {
        reply: closing(alloc, reply, call.request.close)?,
        reads: place.reads,
        writes,
        changes,
        drawn,
    })
}
