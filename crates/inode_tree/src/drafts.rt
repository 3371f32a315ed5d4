ghost use Rattle.std.specs.Prelude.{◌≡◌, ℕ, ◌%◌, ◌==◌, Bool, List, Option, Some, option_map, map, IfOk, OnOk, IsTrue};
ghost use Rattle.std.specs.Ordering.{nat_cmp};
ghost use Rattle.std.specs.FinMap as fin;
ghost use Rattle.std.specs.FinMap.{find, is_sorted};
ghost use Rattle.inode_tree.specs.Inodes.{BareInode};
ghost use Rattle.inode_tree.specs.Changes.{id_of, is_own, node_after, applied};
ghost use Rattle.inode_tree.specs.Stripes.{outcome_by, put_in};
ghost use Rattle.inode_tree.specs.Drafts.{bare_draft, shown, SameButAt, AreDrafts, IsDrafted};
ghost use Rattle.inode_tree.specs.declared.inode.Inode.{Inode};

use super::change::{Change, Edit};
use super::edits::{flushed, is_meta_of, linked, staged, unlinked};
use super::inode::Inode;
use super::node_ref::NodeRef;
use super::places::{place, put, take_out};
use std::alloc::{AllocError, Global};

// What is to stand at an id: no inode, or this one, and whether it asks for the number of the entry.
pub(crate) type Pending = Option<(Inode, bool)>;

// Whose node a change is of.
pub(crate) fn id_of(change: &Change) -> u64
    ensures { result ≡ id_of change.now }
{
    match change {
        Change::Put(id, _) => id.0,
        Change::Drop(id) => id.0,
        Change::Link(id, _, _) => id.0,
        Change::Unlink(id, _) => id.0,
        Change::Edit(id, _) => id.0,
    }
}

// Whether a change is of a node of the stripe.
fn is_own(stripe: u8, change: &Change) -> bool
    ensures { result ≡ is_own stripe change.now }
{
    id_of(change) % 64 == u64::from(stripe)
}

// What becomes of an inode by a change of it.
fn edited(alloc: Global, inode: Inode, asks: bool, change: &Change) -> Result<Pending, AllocError>
    ensures { IfOk result (λ after. (number : ℕ) → outcome_by number (bare_draft after) ≡ node_after number change.now (outcome_by number (bare_draft (Some (inode, asks))))) }
{
    let Inode { meta, content } = inode;
    match change {
        Change::Put(_, inode) => Ok(Some((inode.copy(alloc)?, true))),
        Change::Drop(_) => Ok(None),
        Change::Link(_, name, child) => Ok(Some((
            Inode {
                meta,
                content: linked(alloc, content, name, *child)?,
            },
            asks,
        ))),
        Change::Unlink(_, name) => Ok(Some((
            Inode {
                meta,
                content: unlinked(alloc, content, name)?,
            },
            asks,
        ))),
        Change::Edit(_, Edit::Meta(next, next_asks)) => {
            if !is_meta_of(&content, next) {
                return Ok(Some((Inode { meta, content }, asks)));
            }
            Ok(Some((
                Inode {
                    meta: next.copy(alloc)?,
                    content,
                },
                *next_asks,
            )))
        }
        Change::Edit(_, Edit::Stage(position, piece)) => Ok(Some((
            Inode {
                meta,
                content: staged(content, *position, piece)?,
            },
            asks,
        ))),
        Change::Edit(_, Edit::Flush(position, retain)) => Ok(Some((
            Inode {
                meta,
                content: flushed(content, *position, *retain)?,
            },
            asks,
        ))),
    }
}

// What stands at an id after the changes so far. Its draft is taken out, where there is one.
fn current(
    alloc: Global,
    nodes: &[(u64, NodeRef)],
    drafts: &mut Vec<(u64, Pending)>,
    id: u64,
) -> Result<Pending, AllocError>
    requires nodes { IsTrue (is_sorted nat_cmp nodes.now) }
    requires drafts { IsTrue (is_sorted nat_cmp drafts.old.items) }
    ensures sorted { IsTrue (is_sorted nat_cmp drafts.new.items) }
    ensures same { SameButAt id drafts.old.items drafts.new.items }
    ensures current { IfOk result (λ draft. (number : ℕ) → outcome_by number (bare_draft draft) ≡ shown number nodes.now drafts.old.items id) }
{
    match take_out(drafts, &id) {
        Some(draft) => Ok(draft),
        None => kept(alloc, nodes, id),
    }
}

// The node of an id as a draft.
fn kept(alloc: Global, nodes: &[(u64, NodeRef)], id: u64) -> Result<Pending, AllocError>
    requires { IsTrue (is_sorted nat_cmp nodes.now) }
    ensures { IfOk result (λ draft. (number : ℕ) → outcome_by number (bare_draft draft) ≡ find nat_cmp id nodes.now) }
{
    match place(nodes, &id) {
        Ok(at) => Ok(Some((nodes[at].1.copied_inode(alloc)?, false))),
        Err(_) => Ok(None),
    }
}

// What a change makes of what stands at its id.
fn drafted(
    alloc: Global,
    nodes: &[(u64, NodeRef)],
    drafts: &mut Vec<(u64, Pending)>,
    change: &Change,
) -> Result<Pending, AllocError>
    requires nodes { IsTrue (is_sorted nat_cmp nodes.now) }
    requires drafts { IsTrue (is_sorted nat_cmp drafts.old.items) }
    ensures sorted { IsTrue (is_sorted nat_cmp drafts.new.items) }
    ensures same { SameButAt (id_of change.now) drafts.old.items drafts.new.items }
    ensures after { IfOk result (λ draft. (number : ℕ) → outcome_by number (bare_draft draft) ≡ node_after number change.now (shown number nodes.now drafts.old.items (id_of change.now))) }
{
    match change {
        Change::Put(_, inode) => Ok(Some((inode.copy(alloc)?, true))),
        Change::Drop(_) => Ok(None),
        _ => match current(alloc, nodes, drafts, id_of(change))? {
            Some((inode, asks)) => edited(alloc, inode, asks, change),
            None => Ok(None),
        },
    }
}

// Adds what a change makes of the node of its id.
fn add_draft(
    alloc: Global,
    nodes: &[(u64, NodeRef)],
    drafts: &mut Vec<(u64, Pending)>,
    change: &Change,
) -> Result<(), AllocError>
    requires nodes { IsTrue (is_sorted nat_cmp nodes.now) }
    requires drafts { IsTrue (is_sorted nat_cmp drafts.old.items) }
    ensures sorted { IsTrue (is_sorted nat_cmp drafts.new.items) }
    ensures drafted { OnOk result (IsDrafted nodes.now change.now drafts.old.items drafts.new.items) }
{
    let draft = drafted(alloc, nodes, drafts, change)?;
    put(drafts, id_of(change), draft)
}

// What the changes of a stripe's own ids make of its nodes.
pub(crate) fn drafts_of(
    alloc: Global,
    stripe: u8,
    nodes: &[(u64, NodeRef)],
    changes: &[Change],
) -> Result<Vec<(u64, Pending)>, AllocError>
    requires { IsTrue (is_sorted nat_cmp nodes.now) }
    ensures { IfOk result (λ drafts. AreDrafts stripe nodes.now changes.now drafts.items) }
{
    let mut drafts = Vec::new(alloc);
    for change in changes {
        if is_own(stripe, change) {
            add_draft(alloc, nodes, &mut drafts, change)?;
        }
    }
    Ok(drafts)
}
