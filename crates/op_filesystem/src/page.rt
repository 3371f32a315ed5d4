//! A page of filesystems.
ghost use Rattle.std.specs.Prelude.{◌≡◌, ◌≤◌, ◌∷◌, [], true, Err, option_map, IfOk};
ghost use Rattle.inode_tree.specs.Inodes.{node_of};
ghost use Rattle.inode_tree.specs.Views.{IsKnown, shown_at};
ghost use Rattle.inode_tree.specs.declared.draft.EvalStop.TheVariants as stop;
ghost use Rattle.inode_tree.specs.declared.need.Need.{Need};
ghost use Rattle.path_order.specs.Starts.{IsAtFor};
ghost use Rattle.path_order.specs.Needs.{NeedsNode};
ghost use Rattle.path_text.specs.Names.{is_fs_name};
ghost use Rattle.path_walk.specs.Calls.{GoesOn};
ghost use Rattle.path_walk.specs.Visits.{IsHeldAndShown};
ghost use Rattle.op_filesystem.specs.Listed.{IsAccount, IsTold, IsListed, NeedsListed};

use super::names::next_named;
use body_text::filesystem_value;
use inode_tree::{EvalStop, NodeId, NodeRef, View};
use lock_core::LockMode;
use path_text::Name;
use serde_json::Value;
use std::alloc::{AllocError, Global};

// A page of filesystems that were looked at.
#[derive(Drop)]
pub(crate) struct Listed<'a> {
    // The ids of the account and of the roots, by name.
    pub(crate) reads: Vec<NodeId>,
    // What is told of each root.
    pub(crate) entries: Vec<Value>,
    // The name of the last one, where more are left.
    pub(crate) next: Option<&'a Name>,
}

// The filesystems whose names begin with a prefix and are greater than a name, if one is given, at most so many. Each
// of their roots is looked at, for which its stripe has to be held at least shared: where it isn't, the answer is
// `Need`. Want of memory may come at any time.
pub(crate) fn list<'a, V: View>(
    alloc: Global,
    view: &mut V,
    account: &'a NodeRef,
    prefix: &[u8],
    from: Option<&'a Name>,
    max: u32,
) -> Result<Listed<'a>, EvalStop>
    requires account { IsAccount (V.held view.old) (V.shown view.old) account.now }
    requires some { 1 ≤ max }
    ensures on { GoesOn (V.held view.old) (V.held view.new) (V.over view.old) (V.over view.new) (V.shown view.old) (V.shown view.new) }
    ensures listed { IfOk result
        (IsListed (V.held view.new) (V.shown view.new) prefix.now (option_map (λ n. n.now) from.entry) max) }
    ensures need { (n : Need) → result ≡ Err (stop.Need n)
        → NeedsListed (V.held view.new) (V.shown view.new) prefix.now (option_map (λ n. n.now) from.entry) max n }
{
    let mut reads = Vec::new(alloc);
    reads.push(NodeId(0))?;
    let mut entries = Vec::new(alloc);
    let mut last = from;
    for _count in 0..max {
        let found = next_named(account, prefix, last)?;
        match found {
            Some((name, id)) => {
                let root = match look(view, id) {
                    Ok(root) => root,
                    Err(stop) => return Err(stop),
                };
                let value = told(alloc, view, name, &root)?;
                reads.push(id)?;
                entries.push(value)?;
                last = Some(name);
            }
            None => {
                return Ok(Listed {
                    reads,
                    entries,
                    next: None,
                });
            }
        }
    }
    let left = next_named(account, prefix, last)?;
    match left {
        Some(_) => Ok(Listed {
            reads,
            entries,
            next: last,
        }),
        None => Ok(Listed {
            reads,
            entries,
            next: None,
        }),
    }
}

// A look at a node, shared.
pub(crate) fn look<V: View>(view: &mut V, id: NodeId) -> Result<NodeRef, EvalStop>
    requires known { IsKnown (V.shown view.old) id.0 }
    ensures on { GoesOn (V.held view.old) (V.held view.new) (V.over view.old) (V.over view.new) (V.shown view.old) (V.shown view.new) }
    ensures looks { IfOk result (λ node. shown_at (V.shown view.new) id.0 ≡ Some node) }
    ensures held { IfOk result (λ node. IsHeldAndShown (V.held view.new) (V.shown view.new) id.0) }
    ensures need { (n : Need) → result ≡ Err (stop.Need n) → NeedsNode (V.held view.new) id.0 n }
{
    let node = view.get(id, LockMode::Shared)?;
    Ok(node)
}

// What is told of a root that was looked at.
fn told<V: View>(alloc: Global, view: &V, name: &Name, root: &NodeRef) -> Result<Value, AllocError>
    requires root { IsAtFor (V.shown view.now) (name.now ∷ []) root.now }
    ensures told { IfOk result (IsTold name.now (node_of root.now)) }
    ensures named { is_fs_name name.now ≡ true }
{
    view.stands();
    filesystem_value(alloc, name, root.number(), root.inode().meta.moment)
}
