//! What a recursive delete asks of one directory.
ghost use Rattle.std.specs.Prelude.{◌≡◌, ◌≢◌, [], ◌∷◌, ◌++◌, Some, Err, IfOk};
ghost use Rattle.inode_tree.specs.Inodes.{node_of};
ghost use Rattle.inode_tree.specs.Views.{IsKnown, shown_at};
ghost use Rattle.inode_tree.specs.declared.draft.EvalStop.TheVariants as stop;
ghost use Rattle.inode_tree.specs.declared.need.Need.{Need};
ghost use Rattle.namespace_model.specs.Refusals.{is_guarded};
ghost use Rattle.op_delete.specs.Deletes.{AsksNode, AsksChildren};
ghost use Rattle.path_order.specs.Starts.{IsAtFor};
ghost use Rattle.path_order.specs.Subtrees.{NeedsSubtree};
ghost use Rattle.path_order.specs.Needs.{NeedsNode};
ghost use Rattle.path_walk.specs.Calls.{GoesOn};

use acl_text::Perm;
use inode_tree::{EvalStop, NodeId, NodeRef, View};
use lock_core::LockMode;
use namespace_model::{Caller, Reply};
use path_text::{Name, Path};
use path_walk::{child_above, guarded, has_children, lacks};
use std::alloc::{AllocError, Global};

// What a recursive delete asks of the node at a path: of a directory that isn't empty all three rights, and then the sticky rule for each
// of its children by name. The children are looked at where the directory is sticky, for which their stripes have to be held at least
// shared: where one isn't, the answer is `Need`. Want of memory may come at any time.
pub(crate) fn ask_node<V: View>(
    alloc: Global,
    view: &mut V,
    caller: &Caller,
    at: &Path,
    node: &NodeRef,
) -> Result<Option<Reply>, EvalStop>
    requires below { at.now ≢ [] }
    requires node { IsAtFor (V.shown view.old) at.now node.now }
    ensures on { GoesOn (V.held view.old) (V.held view.new) (V.over view.old) (V.over view.new) (V.shown view.old) (V.shown view.new) }
    ensures asks { IfOk result (AsksNode (V.shown view.new) caller.now at.now node.now) }
    ensures need { (n : Need) → result ≡ Err (stop.Need n) → NeedsSubtree (V.held view.new) (V.shown view.new) at.now n }
{
    if !has_children(node) {
        return Ok(None);
    }
    if let Some(reply) = lacks(alloc, caller, Perm::ALL, at, node)? {
        return Ok(Some(reply));
    }
    if !node.inode().meta.sticky {
        return Ok(None);
    }
    ask_children(alloc, view, caller, at, node)
}

// The sticky rule for each child of a directory, by name.
fn ask_children<V: View>(
    alloc: Global,
    view: &mut V,
    caller: &Caller,
    at: &Path,
    node: &NodeRef,
) -> Result<Option<Reply>, EvalStop>
    requires below { at.now ≢ [] }
    requires node { IsAtFor (V.shown view.old) at.now node.now }
    ensures on { GoesOn (V.held view.old) (V.held view.new) (V.over view.old) (V.over view.new) (V.shown view.old) (V.shown view.new) }
    ensures asks { IfOk result (AsksChildren (V.shown view.new) caller.now at.now node.now) }
    ensures need { (n : Need) → result ≡ Err (stop.Need n) → NeedsSubtree (V.held view.new) (V.shown view.new) at.now n }
{
    let mut last: Option<&Name> = None;
    for _count in 0..u64::MAX {
        match child_above(node, last) {
            Some((name, id)) => {
                let child = match look(view, id) {
                    Ok(child) => child,
                    Err(stop) => return Err(stop),
                };
                if let Some(reply) = ask_child(alloc, caller, node, at, name, &child)? {
                    return Ok(Some(reply));
                }
                last = Some(name);
            }
            None => return Ok(None),
        }
    }
    Err(EvalStop::NoMemory)
}

// A look at a node, shared.
fn look<V: View>(view: &mut V, id: NodeId) -> Result<NodeRef, EvalStop>
    requires known { IsKnown (V.shown view.old) id.0 }
    ensures on { GoesOn (V.held view.old) (V.held view.new) (V.over view.old) (V.over view.new) (V.shown view.old) (V.shown view.new) }
    ensures looks { IfOk result (λ node. shown_at (V.shown view.new) id.0 ≡ Some node) }
    ensures need { (n : Need) → result ≡ Err (stop.Need n) → NeedsNode (V.held view.new) id.0 n }
{
    let node = view.get(id, LockMode::Shared)?;
    Ok(node)
}

// The sticky rule for the child of a name. The path is made anew for it.
fn ask_child(
    alloc: Global,
    caller: &Caller,
    dir: &NodeRef,
    at: &Path,
    name: &Name,
    child: &NodeRef,
) -> Result<Option<Reply>, AllocError>
    requires below { at.now ≢ [] }
    ensures { IfOk result (λ reply. reply ≡ is_guarded caller.now (node_of dir.now) (at.now ++ name.now ∷ []) (node_of child.now)) }
{
    let path = at.child(alloc, name)?;
    guarded(alloc, caller, dir, &path, child)
}
