ghost use Rattle.std.specs.Prelude.{◌≡◌, ◌≢◌, ℕ, [], Some, Err, IfOk};
ghost use Rattle.inode_tree.specs.Views.{IsKnown};
ghost use Rattle.inode_tree.specs.Parts.{child_of};
ghost use Rattle.inode_tree.specs.declared.draft.EvalStop.TheVariants as stop;
ghost use Rattle.inode_tree.specs.declared.need.Need.{Need};
ghost use Rattle.path_walk.specs.Calls.{GoesOn};
ghost use Rattle.path_walk.specs.Finds.{IsFindFor, IsNeedOfFind, IsLook};
ghost use Rattle.path_walk.specs.Visits.{AreLookedAt, NeedsChild};

use super::look::child_of;
use super::parent::{Entered, enter};
use super::stop::End;
use inode_tree::{EvalStop, NodeId, NodeRef, View};
use lock_core::LockMode;
use namespace_model::Caller;
use path_text::{Name, Path};
use std::alloc::Global;

/// What stands at a path.
#[derive(Drop)]
pub enum Found {
    /// The node of this id.
    Node(NodeId, NodeRef),
    /// Nothing, below a directory that is there.
    Nothing,
    /// The way to the parent ends before.
    Stopped(End),
}

/// A look at a path.
#[derive(Drop)]
pub struct Find {
    /// The nodes that were looked at, from the account on.
    pub ids: Vec<NodeId>,
    /// What stands at the path.
    pub found: Found,
}

/// Goes the way to a path, which is not the account's, and looks at its node. Each node is looked at, for which its stripe has to
/// be held at least shared: where it isn't, the answer is `Need`. Want of memory may come at any time.
pub fn look_up<V: View>(
    alloc: Global,
    view: &mut V,
    path: &Path,
    caller: &Caller,
) -> Result<Find, EvalStop>
    requires below { path.now ≢ [] }
    ensures on { GoesOn (V.held view.old) (V.held view.new) (V.over view.old) (V.over view.new) (V.shown view.old) (V.shown view.new) }
    ensures found { IfOk result (λ f. IsFindFor (V.shown view.new) caller.now path.now f) }
    ensures looked { IfOk result (λ f. AreLookedAt (V.held view.new) (V.shown view.new) f.ids.items) }
    ensures need { (n : Need) → result ≡ Err (stop.Need n) → IsNeedOfFind (V.held view.new) (V.shown view.new) caller.now path.now n }
{
    match enter(alloc, view, path, caller) {
        Ok(Entered::At(at)) => look_below(view, at.reads, &at.node, at.name),
        Ok(Entered::Ended(ids, end)) => Ok(Find {
            ids,
            found: Found::Stopped(end),
        }),
        Err(stop) => Err(stop),
    }
}

/// Looks at the child of a name of a directory that was looked at, behind these nodes that were read. The child is looked at, for which
/// its stripe has to be held at least shared: where it isn't, the answer is `Need`. Want of memory may come at any time.
pub fn look_below<V: View>(
    view: &mut V,
    mut ids: Vec<NodeId>,
    node: &NodeRef,
    name: &Name,
) -> Result<Find, EvalStop>
    requires known { (child : ℕ) → child_of node.now name.now ≡ Some child → IsKnown (V.shown view.old) child }
    ensures on { GoesOn (V.held view.old) (V.held view.new) (V.over view.old) (V.over view.new) (V.shown view.old) (V.shown view.new) }
    ensures look { IfOk result (λ f. IsLook (V.held view.new) (V.shown view.new) ids.items node.now name.now f) }
    ensures need { (n : Need) → result ≡ Err (stop.Need n) → NeedsChild (V.held view.new) node.now name.now n }
{
    match child_of(node, name) {
        None => Ok(Find {
            ids,
            found: Found::Nothing,
        }),
        Some(id) => {
            let child = view.get(id, LockMode::Shared)?;
            ids.push(id)?;
            Ok(Find {
                ids,
                found: Found::Node(id, child),
            })
        }
    }
}
