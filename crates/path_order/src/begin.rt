ghost use Rattle.std.specs.Prelude.{◌≡◌, ℕ, [], ◌∷◌, ◌++◌, Some, Err, IfOk, OnOk};
ghost use Rattle.inode_tree.specs.Parts.{child_of};
ghost use Rattle.inode_tree.specs.Views.{IsKnown};
ghost use Rattle.inode_tree.specs.declared.draft.EvalStop.TheVariants as stop;
ghost use Rattle.inode_tree.specs.declared.need.Need.{Need};
ghost use Rattle.namespace_model.specs.Trees.{Path};
ghost use Rattle.path_walk.specs.Calls.{GoesOn};
ghost use Rattle.path_walk.specs.Visits.{NeedsChild};
ghost use Rattle.path_order.specs.Starts.{IsRoot, IsAtFor, IsLookAt, IsStart, NeedsOnTheWay};

use super::cursor::{Cursor, Level, Seen};
use inode_tree::{EvalStop, NodeRef, View};
use lock_core::LockMode;
use path_text::Name;
use path_walk::child_of;
use std::alloc::{AllocError, Global};

/// A walk that begins behind a path, and the nodes that were looked at on the way there.
#[derive(Drop)]
pub struct Start {
    /// The walk.
    pub cursor: Cursor,
    /// The nodes on the way to the path, in path order.
    pub seen: Vec<Seen>,
}

/// A walk below a node, behind the path to which these names lead from it, whether it is there or not. Each node on the
/// way to it that is there is looked at, for which its stripe has to be held at least shared: where it isn't, the answer is
/// `Need`. `NoMemory` may come at any time.
pub fn behind<V: View>(
    alloc: Global,
    view: &mut V,
    root: NodeRef,
    names: &[Name],
) -> Result<Start, EvalStop>
    requires root { IsRoot (V.shown view.old) root }
    ensures on { GoesOn (V.held view.old) (V.held view.new) (V.over view.old) (V.over view.new) (V.shown view.old) (V.shown view.new) }
    ensures start { IfOk result (λ start. (p : Path) → IsAtFor (V.shown view.old) p root
        → IsStart (V.held view.new) (V.shown view.new) p names.now start) }
    ensures need { (n : Need) → result ≡ Err (stop.Need n) → (p : Path) → IsAtFor (V.shown view.old) p root
        → NeedsOnTheWay (V.held view.new) (V.shown view.new) p (Some (p ++ names.now)) n }
{
    let mut seen = Vec::new(alloc);
    let mut levels = Vec::new(alloc);
    let mut node = root;
    for name in names {
        let found = match look_at(view, &node, name) {
            Ok(found) => found,
            Err(stop) => return Err(stop),
        };
        put_level(alloc, &mut levels, node, name)?;
        match found {
            None => {
                let cursor = Cursor {
                    ahead: None,
                    levels,
                };
                return Ok(Start { cursor, seen });
            }
            Some(child) => {
                node = child.node.copy()?;
                seen.push(child)?;
            }
        }
    }
    Ok(Start {
        cursor: Cursor {
            levels,
            ahead: Some(node),
        },
        seen,
    })
}

// Puts one level more behind these.
fn put_level(
    alloc: Global,
    levels: &mut Vec<Level>,
    node: NodeRef,
    name: &Name,
) -> Result<(), AllocError>
    ensures { OnOk result (levels.new.items ≡ levels.old.items ++ record { node = node; name = name.now } ∷ []) }
{
    levels.push(Level {
        node,
        name: name.copy(alloc)?,
    })?;
    Ok(())
}

// Looks at the child of a name of a node that was looked at, where it has one.
fn look_at<V: View>(view: &mut V, node: &NodeRef, name: &Name) -> Result<Option<Seen>, EvalStop>
    requires known { (child : ℕ) → child_of node.now name.now ≡ Some child → IsKnown (V.shown view.old) child }
    ensures on { GoesOn (V.held view.old) (V.held view.new) (V.over view.old) (V.over view.new) (V.shown view.old) (V.shown view.new) }
    ensures look { IfOk result (λ seen. IsLookAt (V.held view.new) (V.shown view.new) node.now name.now seen) }
    ensures need { (n : Need) → result ≡ Err (stop.Need n) → NeedsChild (V.held view.new) node.now name.now n }
{
    match child_of(node, name) {
        None => Ok(None),
        Some(id) => {
            let child = view.get(id, LockMode::Shared)?;
            Ok(Some(Seen { id, node: child }))
        }
    }
}
