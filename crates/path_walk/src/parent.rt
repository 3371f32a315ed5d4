ghost use Rattle.std.specs.Prelude.{◌≡◌, ◌≢◌, [], ◌∷◌, ◌++◌, Err, IfOk};
ghost use Rattle.inode_tree.specs.declared.draft.EvalStop.TheVariants as stop;
ghost use Rattle.inode_tree.specs.declared.need.Need.{Need};
ghost use Rattle.namespace_model.specs.Trees.{parent};
ghost use Rattle.path_walk.specs.Calls.{GoesOn};
ghost use Rattle.path_walk.specs.Parents.{IsEntered};
ghost use Rattle.path_walk.specs.Visits.{IsOnTheWay};

use super::stop::{Base, End, Visit};
use super::way::visit;
use inode_tree::{EvalStop, NodeId, NodeRef, View};
use namespace_model::Caller;
use path_text::{Name, Path};
use std::alloc::Global;

/// The parent of a path, once it was reached and looked at.
#[derive(Drop)]
pub struct Parent<'a> {
    /// The nodes that were looked at, from the account to the parent.
    pub reads: Vec<NodeId>,
    /// The parent's id.
    pub id: NodeId,
    /// The look at it.
    pub node: NodeRef,
    /// The last name of the path.
    pub name: &'a Name,
}

/// Where the way to the parent of a path ends.
#[derive(Drop)]
pub enum Entered<'a> {
    /// At the parent.
    At(Parent<'a>),
    /// Before it, so, behind these nodes that were looked at.
    Ended(Vec<NodeId>, End),
}

/// Goes the way to the parent of a path, which is not the account's. Each node of the way is looked at, for which its stripe has to
/// be held at least shared: where it isn't, the answer is `Need`. Want of memory may come at any time.
pub fn enter<'a, V: View>(
    alloc: Global,
    view: &mut V,
    path: &'a Path,
    caller: &Caller,
) -> Result<Entered<'a>, EvalStop>
    requires below { path.now ≢ [] }
    ensures on { GoesOn (V.held view.old) (V.held view.new) (V.over view.old) (V.over view.new) (V.shown view.old) (V.shown view.new) }
    ensures entered { IfOk result (λ e. IsEntered (V.held view.new) (V.shown view.new) caller.now path.now e) }
    ensures need { (n : Need) → result ≡ Err (stop.Need n) → IsOnTheWay (V.held view.new) (V.shown view.new) caller.now path.now n }
{
    match visit(alloc, view, path, caller) {
        Ok(Visit { ids, base, end }) => match end {
            End::Reached => Ok(Entered::At(parent_at(ids.into_items(), base, path))),
            end => Ok(Entered::Ended(ids.into_items(), end)),
        },
        Err(stop) => Err(stop),
    }
}

/// The parent of a path that a visit reached, behind these nodes that were looked at. The path is not the account's. It takes no memory.
pub fn parent_at<'a>(reads: Vec<NodeId>, base: Base, path: &'a Path) -> Parent<'a>
    requires below { path.now ≢ [] }
    ensures reads { result.reads.items ≡ reads.items }
    ensures id { result.id ≡ base.id }
    ensures node { result.node ≡ base.node }
    ensures named { path.now ≡ parent path.now ++ result.name.now ∷ [] }
{
    match path.last_name() {
        Some(name) => Parent {
            reads,
            id: base.id,
            node: base.node,
            name,
        },
        None => unreachable!(),
    }
}
