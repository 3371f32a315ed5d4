//! A look through all that a recursive delete takes away.
ghost use Rattle.std.specs.Prelude.{◌≡◌, ◌≢◌, [], ◌++◌, Err, IfOk};
ghost use Rattle.inode_tree.specs.declared.draft.EvalStop.TheVariants as stop;
ghost use Rattle.inode_tree.specs.declared.need.Need.{Need};
ghost use Rattle.namespace_model.specs.Refusals.{or_else};
ghost use Rattle.op_delete.specs.Deletes.{AsksNode, IsCleared};
ghost use Rattle.path_order.specs.Cursors.{names_of};
ghost use Rattle.path_order.specs.Starts.{IsAtFor};
ghost use Rattle.path_order.specs.Subtrees.{IsTop, NeedsSubtree};
ghost use Rattle.path_walk.specs.Calls.{GoesOn};
ghost use Rattle.path_walk.specs.Visits.{IsHeldAndShown};

use super::directory::ask_node;
use inode_tree::{EvalStop, NodeId, NodeRef, View};
use namespace_model::{Caller, Reply};
use path_order::{Cursor, Seen, path_below};
use path_text::Path;
use std::alloc::{AllocError, Global};

// A subtree that was looked through.
#[derive(Drop)]
pub(crate) struct Cleared {
    // The ids of its nodes, in path order.
    pub(crate) taken: Vec<NodeId>,
    // The first refusal of one of them.
    pub(crate) refused: Option<Reply>,
}

// Looks through the node of a path, which was looked at, and all that stands below it, and asks each of them; all of it is looked at, also
// behind a refusal. Where a stripe isn't held at least shared, the answer is `Need`. Want of memory may come at any time.
pub(crate) fn look_through<V: View>(
    alloc: Global,
    view: &mut V,
    caller: &Caller,
    path: &Path,
    top: Seen,
) -> Result<Cleared, EvalStop>
    requires below { path.now ≢ [] }
    requires top { IsTop (V.shown view.old) path.now top }
    requires looked { IsHeldAndShown (V.held view.old) (V.shown view.old) top.id.0 }
    ensures on { GoesOn (V.held view.old) (V.held view.new) (V.over view.old) (V.over view.new) (V.shown view.old) (V.shown view.new) }
    ensures cleared { IfOk result (IsCleared (V.held view.new) (V.shown view.new) caller.now path.now) }
    ensures need { (n : Need) → result ≡ Err (stop.Need n) → NeedsSubtree (V.held view.new) (V.shown view.new) path.now n }
{
    let mut taken = Vec::new(alloc);
    taken.push(top.id)?;
    let mut refused = match ask_node(alloc, view, caller, path, &top.node) {
        Ok(refused) => refused,
        Err(stop) => return Err(stop),
    };
    let mut cursor = Cursor::start(alloc, top.node);
    for _count in 0..u64::MAX {
        match cursor.next(alloc, view) {
            Ok(Some(seen)) => {
                taken.push(seen.id)?;
                let reply = match ask_seen(alloc, view, caller, path, &cursor, &seen.node) {
                    Ok(reply) => reply,
                    Err(stop) => return Err(stop),
                };
                refused = first_of(refused, reply);
            }
            Ok(None) => return Ok(Cleared { taken, refused }),
            Err(stop) => return Err(stop),
        }
    }
    Err(EvalStop::NoMemory)
}

// The first of two refusals.
fn first_of(first: Option<Reply>, next: Option<Reply>) -> Option<Reply>
    ensures { result ≡ or_else first next }
{
    match first {
        Some(reply) => Some(reply),
        None => next,
    }
}

// What is asked of the node to which a walk below a path has come.
fn ask_seen<V: View>(
    alloc: Global,
    view: &mut V,
    caller: &Caller,
    path: &Path,
    cursor: &Cursor,
    node: &NodeRef,
) -> Result<Option<Reply>, EvalStop>
    requires below { path.now ≢ [] }
    requires node { IsAtFor (V.shown view.old) (path.now ++ names_of cursor.now) node.now }
    ensures on { GoesOn (V.held view.old) (V.held view.new) (V.over view.old) (V.over view.new) (V.shown view.old) (V.shown view.new) }
    ensures asks { IfOk result (AsksNode (V.shown view.new) caller.now (path.now ++ names_of cursor.now) node.now) }
    ensures need { (n : Need) → result ≡ Err (stop.Need n)
        → NeedsSubtree (V.held view.new) (V.shown view.new) (path.now ++ names_of cursor.now) n }
{
    let names = cursor.names(alloc)?;
    let at = path_below(alloc, path, names.as_slice())?;
    ask_node(alloc, view, caller, &at, node)
}
