//! One end of a rename: the directory in which its path stands, and what stands there.
ghost use Rattle.std.specs.Prelude.{◌≡◌, ◌≢◌, [], Err, IfOk};
ghost use Rattle.dir_rename.specs.Ends.{seen_in, IsLooked, NeedsLook};
ghost use Rattle.inode_tree.specs.declared.draft.EvalStop.TheVariants as stop;
ghost use Rattle.inode_tree.specs.declared.need.Need.{Need};
ghost use Rattle.namespace_model.specs.declared.code.Code.{Code};
ghost use Rattle.path_walk.specs.Calls.{GoesOn};
ghost use Rattle.path_walk.specs.Parents.{IsParent};

use acl_text::Perm;
use inode_tree::{EvalStop, NodeId, View};
use namespace_model::{Caller, Code, Reply};
use path_order::Seen;
use path_text::{Name, Path};
use path_walk::{Base, Entered, Find, Found, Parent, enter, lacks, look_below, stop_reply};
use std::alloc::Global;

// The directory of a path, which lets the caller change it, and what stands at the path.
#[derive(Drop)]
pub(crate) struct Spot<'a> {
    // The nodes that were read.
    pub(crate) reads: Vec<NodeId>,
    // The directory.
    pub(crate) base: Base,
    // The name of the path there.
    pub(crate) name: &'a Name,
    // The node of the path, where one is there.
    pub(crate) found: Option<Seen>,
}

// What a look at an end comes to.
#[derive(Drop)]
pub(crate) enum Looked<'a> {
    // The directory was reached, and lets the caller change it.
    At(Spot<'a>),
    // Or this is the answer, behind these nodes that were read.
    Ended(Vec<NodeId>, Reply),
}

// Goes the way to the directory of a path, asks it for write and execute, and looks at the node of the path. The code is that of a
// directory that isn't there. Each node is looked at, for which its stripe has to be held at least shared: where it isn't, the answer is
// `Need`. Want of memory may come at any time.
pub(crate) fn look_at<'a, V: View>(
    alloc: Global,
    view: &mut V,
    caller: &Caller,
    path: &'a Path,
    code: Code,
) -> Result<Looked<'a>, EvalStop>
    requires below { path.now ≢ [] }
    ensures on { GoesOn (V.held view.old) (V.held view.new) (V.over view.old) (V.over view.new) (V.shown view.old) (V.shown view.new) }
    ensures looked { IfOk result (IsLooked (V.held view.new) (V.shown view.new) caller.now code path.now) }
    ensures need { (n : Need) → result ≡ Err (stop.Need n) → NeedsLook (V.held view.new) (V.shown view.new) caller.now code path.now n }
{
    match enter(alloc, view, path, caller) {
        Ok(Entered::At(at)) => look_in(alloc, view, caller, path, at),
        Ok(Entered::Ended(ids, end)) => Ok(Looked::Ended(ids, stop_reply(alloc, code, end))),
        Err(stop) => Err(stop),
    }
}

// The same in the directory, which was reached.
fn look_in<'a, V: View>(
    alloc: Global,
    view: &mut V,
    caller: &Caller,
    path: &'a Path,
    at: Parent<'a>,
) -> Result<Looked<'a>, EvalStop>
    requires below { path.now ≢ [] }
    requires parent { IsParent (V.held view.old) (V.shown view.old) caller.now path.now at }
    ensures on { GoesOn (V.held view.old) (V.held view.new) (V.over view.old) (V.over view.new) (V.shown view.old) (V.shown view.new) }
    ensures looked { (code : Code) → IfOk result (IsLooked (V.held view.new) (V.shown view.new) caller.now code path.now) }
    ensures need { (code : Code) (n : Need) → result ≡ Err (stop.Need n) → NeedsLook (V.held view.new) (V.shown view.new) caller.now code path.now n }
{
    let dir = path.parent(alloc)?;
    if let Some(reply) = lacks(alloc, caller, Perm::WRITE_EXECUTE, &dir, &at.node)? {
        return Ok(Looked::Ended(at.reads, reply));
    }
    match look_below(view, at.reads, &at.node, at.name) {
        Ok(Find { ids, found }) => Ok(Looked::At(Spot {
            reads: ids,
            base: Base {
                id: at.id,
                node: at.node,
            },
            name: at.name,
            found: seen_in(found),
        })),
        Err(stop) => Err(stop),
    }
}

// The node that was found.
fn seen_in(found: Found) -> Option<Seen>
    ensures { result ≡ seen_in found }
{
    match found {
        Found::Node(id, node) => Some(Seen { id, node }),
        _ => None,
    }
}
