//! A filesystem goes with all that is in it.
ghost use Rattle.std.specs.Prelude.{◌≡◌};
ghost use Rattle.namespace_model.specs.declared.op.Op.TheVariants as op;
ghost use Rattle.op_filesystem.specs.Roots.{IsRootReached};
ghost use Rattle.path_walk.specs.Calls.{IsCall, Answers, GoesOn};

use super::find::{Reached, find_root};
use inode_tree::{Draft, EvalStop, NodeId, View};
use path_order::{Seen, walk_subtree};
use path_walk::{Call, Removal, settle_removal, success};
use std::alloc::Global;

// The root and all that stands below it are taken out of the account.
pub(crate) fn delete_filesystem<V: View>(
    alloc: Global,
    view: &mut V,
    call: &Call<'_>,
) -> Result<Draft, EvalStop>
    requires call { IsCall call.now }
    requires operation { call.now.request.now.op ≡ op.DeleteFilesystem call.now.path.now }
    ensures on { GoesOn (V.held view.old) (V.held view.new) (V.over view.old) (V.over view.new) (V.shown view.old) (V.shown view.new) }
    ensures evaluated { Answers (V.held view.new) (V.shown view.new) call.now result }
{
    match find_root(alloc, view, call) {
        Ok(Reached::Root(reads, root)) => take_away(alloc, view, call, reads, root),
        Ok(Reached::Ended(draft)) => Ok(draft),
        Err(stop) => Err(stop),
    }
}

// The same where the root was found. All below it is looked at for its id, and only the account and the root are read.
fn take_away<V: View>(
    alloc: Global,
    view: &mut V,
    call: &Call<'_>,
    reads: Vec<NodeId>,
    root: Seen,
) -> Result<Draft, EvalStop>
    requires call { IsCall call.now }
    requires operation { call.now.request.now.op ≡ op.DeleteFilesystem call.now.path.now }
    requires root { IsRootReached (V.held view.old) (V.shown view.old) call.now reads.items root }
    ensures on { GoesOn (V.held view.old) (V.held view.new) (V.over view.old) (V.over view.new) (V.shown view.old) (V.shown view.new) }
    ensures evaluated { Answers (V.held view.new) (V.shown view.new) call.now result }
{
    let Some(name) = call.path.last_name() else {
        unreachable!()
    };
    match walk_subtree(alloc, view, root) {
        Ok(subtree) => {
            let removal = Removal {
                base: NodeId(0),
                name: name.copy(alloc)?,
                taken: subtree.ids(alloc)?,
            };
            let reply = success(alloc, 202, Vec::new(alloc));
            settle_removal(alloc, view, call, reads, removal, reply)
        }
        Err(stop) => Err(stop),
    }
}
