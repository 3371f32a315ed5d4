//! The root of a filesystem on which the superuser calls.
ghost use Rattle.std.specs.Prelude.{◌≡◌, Err, IfOk};
ghost use Rattle.inode_tree.specs.declared.draft.EvalStop.TheVariants as stop;
ghost use Rattle.inode_tree.specs.declared.need.Need.{Need};
ghost use Rattle.op_filesystem.specs.Roots.{AsksRoot, IsReached};
ghost use Rattle.path_walk.specs.Calls.{IsCall, Answers, GoesOn};

use inode_tree::{Draft, EvalStop, NodeId, View};
use namespace_model::Code;
use path_order::Seen;
use path_walk::{Call, Find, Found, answered, look_up, refusal, superuser_only};
use std::alloc::Global;

// Where a call on a filesystem comes.
#[derive(Drop)]
pub(crate) enum Reached {
    // To the root of its path, behind these nodes that were read, the root among them.
    Root(Vec<NodeId>, Seen),
    // To this answer, before it.
    Ended(Draft),
}

// Asks whether the caller is the superuser, and looks at the root of the call's path.
pub(crate) fn find_root<V: View>(
    alloc: Global,
    view: &mut V,
    call: &Call<'_>,
) -> Result<Reached, EvalStop>
    requires call { IsCall call.now }
    requires operation { AsksRoot call.now }
    ensures on { GoesOn (V.held view.old) (V.held view.new) (V.over view.old) (V.over view.new) (V.shown view.old) (V.shown view.new) }
    ensures reached { IfOk result (IsReached (V.held view.new) (V.shown view.new) call.now) }
    ensures need { (n : Need) → result ≡ Err (stop.Need n)
        → Answers (V.held view.new) (V.shown view.new) call.now (Err (stop.Need n)) }
{
    if let Some(reply) = superuser_only(alloc, call.caller, call.path)? {
        let draft = answered(alloc, Vec::new(alloc), reply, call.request.close)?;
        return Ok(Reached::Ended(draft));
    }
    match look_up(alloc, view, call.path, call.caller) {
        Ok(Find { ids, found }) => match found {
            Found::Node(id, node) => Ok(Reached::Root(ids, Seen { id, node })),
            _ => {
                let reply = refusal(alloc, Code::FilesystemNotFound);
                Ok(Reached::Ended(answered(alloc, ids, reply, call.request.close)?))
            }
        },
        Err(stop) => Err(stop),
    }
}
