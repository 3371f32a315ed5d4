//! A filesystem is made.
ghost use Rattle.std.specs.Prelude.{◌≡◌, None};
ghost use Rattle.namespace_model.specs.declared.op.Op.TheVariants as op;
ghost use Rattle.namespace_model.specs.Refusals.{is_no_superuser};
ghost use Rattle.path_walk.specs.Calls.{IsCall, Answers, GoesOn};
ghost use Rattle.path_walk.specs.Parents.{IsParent};

use super::drafts::{already_there, made};
use head_text::Props;
use inode_tree::{Draft, EvalStop, View};
use path_walk::{Call, Entered, Parent, answered, child_of, enter, superuser_only, unheld};
use std::alloc::Global;

// The superuser alone makes filesystems.
pub(crate) fn create_filesystem<V: View>(
    alloc: Global,
    view: &mut V,
    call: &Call<'_>,
    props: &Option<Props>,
) -> Result<Draft, EvalStop>
    requires operation { call.now.request.now.op ≡ op.CreateFilesystem call.now.path.now props.now }
    requires call { IsCall call.now }
    ensures on { GoesOn (V.held view.old) (V.held view.new) (V.over view.old) (V.over view.new) (V.shown view.old) (V.shown view.new) }
    ensures evaluated { Answers (V.held view.new) (V.shown view.new) call.now result }
{
    if let Some(reply) = superuser_only(alloc, call.caller, call.path)? {
        return Ok(answered(alloc, Vec::new(alloc), reply, call.request.close)?);
    }
    match enter(alloc, view, call.path, call.caller) {
        Ok(Entered::At(at)) => create_in(alloc, view, call, props, at),
        Ok(Entered::Ended(..)) => {
            view.stands();
            unreachable!()
        }
        Err(stop) => Err(stop),
    }
}

// The same for the superuser, once the account was looked at.
fn create_in<V: View>(
    alloc: Global,
    view: &V,
    call: &Call<'_>,
    props: &Option<Props>,
    at: Parent<'_>,
) -> Result<Draft, EvalStop>
    requires operation { call.now.request.now.op ≡ op.CreateFilesystem call.now.path.now props.now }
    requires call { IsCall call.now }
    requires allowed { is_no_superuser call.now.caller.now call.now.path.now ≡ None }
    requires parent { IsParent (V.held view.now) (V.shown view.now) call.now.caller.now call.now.path.now at }
    ensures { Answers (V.held view.now) (V.shown view.now) call.now result }
{
    if child_of(&at.node, at.name).is_some() {
        return Ok(already_there(alloc, call, at.reads)?);
    }
    let id = call.fresh.id(0);
    match unheld(view, &[at.id, id]) {
        Some(need) => Err(EvalStop::Need(need)),
        None => Ok(made(alloc, call, props, at, id)?),
    }
}
