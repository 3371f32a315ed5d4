//! The root of a filesystem is shown, or has other properties from now on.
ghost use Rattle.std.specs.Prelude.{◌≡◌, ◌∷◌, [], IfOk, true};
ghost use Rattle.inode_tree.specs.Inodes.{node_of};
ghost use Rattle.inode_tree.specs.declared.change.Edit.TheVariants as edit;
ghost use Rattle.namespace_model.specs.declared.op.Op.TheVariants as op;
ghost use Rattle.namespace_model.specs.Replies.{success, stamp_fields};
ghost use Rattle.op_filesystem.specs.Roots.{shown_reply};
ghost use Rattle.path_walk.specs.Calls.{IsCall, Answers, GoesOn};
ghost use Rattle.path_walk.specs.Edits.{AreEdits};

use super::find::{Reached, find_root};
use head_text::Props;
use inode_tree::{Draft, EvalStop, NodeRef, View};
use namespace_model::{Field, Reply};
use path_walk::{
    Call, Verdict, one_edit, put_properties, put_stamps, settle, stamp, stamped, success,
};
use std::alloc::{AllocError, Global};

// The number, the moment and the properties of the root.
pub(crate) fn get_filesystem<V: View>(
    alloc: Global,
    view: &mut V,
    call: &Call<'_>,
) -> Result<Draft, EvalStop>
    requires call { IsCall call.now }
    requires operation { call.now.request.now.op ≡ op.GetFilesystem call.now.path.now }
    ensures on { GoesOn (V.held view.old) (V.held view.new) (V.over view.old) (V.over view.new) (V.shown view.old) (V.shown view.new) }
    ensures evaluated { Answers (V.held view.new) (V.shown view.new) call.now result }
{
    match find_root(alloc, view, call) {
        Ok(Reached::Root(reads, root)) => {
            let verdict = Verdict::Answer(shown(alloc, &root.node)?);
            settle(alloc, view, call, reads, root.id, verdict)
        }
        Ok(Reached::Ended(draft)) => Ok(draft),
        Err(stop) => Err(stop),
    }
}

// The properties of the root are replaced.
pub(crate) fn set_filesystem<V: View>(
    alloc: Global,
    view: &mut V,
    call: &Call<'_>,
    props: &Props,
) -> Result<Draft, EvalStop>
    requires call { IsCall call.now }
    requires operation { call.now.request.now.op ≡ op.SetFilesystem call.now.path.now props.now }
    ensures on { GoesOn (V.held view.old) (V.held view.new) (V.over view.old) (V.over view.new) (V.shown view.old) (V.shown view.new) }
    ensures evaluated { Answers (V.held view.new) (V.shown view.new) call.now result }
{
    match find_root(alloc, view, call) {
        Ok(Reached::Root(reads, root)) => {
            let verdict = replaced(alloc, call.moment, props, &root.node)?;
            settle(alloc, view, call, reads, root.id, verdict)
        }
        Ok(Reached::Ended(draft)) => Ok(draft),
        Err(stop) => Err(stop),
    }
}

// What the root is.
fn shown(alloc: Global, node: &NodeRef) -> Result<Reply, AllocError>
    ensures { IfOk result (λ reply. reply ≡ shown_reply (node_of node.now)) }
{
    let mut fields: Vec<Field> = Vec::new(alloc);
    put_stamps(&mut fields, node)?;
    put_properties(alloc, &mut fields, node, false)?;
    fields.push(Field::NamespaceEnabled)?;
    Ok(success(alloc, 200, fields))
}

// The edit by which the root has these properties, stamped with the moment.
fn replaced(
    alloc: Global,
    moment: u64,
    props: &Props,
    node: &NodeRef,
) -> Result<Verdict, AllocError>
    ensures { IfOk result (AreEdits
        (edit.Meta (record node.now.meta { props = props.now; moment = moment }) true ∷ [])
        (success 200 (stamp_fields moment))) }
{
    let mut meta = node.meta(alloc)?;
    meta.props = props.copy(alloc)?;
    let reply = stamped(alloc, 200, moment)?;
    one_edit(alloc, stamp(meta, moment), reply)
}
