ghost use Rattle.std.specs.Prelude.{◌≡◌, ◌≤◌, ◌<◌, ◌^◌, true, [], None, IfOk};
ghost use Rattle.inode_tree.specs.Promises.{IsEvaluated};
ghost use Rattle.lease_state.specs.declared.lease.TheConstants.{LAST_MOMENT};
ghost use Rattle.namespace_model.specs.declared.op.Op.TheVariants as op;
ghost use Rattle.namespace_model.specs.Replies.{success};
ghost use Rattle.namespace_model.specs.Sound.{IsSound};
ghost use Rattle.op_delete.specs.Deletes.{IsOfDelete, IsTarget, refusal_of};
ghost use Rattle.path_walk.specs.Calls.{IsCall, Answers, GoesOn};
ghost use Rattle.path_walk.specs.Parents.{IsParent};
ghost use Rattle.path_walk.specs.Settles.{IsRemovalOf};
ghost use Rattle.path_walk.specs.Visits.{AreLookedAt};

use super::clear::{Cleared, look_through};
use acl_text::Perm;
use inode_tree::{Draft, EvalStop, Fresh, NodeId, View};
use namespace_model::{Code, Op, Reply, Request};
use path_order::Seen;
use path_text::Name;
use path_walk::{
    Base, Call, Entered, Find, Found, Parent, Removal, answered, enter, guarded, has_children,
    lacks_above, lease_refuses, look_below, refusal, refuse_if, settle_removal, stop_reply,
    success, unmet,
};
use std::alloc::{AllocError, Global};

// A node that is to be taken away, as it was found.
#[derive(Drop)]
pub(crate) struct Target<'a> {
    // The nodes that were read.
    pub(crate) reads: Vec<NodeId>,
    // The directory in which it stands.
    pub(crate) base: Base,
    // Its name there.
    pub(crate) name: &'a Name,
    // The node.
    pub(crate) top: Seen,
}

/// Works out what a request to delete a file or a directory replies and changes at this moment, in milliseconds since 1970 (Path - Delete
/// of the REST reference). The nodes from the account to the path are read, and where the call is recursive all that stands below it, for
/// which their stripes have to be held at least shared; where nodes are taken away, their stripes and that of their directory have to be
/// held exclusively. Where one isn't held so, the answer is `Need`; want of memory may come at any time.
///
/// The request is a sound one to delete a node, and the moment has a date. No ids are drawn.
pub fn eval_delete<V: View>(
    alloc: Global,
    view: &mut V,
    request: &Request,
    moment: u64,
    fresh: &Fresh,
) -> Result<Draft, EvalStop>
    requires operation { IsOfDelete request.now.op }
    requires sound { IsSound request.now }
    requires moment { moment ≤ LAST_MOMENT }
    requires pass { fresh.now.pass < 64 }
    requires used { fresh.now.used < 2 ^ 40 }
    ensures on { GoesOn (V.held view.old) (V.held view.new) (V.over view.old) (V.over view.new) (V.shown view.old) (V.shown view.new) }
    ensures evaluated { IsEvaluated (V.held view.old) (V.shown view.new) request.now moment fresh.now result }
{
    match (&request.op, &request.caller) {
        (Op::Delete { path, recursive }, Some(caller)) => {
            let call = Call {
                request,
                caller,
                path,
                moment,
                fresh: *fresh,
            };
            delete(alloc, view, &call, *recursive)
        }
        _ => unreachable!(),
    }
}

// The way to the parent of the path.
fn delete<V: View>(
    alloc: Global,
    view: &mut V,
    call: &Call<'_>,
    recursive: bool,
) -> Result<Draft, EvalStop>
    requires call { IsCall call.now }
    requires operation { call.now.request.now.op ≡ op.Delete call.now.path.now recursive }
    ensures on { GoesOn (V.held view.old) (V.held view.new) (V.over view.old) (V.over view.new) (V.shown view.old) (V.shown view.new) }
    ensures evaluated { Answers (V.held view.new) (V.shown view.new) call.now result }
{
    match enter(alloc, view, call.path, call.caller) {
        Ok(Entered::At(at)) => delete_in(alloc, view, call, recursive, at),
        Ok(Entered::Ended(ids, end)) => Ok(answered(
            alloc,
            ids,
            stop_reply(alloc, Code::PathNotFound, end),
            call.request.close,
        )?),
        Err(stop) => Err(stop),
    }
}

// The same in the parent, which was looked at: the rights on it, and the look at the node.
fn delete_in<V: View>(
    alloc: Global,
    view: &mut V,
    call: &Call<'_>,
    recursive: bool,
    at: Parent<'_>,
) -> Result<Draft, EvalStop>
    requires call { IsCall call.now }
    requires operation { call.now.request.now.op ≡ op.Delete call.now.path.now recursive }
    requires parent { IsParent (V.held view.old) (V.shown view.old) call.now.caller.now call.now.path.now at }
    ensures on { GoesOn (V.held view.old) (V.held view.new) (V.over view.old) (V.over view.new) (V.shown view.old) (V.shown view.new) }
    ensures evaluated { Answers (V.held view.new) (V.shown view.new) call.now result }
{
    let names = call.path.depth() - 1;
    let want = Perm::WRITE_EXECUTE;
    if let Some(reply) = lacks_above(alloc, call.caller, want, call.path, names, &at.node)? {
        return Ok(answered(alloc, at.reads, reply, call.request.close)?);
    }
    match look_below(view, at.reads, &at.node, at.name) {
        Ok(Find { ids, found }) => match found {
            Found::Node(id, node) => {
                let target = Target {
                    reads: ids,
                    base: Base {
                        id: at.id,
                        node: at.node,
                    },
                    name: at.name,
                    top: Seen { id, node },
                };
                delete_node(alloc, view, call, recursive, target)
            }
            _ => Ok(answered(
                alloc,
                ids,
                refusal(alloc, Code::PathNotFound),
                call.request.close,
            )?),
        },
        Err(stop) => Err(stop),
    }
}

// The same of a node that is there.
fn delete_node<V: View>(
    alloc: Global,
    view: &mut V,
    call: &Call<'_>,
    recursive: bool,
    target: Target<'_>,
) -> Result<Draft, EvalStop>
    requires call { IsCall call.now }
    requires operation { call.now.request.now.op ≡ op.Delete call.now.path.now recursive }
    requires target { IsTarget (V.held view.old) (V.shown view.old) call.now target }
    ensures on { GoesOn (V.held view.old) (V.held view.new) (V.over view.old) (V.over view.new) (V.shown view.old) (V.shown view.new) }
    ensures evaluated { Answers (V.held view.new) (V.shown view.new) call.now result }
{
    if let Some(reply) = refused(alloc, call, recursive, &target)? {
        return Ok(answered(alloc, target.reads, reply, call.request.close)?);
    }
    if recursive {
        return clear(alloc, view, call, target);
    }
    let mut taken = Vec::new(alloc);
    taken.push(target.top.id)?;
    let removal = Removal {
        base: target.base.id,
        name: target.name.copy(alloc)?,
        taken,
    };
    take_away(alloc, view, call, target.reads, removal)
}

// What is asked of the node: the sticky bit of its parent, the conditions, its lease, and unless the call is recursive that nothing stands
// below it.
fn refused(
    alloc: Global,
    call: &Call<'_>,
    recursive: bool,
    target: &Target<'_>,
) -> Result<Option<Reply>, AllocError>
    ensures { IfOk result (λ reply. reply ≡ refusal_of call.now recursive target.now.base.node target.now.top.node) }
{
    let node = &target.top.node;
    if let Some(reply) = guarded(alloc, call.caller, &target.base.node, call.path, node)? {
        return Ok(Some(reply));
    }
    if let Some(reply) = unmet(alloc, &call.request.cond, node) {
        return Ok(Some(reply));
    }
    if let Some(reply) = lease_refuses(alloc, call.request.lease, call.moment, node) {
        return Ok(Some(reply));
    }
    Ok(refuse_if(
        alloc,
        !recursive && has_children(node),
        Code::DirectoryNotEmpty,
    ))
}

// The node goes, and all that stands below it, which is read; or the first refusal of it is answered.
fn clear<V: View>(
    alloc: Global,
    view: &mut V,
    call: &Call<'_>,
    target: Target<'_>,
) -> Result<Draft, EvalStop>
    requires call { IsCall call.now }
    requires operation { call.now.request.now.op ≡ op.Delete call.now.path.now true }
    requires target { IsTarget (V.held view.old) (V.shown view.old) call.now target }
    requires passed { refusal_of call.now true target.base.node target.top.node ≡ None }
    ensures on { GoesOn (V.held view.old) (V.held view.new) (V.over view.old) (V.over view.new) (V.shown view.old) (V.shown view.new) }
    ensures evaluated { Answers (V.held view.new) (V.shown view.new) call.now result }
{
    let Target {
        mut reads,
        base,
        name,
        top,
    } = target;
    match look_through(alloc, view, call.caller, call.path, top) {
        Ok(Cleared { taken, refused }) => {
            reads.extend_from_slice(taken.as_slice())?;
            if let Some(reply) = refused {
                return Ok(answered(alloc, reads, reply, call.request.close)?);
            }
            let removal = Removal {
                base: base.id,
                name: name.copy(alloc)?,
                taken,
            };
            take_away(alloc, view, call, reads, removal)
        }
        Err(stop) => Err(stop),
    }
}

// These nodes go, once their stripes and that of their directory are held exclusively.
fn take_away<V: View>(
    alloc: Global,
    view: &V,
    call: &Call<'_>,
    reads: Vec<NodeId>,
    removal: Removal,
) -> Result<Draft, EvalStop>
    requires call { IsCall call.now }
    requires looked { AreLookedAt (V.held view.now) (V.shown view.now) reads.items }
    requires removal { IsRemovalOf (V.shown view.now) call.now reads.items removal (success 200 []) }
    ensures { Answers (V.held view.now) (V.shown view.now) call.now result }
{
    let reply = success(alloc, 200, Vec::new(alloc));
    settle_removal(alloc, view, call, reads, removal, reply)
}
