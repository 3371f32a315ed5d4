ghost use Rattle.std.specs.Prelude.{◌≡◌, ◌≤◌, ◌<◌, ◌^◌, Some, IfOk};
ghost use Rattle.inode_tree.specs.Promises.{IsEvaluated};
ghost use Rattle.lease_state.specs.declared.lease.TheConstants.{LAST_MOMENT};
ghost use Rattle.namespace_model.specs.Sound.{IsSound};
ghost use Rattle.op_meta.specs.Metas.{IsOfMeta, IsVerdictOfNode};
ghost use Rattle.path_walk.specs.Calls.{IsCall, Answers, GoesOn, path_of};

use super::access::{Setting, check_access, get_access, set_access};
use super::leases::act_on_lease;
use super::properties::{get_properties, set_properties};
use inode_tree::{Draft, EvalStop, Fresh, NodeRef, View};
use namespace_model::{Caller, Code, Op, Request};
use path_text::Path;
use path_walk::{
    Call, Find, Found, Verdict, answered, look_up, missing_code, refusal, settle, stop_reply,
};
use std::alloc::{AllocError, Global};

/// Works out what a request on what is kept of a node replies and changes at this moment, in milliseconds since 1970 (of the REST
/// reference Path - Get Properties, also with action=getAccessControl or action=checkAccess; Path - Update with action=setProperties or
/// action=setAccessControl; Path - Lease). The nodes from the account to the path are read, for which their stripes have to be held at
/// least shared; where the node is changed, its stripe has to be held exclusively. Where one isn't held so, the answer is `Need`; want of
/// memory may come at any time.
///
/// The request is a sound one of these, and the moment has a date. No ids are drawn.
pub fn eval_meta<V: View>(
    alloc: Global,
    view: &mut V,
    request: &Request,
    moment: u64,
    fresh: &Fresh,
) -> Result<Draft, EvalStop>
    requires operation { IsOfMeta request.now.op }
    requires sound { IsSound request.now }
    requires moment { moment ≤ LAST_MOMENT }
    requires pass { fresh.now.pass < 64 }
    requires used { fresh.now.used < 2 ^ 40 }
    ensures on { GoesOn (V.held view.old) (V.held view.new) (V.over view.old) (V.over view.new) (V.shown view.old) (V.shown view.new) }
    ensures evaluated { IsEvaluated (V.held view.old) (V.shown view.new) request.now moment fresh.now result }
{
    let call = Call {
        request,
        caller: caller_of(request),
        path: path_of(&request.op),
        moment,
        fresh: *fresh,
    };
    carry_out(alloc, view, &call)
}

// Who asks; a sound one of these requests has a caller.
fn caller_of(request: &Request) -> &Caller
    requires operation { IsOfMeta request.now.op }
    requires sound { IsSound request.now }
    ensures { request.now.caller ≡ Some result.now }
{
    match &request.caller {
        Some(caller) => caller,
        None => unreachable!(),
    }
}

// The path of one of these operations.
fn path_of(op: &Op) -> &Path
    requires { IsOfMeta op.now }
    ensures { result.now ≡ path_of op.now }
{
    match op {
        Op::GetProperties { path, .. } => path,
        Op::GetAccess { path } => path,
        Op::CheckAccess { path, .. } => path,
        Op::SetProperties { path, .. } => path,
        Op::SetAccess { path, .. } => path,
        Op::Lease { path, .. } => path,
        _ => unreachable!(),
    }
}

// The node of the path is looked up, and what comes of it is settled.
fn carry_out<V: View>(alloc: Global, view: &mut V, call: &Call<'_>) -> Result<Draft, EvalStop>
    requires call { IsCall call.now }
    requires operation { IsOfMeta call.now.request.now.op }
    ensures on { GoesOn (V.held view.old) (V.held view.new) (V.over view.old) (V.over view.new) (V.shown view.old) (V.shown view.new) }
    ensures evaluated { Answers (V.held view.new) (V.shown view.new) call.now result }
{
    match look_up(alloc, view, call.path, call.caller) {
        Ok(Find { ids, found }) => match found {
            Found::Node(id, node) => {
                let verdict = verdict_of(alloc, call, &node)?;
                settle(alloc, view, call, ids, id, verdict)
            }
            Found::Nothing => Ok(answered(
                alloc,
                ids,
                refusal(alloc, missing_code(call.path, Code::PathNotFound)),
                call.request.close,
            )?),
            Found::Stopped(end) => Ok(answered(
                alloc,
                ids,
                stop_reply(alloc, Code::PathNotFound, end),
                call.request.close,
            )?),
        },
        Err(stop) => Err(stop),
    }
}

// What comes of the node by the operation.
fn verdict_of(alloc: Global, call: &Call<'_>, node: &NodeRef) -> Result<Verdict, AllocError>
    requires operation { IsOfMeta call.now.request.now.op }
    requires call { IsCall call.now }
    ensures { IfOk result (λ v. IsVerdictOfNode call.now node.now v) }
{
    match &call.request.op {
        Op::GetProperties { status, .. } => {
            let reply = get_properties(alloc, call, *status, node)?;
            Ok(Verdict::Answer(reply))
        }
        Op::GetAccess { .. } => Ok(Verdict::Answer(get_access(alloc, call, node)?)),
        Op::CheckAccess { want, .. } => {
            let reply = check_access(alloc, call, *want, node)?;
            Ok(Verdict::Answer(reply))
        }
        Op::SetProperties { props, .. } => set_properties(alloc, call, props, node),
        Op::SetAccess {
            owner,
            group,
            permissions,
            acl,
            ..
        } => {
            let setting = Setting {
                owner,
                group,
                permissions,
                acl,
            };
            set_access(alloc, call, &setting, node)
        }
        Op::Lease { action, .. } => act_on_lease(alloc, call, action, node),
        _ => unreachable!(),
    }
}
