ghost use Rattle.std.specs.Prelude.{◌≡◌, ◌≤◌, ◌<◌, ◌^◌, ◌++◌, IfOk};
ghost use Rattle.inode_tree.specs.Promises.{IsEvaluated};
ghost use Rattle.lease_state.specs.declared.lease.TheConstants.{LAST_MOMENT};
ghost use Rattle.namespace_model.specs.Sound.{IsSound};
ghost use Rattle.path_walk.specs.Calls.{IsCall, Answers, GoesOn};
ghost use Rattle.acl_recursive.specs.Batched.{IsAsked, IsOfBatch, IsRead, IsRun, IsTarget};

use super::asked::Asked;
use super::reply::batch_reply;
use super::run::{Run, take_turns};
use super::tally::Tally;
use super::turn::for_files;
use super::walk::{Beginning, begin};
use inode_tree::{Draft, EvalStop, Fresh, NodeId, View};
use namespace_model::{Code, Op, Request};
use path_order::{Seen, with_ids};
use path_walk::{
    Call, Find, Found, answered, look_up, missing_code, refusal, settle_all, stop_reply,
};
use std::alloc::{AllocError, Global};

// The node of the path, once it was found.
#[derive(Drop)]
pub(crate) struct Target {
    // The nodes that were read.
    pub(crate) reads: Vec<NodeId>,
    // The look at it.
    pub(crate) top: Seen,
}

/// Works out what a request to change the access control lists of a node and of all that is below it replies and
/// changes at this moment, in milliseconds since 1970 (Path - Update with action=setAccessControlRecursive of the
/// REST reference). The nodes from the account to the path are read, those on the way to the token, and those that
/// fail; for these their stripes have to be held at least shared. The stripes of the nodes that are changed have to
/// be held exclusively. Where one isn't held so, the answer is `Need`; want of memory may come at any time.
///
/// The request is a sound one of these, and the moment has a date. No ids are drawn.
pub fn eval_batch<V: View>(
    alloc: Global,
    view: &mut V,
    request: &Request,
    moment: u64,
    fresh: &Fresh,
) -> Result<Draft, EvalStop>
    requires operation { IsOfBatch request.now.op }
    requires sound { IsSound request.now }
    requires moment { moment ≤ LAST_MOMENT }
    requires pass { fresh.now.pass < 64 }
    requires used { fresh.now.used < 2 ^ 40 }
    ensures on { GoesOn (V.held view.old) (V.held view.new) (V.over view.old) (V.over view.new) (V.shown view.old) (V.shown view.new) }
    ensures evaluated { IsEvaluated (V.held view.old) (V.shown view.new) request.now moment fresh.now result }
{
    match (&request.op, &request.caller) {
        (
            Op::SetAccessRecursive {
                path,
                change,
                token,
                max,
                force,
            },
            Some(caller),
        ) => {
            let call = Call {
                request,
                caller,
                path,
                moment,
                fresh: *fresh,
            };
            let files = for_files(alloc, change)?;
            let asked = Asked {
                change,
                for_files: &files,
                token,
                max: *max,
                force: *force,
            };
            carry_out(alloc, view, &call, &asked)
        }
        _ => unreachable!(),
    }
}

// The way to the node, and what stands there.
fn carry_out<V: View>(
    alloc: Global,
    view: &mut V,
    call: &Call<'_>,
    asked: &Asked<'_>,
) -> Result<Draft, EvalStop>
    requires call { IsCall call.now }
    requires operation { IsAsked call.now asked.now }
    ensures on { GoesOn (V.held view.old) (V.held view.new) (V.over view.old) (V.over view.new) (V.shown view.old) (V.shown view.new) }
    ensures evaluated { Answers (V.held view.new) (V.shown view.new) call.now result }
{
    match look_up(alloc, view, call.path, call.caller) {
        Ok(Find { ids: reads, found }) => match found {
            Found::Node(id, node) => {
                view.stands();
                let top = Seen { id, node };
                change_all(alloc, view, call, asked, Target { reads, top })
            }
            Found::Nothing => Ok(answered(
                alloc,
                reads,
                refusal(alloc, missing_code(call.path, Code::PathNotFound)),
                call.request.close,
            )?),
            Found::Stopped(end) => Ok(answered(
                alloc,
                reads,
                stop_reply(alloc, Code::PathNotFound, end),
                call.request.close,
            )?),
        },
        Err(stop) => Err(stop),
    }
}

// The same of a node that is there.
fn change_all<V: View>(
    alloc: Global,
    view: &mut V,
    call: &Call<'_>,
    asked: &Asked<'_>,
    target: Target,
) -> Result<Draft, EvalStop>
    requires call { IsCall call.now }
    requires operation { IsAsked call.now asked.now }
    requires target { IsTarget (V.held view.old) (V.shown view.old) call.now target }
    ensures on { GoesOn (V.held view.old) (V.held view.new) (V.over view.old) (V.over view.new) (V.shown view.old) (V.shown view.new) }
    ensures evaluated { Answers (V.held view.new) (V.shown view.new) call.now result }
{
    match begin(alloc, view, call.path, &target.top, asked.token) {
        Ok(None) => {
            let none = Run {
                tally: Tally::new(alloc),
                next: None,
            };
            tell(alloc, view, call, asked, target.reads, none)
        }
        Ok(Some(Beginning { walk, way })) => match take_turns(alloc, view, call, asked, walk) {
            Ok(done) => {
                let reads = with_ids(target.reads, way.as_slice())?;
                tell(alloc, view, call, asked, reads, done)
            }
            Err(stop) => Err(stop),
        },
        Err(stop) => Err(stop),
    }
}

// The draft by a batch that was run.
fn tell<V: View>(
    alloc: Global,
    view: &V,
    call: &Call<'_>,
    asked: &Asked<'_>,
    reads: Vec<NodeId>,
    done: Run,
) -> Result<Draft, EvalStop>
    requires call { IsCall call.now }
    requires operation { IsAsked call.now asked.now }
    requires reads { IsRead (V.held view.now) (V.shown view.now) call.now asked.now.token.now reads.items }
    requires run { IsRun (V.held view.now) (V.shown view.now) call.now asked.now done }
    ensures { Answers (V.held view.now) (V.shown view.now) call.now result }
{
    let Run { tally, next } = done;
    let all = with_failed(reads, tally.failed_ids.as_slice())?;
    let reply = batch_reply(alloc, call.path, &next, tally.changed, tally.failed)?;
    settle_all(alloc, view, call, all, tally.edits, reply)
}

// These ids, and behind them those of the nodes that failed.
fn with_failed(reads: Vec<NodeId>, failed: &[NodeId]) -> Result<Vec<NodeId>, AllocError>
    ensures { IfOk result (λ ids. ids.items ≡ reads.items ++ failed.now) }
{
    let mut ids = reads;
    ids.extend_from_slice(failed)?;
    Ok(ids)
}
