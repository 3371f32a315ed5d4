ghost use Rattle.std.specs.Prelude.{◌≤◌, ◌<◌, ◌^◌, IfOk};
ghost use Rattle.inode_tree.specs.Promises.{IsEvaluated};
ghost use Rattle.lease_state.specs.declared.lease.TheConstants.{LAST_MOMENT};
ghost use Rattle.namespace_model.specs.Sound.{IsSound};
ghost use Rattle.op_data.specs.Tasks.{Asks, IsFileOf, IsOfData, IsVerdictOfFile, IsVerdictOfNode};
ghost use Rattle.path_walk.specs.Calls.{IsCall, Answers, GoesOn};

use super::append::append;
use super::file::file_in;
use super::flush::flush;
use super::read::read;
use super::task::{Task, task_of, wants};
use file_data::FileData;
use inode_tree::{Draft, EvalStop, Fresh, NodeRef, View};
use namespace_model::{Code, Request};
use path_walk::{
    Call, Find, Found, Verdict, answered, lacks, look_up, missing_code, refusal, settle, stop_reply,
};
use std::alloc::{AllocError, Global};

/// Works out what a request to read a file, to append to it or to flush it replies and changes at this moment, in milliseconds since 1970
/// (Path - Read, and Path - Update with action=append and action=flush, of the REST reference). The nodes from the account to the path are
/// read, for which their stripes have to be held at least shared; where the file is appended to or flushed, its stripe has to be held
/// exclusively. Where one isn't held so, the answer is `Need`; want of memory may come at any time.
///
/// The request is a sound one to read, append or flush, and the moment has a date. No ids are drawn.
pub fn eval_data<V: View>(
    alloc: Global,
    view: &mut V,
    request: &Request,
    moment: u64,
    fresh: &Fresh,
) -> Result<Draft, EvalStop>
    requires operation { IsOfData request.now.op }
    requires sound { IsSound request.now }
    requires moment { moment ≤ LAST_MOMENT }
    requires pass { fresh.now.pass < 64 }
    requires used { fresh.now.used < 2 ^ 40 }
    ensures on { GoesOn (V.held view.old) (V.held view.new) (V.over view.old) (V.over view.new) (V.shown view.old) (V.shown view.new) }
    ensures evaluated { IsEvaluated (V.held view.old) (V.shown view.new) request.now moment fresh.now result }
{
    let (path, task) = task_of(&request.op);
    match &request.caller {
        Some(caller) => {
            let call = Call {
                request,
                caller,
                path,
                moment,
                fresh: *fresh,
            };
            carry_out(alloc, view, &call, task)
        }
        None => unreachable!(),
    }
}

// The node of the path is looked up, and what comes of the task is settled.
fn carry_out<V: View>(
    alloc: Global,
    view: &mut V,
    call: &Call<'_>,
    task: Task,
) -> Result<Draft, EvalStop>
    requires call { IsCall call.now }
    requires operation { Asks call.now task }
    ensures on { GoesOn (V.held view.old) (V.held view.new) (V.over view.old) (V.over view.new) (V.shown view.old) (V.shown view.new) }
    ensures evaluated { Answers (V.held view.new) (V.shown view.new) call.now result }
{
    match look_up(alloc, view, call.path, call.caller) {
        Ok(Find { ids, found }) => match found {
            Found::Node(id, node) => {
                let verdict = verdict_of(alloc, call, task, &node)?;
                settle(alloc, view, call, ids, id, verdict)
            }
            Found::Nothing => Ok(answered(
                alloc,
                ids,
                refusal(alloc, missing_code(call.path, Code::PathNotFound)),
                call.request.close,
            )?),
            Found::Stopped(end) => Ok(answered(
                alloc,
                ids,
                stop_reply(alloc, Code::PathNotFound, end),
                call.request.close,
            )?),
        },
        Err(stop) => Err(stop),
    }
}

// What comes of a task, by the node of the path: the caller lacks permissions, it is a directory, or it is a file that the task is done with.
fn verdict_of(
    alloc: Global,
    call: &Call<'_>,
    task: Task,
    node: &NodeRef,
) -> Result<Verdict, AllocError>
    requires call { IsCall call.now }
    requires operation { Asks call.now task }
    ensures { IfOk result (λ v. IsVerdictOfNode call.now task node.now v) }
{
    if let Some(reply) = lacks(alloc, call.caller, wants(task), call.path, node)? {
        return Ok(Verdict::Answer(reply));
    }
    match file_in(node) {
        None => Ok(Verdict::Answer(refusal(alloc, Code::ResourceTypeMismatch))),
        Some(file) => verdict_of_file(alloc, call, task, node, file),
    }
}

// What comes of a task where the node is a file on which the caller has the permissions.
fn verdict_of_file(
    alloc: Global,
    call: &Call<'_>,
    task: Task,
    node: &NodeRef,
    file: &FileData,
) -> Result<Verdict, AllocError>
    requires call { IsCall call.now }
    requires operation { Asks call.now task }
    requires file { IsFileOf node.now file.now }
    ensures { IfOk result (λ v. IsVerdictOfFile call.now task node.now v) }
{
    match task {
        Task::Read(range) => Ok(Verdict::Answer(read(alloc, call, range, node, file)?)),
        Task::Append(asked) => append(alloc, call, &asked, node, file),
        Task::Flush(position, retain) => flush(alloc, call, position, retain, node, file),
    }
}
