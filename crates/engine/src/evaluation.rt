ghost use Rattle.std.specs.Prelude.{◌≡◌, ◌≤◌, ◌<◌, ◌^◌, [], IfOk};
ghost use Rattle.lease_state.specs.declared.lease.TheConstants.{LAST_MOMENT};
ghost use Rattle.inode_tree.specs.Promises.{IsEvaluated};
ghost use Rattle.namespace_model.specs.Replies.{refusal};
ghost use Rattle.namespace_model.specs.Sound.{IsSound};
ghost use Rattle.path_walk.specs.Answers.{IsAnswered};
ghost use Rattle.path_walk.specs.Calls.{GoesOn};

use acl_recursive::eval_batch;
use dir_rename::eval_rename;
use inode_tree::{Draft, EvalStop, Fresh, View};
use namespace_model::{Code, Op, Request};
use op_create::eval_create;
use op_data::eval_data;
use op_delete::eval_delete;
use op_filesystem::eval_filesystem;
use op_meta::eval_meta;
use path_listing::eval_list;
use path_walk::{answered, refusal};
use std::alloc::{AllocError, Global};

/// Works out what a request replies and changes at this moment, in milliseconds since 1970, by the evaluator of its operation. Where a
/// node that it reads or writes lies in a stripe that isn't held so, the answer is `Need`; want of memory may come at any time.
///
/// The request is sound, and the moment has a date. The pass has a number below 64 and has used up fewer than 2^40 ids.
pub fn eval<V: View>(
    alloc: Global,
    view: &mut V,
    request: &Request,
    moment: u64,
    fresh: &Fresh,
) -> Result<Draft, EvalStop>
    requires sound { IsSound request.now }
    requires moment { moment ≤ LAST_MOMENT }
    requires pass { fresh.now.pass < 64 }
    requires used { fresh.now.used < 2 ^ 40 }
    ensures on { GoesOn (V.held view.old) (V.held view.new) (V.over view.old) (V.over view.new) (V.shown view.old) (V.shown view.new) }
    ensures evaluated { IsEvaluated (V.held view.old) (V.shown view.new) request.now moment fresh.now result }
{
    match &request.op {
        Op::ListFilesystems { .. } => eval_filesystem(alloc, view, request, moment, fresh),
        Op::CreateFilesystem { .. } => eval_filesystem(alloc, view, request, moment, fresh),
        Op::GetFilesystem { .. } => eval_filesystem(alloc, view, request, moment, fresh),
        Op::SetFilesystem { .. } => eval_filesystem(alloc, view, request, moment, fresh),
        Op::DeleteFilesystem { .. } => eval_filesystem(alloc, view, request, moment, fresh),
        Op::List { .. } => eval_list(alloc, view, request, moment, fresh),
        Op::Create { .. } => eval_create(alloc, view, request, moment, fresh),
        Op::Rename { .. } => eval_rename(alloc, view, request, moment, fresh),
        Op::Read { .. } => eval_data(alloc, view, request, moment, fresh),
        Op::GetProperties { .. } => eval_meta(alloc, view, request, moment, fresh),
        Op::GetAccess { .. } => eval_meta(alloc, view, request, moment, fresh),
        Op::CheckAccess { .. } => eval_meta(alloc, view, request, moment, fresh),
        Op::Append { .. } => eval_data(alloc, view, request, moment, fresh),
        Op::Flush { .. } => eval_data(alloc, view, request, moment, fresh),
        Op::SetProperties { .. } => eval_meta(alloc, view, request, moment, fresh),
        Op::SetAccess { .. } => eval_meta(alloc, view, request, moment, fresh),
        Op::SetAccessRecursive { .. } => eval_batch(alloc, view, request, moment, fresh),
        Op::Lease { .. } => eval_meta(alloc, view, request, moment, fresh),
        Op::Delete { .. } => eval_delete(alloc, view, request, moment, fresh),
        Op::Refused(code) => Ok(refused(alloc, *code, request.close)?),
    }
}

// A request that was refused when it was decoded: nothing is read.
fn refused(alloc: Global, code: Code, close: bool) -> Result<Draft, AllocError>
    ensures { IfOk result (λ draft. IsAnswered close (refusal code) [] draft) }
{
    answered(alloc, Vec::new(alloc), refusal(alloc, code), close)
}
