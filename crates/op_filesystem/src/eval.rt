ghost use Rattle.std.specs.Prelude.{◌≡◌, ◌≤◌, ◌<◌, ◌^◌};
ghost use Rattle.lease_state.specs.declared.lease.TheConstants.{LAST_MOMENT};
ghost use Rattle.inode_tree.specs.Promises.{IsEvaluated};
ghost use Rattle.namespace_model.specs.Sound.{IsSound};
ghost use Rattle.op_filesystem.specs.Filesystems.{IsOfFilesystem};
ghost use Rattle.path_walk.specs.Calls.{IsCall, Answers, GoesOn, path_of};

use super::create::create_filesystem;
use super::delete::delete_filesystem;
use super::listing::list_filesystems;
use super::names::account_path;
use super::properties::{get_filesystem, set_filesystem};
use inode_tree::{Draft, EvalStop, Fresh, View};
use namespace_model::{Op, Request};
use path_text::Path;
use path_walk::Call;
use std::alloc::Global;

/// Works out what a call on filesystems replies and changes at this moment, in milliseconds since 1970 (Filesystem -
/// List, Create, Get Properties, Set Properties and Delete of the REST reference). Other callers than the superuser are
/// denied, and nothing is read for them. Else the account is read, and the root that the call names, where it is there;
/// a page reads its own roots, and none behind them. For what is read stripes have to be held at least shared. Where a
/// filesystem is made, the stripes of the account and of the id that is drawn have to be held exclusively; where one is
/// changed, that of its root; where one is deleted, that of the account and those of all its nodes. Where one isn't
/// held so, the answer is `Need`; want of memory may come at any time.
///
/// The request is a sound one on filesystems, and the moment has a date. One id is drawn where a filesystem is made,
/// and else none.
pub fn eval_filesystem<V: View>(
    alloc: Global,
    view: &mut V,
    request: &Request,
    moment: u64,
    fresh: &Fresh,
) -> Result<Draft, EvalStop>
    requires operation { IsOfFilesystem request.now.op }
    requires sound { IsSound request.now }
    requires moment { moment ≤ LAST_MOMENT }
    requires pass { fresh.now.pass < 64 }
    requires used { fresh.now.used < 2 ^ 40 }
    ensures on { GoesOn (V.held view.old) (V.held view.new) (V.over view.old) (V.over view.new) (V.shown view.old) (V.shown view.new) }
    ensures evaluated { IsEvaluated (V.held view.old) (V.shown view.new) request.now moment fresh.now result }
{
    match &request.op {
        Op::ListFilesystems { .. } => {
            let account = account_path(alloc)?;
            eval_at(alloc, view, request, &account, moment, fresh)
        }
        Op::CreateFilesystem { path, .. } => eval_at(alloc, view, request, path, moment, fresh),
        Op::GetFilesystem { path } => eval_at(alloc, view, request, path, moment, fresh),
        Op::SetFilesystem { path, .. } => eval_at(alloc, view, request, path, moment, fresh),
        Op::DeleteFilesystem { path } => eval_at(alloc, view, request, path, moment, fresh),
        _ => unreachable!(),
    }
}

// The same, with the path that the operation names.
fn eval_at<V: View>(
    alloc: Global,
    view: &mut V,
    request: &Request,
    path: &Path,
    moment: u64,
    fresh: &Fresh,
) -> Result<Draft, EvalStop>
    requires operation { IsOfFilesystem request.now.op }
    requires named { path_of request.now.op ≡ path.now }
    requires sound { IsSound request.now }
    requires moment { moment ≤ LAST_MOMENT }
    requires pass { fresh.now.pass < 64 }
    requires used { fresh.now.used < 2 ^ 40 }
    ensures on { GoesOn (V.held view.old) (V.held view.new) (V.over view.old) (V.over view.new) (V.shown view.old) (V.shown view.new) }
    ensures evaluated { IsEvaluated (V.held view.old) (V.shown view.new) request.now moment fresh.now result }
{
    match &request.caller {
        Some(caller) => {
            let call = Call {
                request,
                caller,
                path,
                moment,
                fresh: *fresh,
            };
            eval_call(alloc, view, &call)
        }
        None => unreachable!(),
    }
}

// The same of a call.
fn eval_call<V: View>(alloc: Global, view: &mut V, call: &Call<'_>) -> Result<Draft, EvalStop>
    requires operation { IsOfFilesystem call.now.request.now.op }
    requires call { IsCall call.now }
    ensures on { GoesOn (V.held view.old) (V.held view.new) (V.over view.old) (V.over view.new) (V.shown view.old) (V.shown view.new) }
    ensures evaluated { Answers (V.held view.new) (V.shown view.new) call.now result }
{
    match &call.request.op {
        Op::ListFilesystems { prefix, token, max } => {
            list_filesystems(alloc, view, call, prefix, token, *max)
        }
        Op::CreateFilesystem { props, .. } => create_filesystem(alloc, view, call, props),
        Op::GetFilesystem { .. } => get_filesystem(alloc, view, call),
        Op::SetFilesystem { props, .. } => set_filesystem(alloc, view, call, props),
        Op::DeleteFilesystem { .. } => delete_filesystem(alloc, view, call),
        _ => unreachable!(),
    }
}
