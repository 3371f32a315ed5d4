ghost use Rattle.std.specs.Prelude.{◌≡◌, ◌≤◌, ◌<◌, ◌-◌, ◌^◌, length, drop, None, IfOk};
ghost use Rattle.inode_tree.specs.Promises.{IsEvaluated};
ghost use Rattle.lease_state.specs.declared.lease.TheConstants.{LAST_MOMENT};
ghost use Rattle.namespace_model.specs.declared.code.Code.TheVariants.{ResourceTypeMismatch};
ghost use Rattle.namespace_model.specs.Sound.{IsSound};
ghost use Rattle.op_create.specs.Creates.{IsOfCreate, IsCreate, IsPlace, replaced_by};
ghost use Rattle.path_walk.specs.declared.stop.End.TheVariants as end;
ghost use Rattle.path_walk.specs.Answers.{IsAnswered, stop_reply};
ghost use Rattle.path_walk.specs.Calls.{Answers, GoesOn};
ghost use Rattle.path_walk.specs.Parents.{IsParent};
ghost use Rattle.path_walk.specs.Visits.{IsVisitFor, AreLookedAt};

use super::drafts::{drawn, made, written};
use super::nodes::NewNode;
use super::place::Place;
use super::refusals::{refused, refused_below};
use acl_text::Perm;
use inode_tree::{Draft, EvalStop, Fresh, NodeId, NodeIds, View};
use namespace_model::{Code, Op, Reply, Request};
use path_text::{Name, Path};
use path_walk::{
    Base, Call, End, Find, Found, Parent, Visit, answered, lacks_above, look_below, parent_at,
    stop_reply, unheld, visit,
};
use std::alloc::{AllocError, Global};
use std::slice::from_ref;

/// Works out what a request to make a file or a directory replies and changes at this moment, in milliseconds since 1970 (Path - Create
/// of the REST reference). The directories that are missing on the way are made too. The nodes of the way and the node of the path are
/// read, for which their stripes have to be held at least shared; where nodes are made, the stripes of the last directory that is there,
/// of a node that is replaced and of the ids that are drawn have to be held exclusively. Where one isn't held so, the answer is `Need`;
/// want of memory may come at any time.
///
/// The request is a sound one to make a file or a directory, and the moment has a date. An id is drawn for each node that is made.
pub fn eval_create<V: View>(
    alloc: Global,
    view: &mut V,
    request: &Request,
    moment: u64,
    fresh: &Fresh,
) -> Result<Draft, EvalStop>
    requires operation { IsOfCreate request.now.op }
    requires sound { IsSound request.now }
    requires moment { moment ≤ LAST_MOMENT }
    requires pass { fresh.now.pass < 64 }
    requires used { fresh.now.used < 2 ^ 40 }
    ensures on { GoesOn (V.held view.old) (V.held view.new) (V.over view.old) (V.over view.new) (V.shown view.old) (V.shown view.new) }
    ensures evaluated { IsEvaluated (V.held view.old) (V.shown view.new) request.now moment fresh.now result }
{
    match (&request.op, &request.caller) {
        (
            Op::Create {
                path,
                kind,
                permissions,
                umask,
                props,
            },
            Some(caller),
        ) => {
            let call = Call {
                request,
                caller,
                path,
                moment,
                fresh: *fresh,
            };
            let new = NewNode {
                kind: *kind,
                permissions: *permissions,
                umask: *umask,
                props,
            };
            create(alloc, view, &call, &new)
        }
        _ => unreachable!(),
    }
}

// By the end of the way to the parent.
fn create<V: View>(
    alloc: Global,
    view: &mut V,
    call: &Call<'_>,
    new: &NewNode<'_>,
) -> Result<Draft, EvalStop>
    requires create { IsCreate call.now new.now }
    ensures on { GoesOn (V.held view.old) (V.held view.new) (V.over view.old) (V.over view.new) (V.shown view.old) (V.shown view.new) }
    ensures evaluated { Answers (V.held view.new) (V.shown view.new) call.now result }
{
    match visit(alloc, view, call.path, call.caller) {
        Ok(visited) => create_behind(alloc, view, call, new, visited),
        Err(stop) => Err(stop),
    }
}

// Behind a visit.
fn create_behind<V: View>(
    alloc: Global,
    view: &mut V,
    call: &Call<'_>,
    new: &NewNode<'_>,
    visit: Visit,
) -> Result<Draft, EvalStop>
    requires create { IsCreate call.now new.now }
    requires visited { IsVisitFor (V.shown view.old) call.now.caller.now call.now.path.now visit }
    requires looked { AreLookedAt (V.held view.old) (V.shown view.old) visit.ids }
    ensures on { GoesOn (V.held view.old) (V.held view.new) (V.over view.old) (V.over view.new) (V.shown view.old) (V.shown view.new) }
    ensures evaluated { Answers (V.held view.new) (V.shown view.new) call.now result }
{
    let Visit { ids, base, end } = visit;
    match end {
        End::Reached => {
            let at = parent_at(ids.into_items(), base, call.path);
            create_in(alloc, view, call, new, at)
        }
        End::NotFound(depth) => {
            if 1 < depth {
                let visit = Visit {
                    ids,
                    base,
                    end: End::NotFound(depth),
                };
                return create_under(alloc, view, call, new, visit, depth);
            }
            Ok(stopped(alloc, call, ids, End::NotFound(depth))?)
        }
        end => Ok(stopped(alloc, call, ids, end)?),
    }
}

// A directory on the way is missing at the path of so many names.
fn create_under<V: View>(
    alloc: Global,
    view: &V,
    call: &Call<'_>,
    new: &NewNode<'_>,
    visit: Visit,
    depth: usize,
) -> Result<Draft, EvalStop>
    requires create { IsCreate call.now new.now }
    requires visited { IsVisitFor (V.shown view.now) call.now.caller.now call.now.path.now visit }
    requires looked { AreLookedAt (V.held view.now) (V.shown view.now) visit.ids }
    requires lost { visit.end ≡ end.NotFound depth }
    requires below { 1 < depth }
    ensures { Answers (V.held view.now) (V.shown view.now) call.now result }
{
    view.stands();
    let refusal = refused_below(alloc, call, depth - 1, &visit.base.node)?;
    let place = Place {
        reads: visit.ids.into_items(),
        base: visit.base,
        replaced: None,
        names: names_from(call.path, depth),
    };
    finish(alloc, view, call, new, refusal, place)
}

// The names of a path from the one on with which it has so many.
fn names_from(path: &Path, depth: usize) -> &[Name]
    requires below { 1 < depth }
    requires within { depth ≤ length path.now }
    ensures { result.now ≡ drop (depth - 1) path.now }
{
    &path.names()[depth - 2..]
}

// The way ends before, and nothing is to be made.
fn stopped(alloc: Global, call: &Call<'_>, ids: NodeIds, end: End) -> Result<Draft, AllocError>
    ensures { IfOk result (λ draft. IsAnswered call.now.request.now.close (stop_reply ResourceTypeMismatch end) ids draft) }
{
    let reply = stop_reply(alloc, Code::ResourceTypeMismatch, end);
    answered(alloc, ids.into_items(), reply, call.request.close)
}

// The parent was reached.
fn create_in<V: View>(
    alloc: Global,
    view: &mut V,
    call: &Call<'_>,
    new: &NewNode<'_>,
    at: Parent<'_>,
) -> Result<Draft, EvalStop>
    requires create { IsCreate call.now new.now }
    requires parent { IsParent (V.held view.old) (V.shown view.old) call.now.caller.now call.now.path.now at }
    ensures on { GoesOn (V.held view.old) (V.held view.new) (V.over view.old) (V.over view.new) (V.shown view.old) (V.shown view.new) }
    ensures evaluated { Answers (V.held view.new) (V.shown view.new) call.now result }
{
    let denied = lacks_above(
        alloc,
        call.caller,
        Perm::WRITE_EXECUTE,
        call.path,
        call.path.names().len(),
        &at.node,
    )?;
    match denied {
        Some(reply) => Ok(answered(alloc, at.reads, reply, call.request.close)?),
        None => match look_below(view, at.reads, &at.node, at.name) {
            Ok(Find { ids, found }) => {
                let refusal = refused(alloc, call, new.kind, &at.node, &found)?;
                let place = Place {
                    reads: ids,
                    base: Base {
                        id: at.id,
                        node: at.node,
                    },
                    replaced: replaced_by(&found),
                    names: from_ref(at.name),
                };
                finish(alloc, view, call, new, refusal, place)
            }
            Err(stop) => Err(stop),
        },
    }
}

// The node that was found, which goes.
fn replaced_by(found: &Found) -> Option<NodeId>
    ensures { result ≡ replaced_by found.now }
{
    match found {
        Found::Node(id, _) => Some(*id),
        _ => None,
    }
}

// The place is known, and whether it is refused to make nodes there.
fn finish<V: View>(
    alloc: Global,
    view: &V,
    call: &Call<'_>,
    new: &NewNode<'_>,
    refusal: Option<Reply>,
    place: Place<'_>,
) -> Result<Draft, EvalStop>
    requires create { IsCreate call.now new.now }
    requires place { IsPlace (V.held view.now) (V.shown view.now) call.now new.now refusal place }
    ensures { Answers (V.held view.now) (V.shown view.now) call.now result }
{
    match refusal {
        Some(reply) => Ok(answered(alloc, place.reads, reply, call.request.close)?),
        None => make(alloc, view, call, new, place),
    }
}

// Nothing refuses to make nodes there.
fn make<V: View>(
    alloc: Global,
    view: &V,
    call: &Call<'_>,
    new: &NewNode<'_>,
    place: Place<'_>,
) -> Result<Draft, EvalStop>
    requires create { IsCreate call.now new.now }
    requires place { IsPlace (V.held view.now) (V.shown view.now) call.now new.now None place }
    ensures { Answers (V.held view.now) (V.shown view.now) call.now result }
{
    let ids = drawn(alloc, &call.fresh, place.names.len())?;
    let writes = written(alloc, &place, ids.as_slice())?;
    match unheld(view, writes.as_slice()) {
        Some(need) => Err(EvalStop::Need(need)),
        None => Ok(made(alloc, call, new, place, ids, writes)?),
    }
}
