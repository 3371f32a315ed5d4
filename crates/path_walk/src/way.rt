ghost use Rattle.std.specs.Prelude.{◌≡◌, ◌≢◌, ◌≤◌, ◌<◌, ◌-◌, ℕ, [], length, Some, Err, IfOk};
ghost use Rattle.inode_tree.specs.Views.{IsKnown};
ghost use Rattle.inode_tree.specs.Parts.{child_of};
ghost use Rattle.inode_tree.specs.declared.draft.EvalStop.TheVariants as stop;
ghost use Rattle.inode_tree.specs.declared.need.Need.{Need};
ghost use Rattle.namespace_model.specs.Trees.{parent};
ghost use Rattle.path_walk.specs.declared.stop.End.TheVariants as end;
ghost use Rattle.path_walk.specs.Calls.{GoesOn};
ghost use Rattle.path_walk.specs.Trails.{IsTrail, IsStepped, IsTaken, IsEndedAt};
ghost use Rattle.path_walk.specs.Visits.{IsVisitFor, AreLookedAt, IsOnTheWay, IsMet, IsMetUnderHold, NeedsChild, IsWalked};

use super::look::{child_of, is_directory, may_enter};
use super::stop::{Base, End, Visit, Walk, WalkStop};
use acl_text::Perm;
use inode_tree::{EvalStop, NodeId, NodeIds, NodeRef, View};
use lock_core::LockMode;
use namespace_model::{Caller, Denied, Refusal};
use path_text::{Name, Path};
use std::alloc::{AllocError, Global};

// What stands at a name of a directory.
#[derive(Drop)]
pub(crate) enum Met {
    // Nothing.
    Missing,
    // A file.
    Blocked(NodeId),
    // A directory that doesn't let the caller through.
    Closed(NodeId, Refusal),
    // One that does.
    Passed(Base),
}

// A visit on its way: the nodes that were looked at so far, and the last of them.
#[derive(Drop)]
pub(crate) struct Trail {
    ids: Vec<NodeId>,
    base: Base,
}

#[derive(Drop)]
pub(crate) enum Step {
    On(Trail),
    Ended(Visit),
}

/// Goes the way from the account to the parent of a path, which is not the account's. Each node of the way is looked at, for which
/// its stripe has to be held at least shared: where it isn't, the answer is `Need`. Want of memory may come at any time.
pub fn visit<V: View>(
    alloc: Global,
    view: &mut V,
    path: &Path,
    caller: &Caller,
) -> Result<Visit, EvalStop>
    requires below { path.now ≢ [] }
    ensures on { GoesOn (V.held view.old) (V.held view.new) (V.over view.old) (V.over view.new) (V.shown view.old) (V.shown view.new) }
    ensures visited { IfOk result (λ v. IsVisitFor (V.shown view.new) caller.now path.now v) }
    ensures looked { IfOk result (λ v. AreLookedAt (V.held view.new) (V.shown view.new) v.ids) }
    ensures need { (n : Need) → result ≡ Err (stop.Need n) → IsOnTheWay (V.held view.new) (V.shown view.new) caller.now path.now n }
{
    let mut trail = match start(alloc, view, path, caller) {
        Ok(trail) => trail,
        Err(stop) => return Err(stop),
    };
    for place in 0..path.depth() - 1 {
        match advance(alloc, view, trail, path, place + 1, caller) {
            Ok(Step::On(next)) => trail = next,
            Ok(Step::Ended(visit)) => return Ok(visit),
            Err(stop) => return Err(stop),
        }
    }
    Ok(ended(trail, End::Reached))
}

/// The ids from the account to the parent of a path, which is not the account's; else why the way to it ends before. Each node of
/// the way is looked at, for which its stripe has to be held at least shared: where it isn't, the answer is `Need`. Want of memory
/// may come at any time.
pub fn walk<V: View>(
    alloc: Global,
    view: &mut V,
    path: &Path,
    caller: &Caller,
) -> Result<Walk, WalkStop>
    requires below { path.now ≢ [] }
    ensures on { GoesOn (V.held view.old) (V.held view.new) (V.over view.old) (V.over view.new) (V.shown view.old) (V.shown view.new) }
    ensures walked { IsWalked (V.held view.new) (V.shown view.new) caller.now path.now result }
{
    match visit(alloc, view, path, caller) {
        Ok(Visit { ids, end, .. }) => match end {
            End::Reached => Ok(Walk { ids }),
            End::NotFound(names) => Err(WalkStop::NotFound(names)),
            End::NotDirectory(names) => Err(WalkStop::NotDirectory(names)),
            End::Denied(denied) => Err(WalkStop::Denied(denied)),
        },
        Err(EvalStop::Need(need)) => Err(WalkStop::Need(need)),
        Err(EvalStop::NoMemory) => Err(WalkStop::NoMemory),
    }
}

// The account.
fn start<V: View>(
    alloc: Global,
    view: &mut V,
    path: &Path,
    caller: &Caller,
) -> Result<Trail, EvalStop>
    ensures on { GoesOn (V.held view.old) (V.held view.new) (V.over view.old) (V.over view.new) (V.shown view.old) (V.shown view.new) }
    ensures trail { IfOk result (λ trail. IsTrail (V.held view.new) (V.shown view.new) caller.now (parent path.now) 0 trail) }
    ensures need { (n : Need) → result ≡ Err (stop.Need n) → IsOnTheWay (V.held view.new) (V.shown view.new) caller.now path.now n }
{
    let mut ids = Vec::new(alloc);
    ids.push(NodeId(0))?;
    let node = view.get(NodeId(0), LockMode::Shared)?;
    Ok(Trail {
        ids,
        base: Base {
            id: NodeId(0),
            node,
        },
    })
}

// The next name of the way, the last of so many.
fn advance<V: View>(
    alloc: Global,
    view: &mut V,
    trail: Trail,
    path: &Path,
    depth: usize,
    caller: &Caller,
) -> Result<Step, EvalStop>
    requires some { 1 ≤ depth }
    requires below { depth < length path.now }
    requires trail { IsTrail (V.held view.old) (V.shown view.old) caller.now (parent path.now) (depth - 1) trail }
    ensures on { GoesOn (V.held view.old) (V.held view.new) (V.over view.old) (V.over view.new) (V.shown view.old) (V.shown view.new) }
    ensures stepped { IfOk result (λ step. IsStepped (V.held view.new) (V.shown view.new) caller.now path.now depth step) }
    ensures need { (n : Need) → result ≡ Err (stop.Need n) → IsOnTheWay (V.held view.new) (V.shown view.new) caller.now path.now n }
{
    match meet(view, &trail.base.node, path.part(depth - 1), caller) {
        Ok(met) => Ok(taken(alloc, trail, met, path, depth)?),
        Err(stop) => Err(stop),
    }
}

// The trail or the visit behind what was met at the path of so many names.
fn taken(
    alloc: Global,
    mut trail: Trail,
    met: Met,
    path: &Path,
    depth: usize,
) -> Result<Step, AllocError>
    requires { depth ≤ length path.now }
    ensures { IfOk result (λ step. IsTaken trail path.now depth met step) }
{
    match met {
        Met::Missing => Ok(Step::Ended(ended(trail, End::NotFound(depth)))),
        Met::Blocked(id) => {
            trail.ids.push(id)?;
            Ok(Step::Ended(ended(trail, End::NotDirectory(depth))))
        }
        Met::Closed(id, refusal) => {
            trail.ids.push(id)?;
            let at = path.front(alloc, depth)?;
            Ok(Step::Ended(ended(trail, denied(at, refusal))))
        }
        Met::Passed(base) => {
            let mut ids = trail.ids;
            ids.push(base.id)?;
            Ok(Step::On(Trail { ids, base }))
        }
    }
}

fn ended(trail: Trail, end: End) -> Visit
    ensures { IsEndedAt trail trail.ids.items end result }
{
    Visit {
        ids: NodeIds::new(trail.ids),
        base: trail.base,
        end,
    }
}

// The denial of execute at a directory.
fn denied(at: Path, refusal: Refusal) -> End
    ensures { result ≡ end.Denied (record { rule = refusal.rule; at = at; want = 1; have = refusal.have }) }
{
    End::Denied(Denied {
        rule: refusal.rule,
        at,
        want: Perm::EXECUTE,
        have: refusal.have,
    })
}

// What stands at a name of a directory that was looked at.
fn meet<V: View>(
    view: &mut V,
    node: &NodeRef,
    name: &Name,
    caller: &Caller,
) -> Result<Met, EvalStop>
    requires known { (child : ℕ) → child_of node.now name.now ≡ Some child → IsKnown (V.shown view.old) child }
    ensures on { GoesOn (V.held view.old) (V.held view.new) (V.over view.old) (V.over view.new) (V.shown view.old) (V.shown view.new) }
    ensures met { IfOk result (λ m. IsMet (V.shown view.new) caller.now node.now name.now m) }
    ensures looked { IfOk result (λ m. IsMetUnderHold (V.held view.new) (V.shown view.new) m) }
    ensures need { (n : Need) → result ≡ Err (stop.Need n) → NeedsChild (V.held view.new) node.now name.now n }
{
    let Some(id) = child_of(node, name) else {
        return Ok(Met::Missing);
    };
    let next = view.get(id, LockMode::Shared)?;
    if !is_directory(&next) {
        return Ok(Met::Blocked(id));
    }
    match may_enter(&next, caller) {
        Ok(()) => Ok(Met::Passed(Base { id, node: next })),
        Err(refusal) => Ok(Met::Closed(id, refusal)),
    }
}
