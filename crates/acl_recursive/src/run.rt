//! A batch, node by node.
ghost use Rattle.std.specs.Prelude.{◌≡◌, ◌≢◌, ℕ, [], option_map, Err, IfOk};
ghost use Rattle.inode_tree.specs.declared.draft.EvalStop.TheVariants as stop;
ghost use Rattle.inode_tree.specs.declared.need.Need.{Need};
ghost use Rattle.path_walk.specs.Calls.{IsCall, GoesOn};
ghost use Rattle.acl_recursive.specs.Batched.{IsAsked, IsReadyFor, IsRun, NeedsOfBatch, resumed};

use super::asked::Asked;
use super::tally::{Tally, take_turn};
use super::walk::Walk;
use inode_tree::{EvalStop, View};
use path_order::path_below;
use path_text::{Name, Path};
use path_walk::Call;
use std::alloc::{AllocError, Global};

// A batch that was run.
#[derive(Drop)]
pub(crate) struct Run {
    // What came of its nodes.
    pub(crate) tally: Tally,
    // The token by which it goes on, where it goes on.
    pub(crate) next: Option<Path>,
}

// Takes the nodes of a batch in turn, each of which is looked at, for which its stripe has to be held at least
// shared: where it isn't, the answer is `Need`. A node that fails ends the batch, unless it is forced. Want of memory
// may come at any time.
pub(crate) fn take_turns<V: View>(
    alloc: Global,
    view: &mut V,
    call: &Call<'_>,
    asked: &Asked<'_>,
    walk: Walk,
) -> Result<Run, EvalStop>
    requires call { IsCall call.now }
    requires operation { IsAsked call.now asked.now }
    requires walk { IsReadyFor (V.held view.old) (V.shown view.old) call.now asked.now walk }
    ensures on { GoesOn (V.held view.old) (V.held view.new) (V.over view.old) (V.over view.new) (V.shown view.old) (V.shown view.new) }
    ensures run { IfOk result (λ run. IsRun (V.held view.new) (V.shown view.new) call.now asked.now run) }
    ensures need { (n : Need) → result ≡ Err (stop.Need n) → NeedsOfBatch (V.held view.new) (V.shown view.new) call.now asked.now n }
{
    let mut walk = walk;
    let mut tally = Tally::new(alloc);
    let mut last = None;
    for _count in 0..asked.max {
        match walk.next(alloc, view) {
            Ok(Some(step)) => {
                let failed = take_turn(alloc, &mut tally, call, asked, &step)?;
                if failed && !asked.force {
                    let next = resume(alloc, call.path, asked.token, &last)?;
                    return Ok(Run { tally, next });
                }
                last = Some(step.names);
            }
            Ok(None) => return Ok(Run { tally, next: None }),
            Err(stop) => return Err(stop),
        }
    }
    if walk.is_at_end() {
        return Ok(Run { tally, next: None });
    }
    let next = resume(alloc, call.path, asked.token, &last)?;
    Ok(Run { tally, next })
}

// The path of the last of these, and the given token where there is none.
fn resume(
    alloc: Global,
    dir: &Path,
    token: &Option<Path>,
    last: &Option<Vec<Name>>,
) -> Result<Option<Path>, AllocError>
    requires path { dir.now ≢ [] }
    ensures { IfOk result (λ next. next ≡ resumed dir.now token.now (option_map (λ names. names.items) last.now)) }
{
    match (last, token) {
        (Some(names), _) => Ok(Some(path_below(alloc, dir, names.as_slice())?)),
        (None, Some(token)) => Ok(Some(token.copy(alloc)?)),
        (None, None) => Ok(None),
    }
}
