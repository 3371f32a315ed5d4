//! The workers of a service, made of its passes and as many clocks, and taken apart again.
ghost use Rattle.std.specs.Prelude.{◌≡◌, ◌≤◌, All, IfOk, length, map};
ghost use Rattle.reply_marks.specs.Tallies.{total_of};
ghost use Rattle.conn_workers.specs.Counted.{tally_by, OwnsWhatItSaw};
ghost use Rattle.hns_commands.specs.Serves.{IsUnused};

use commit_journal::{JOURNAL_MOST, Keeper};
use conn_io::Clock;
use conn_workers::{CountedPass, Worker};
use inode_tree::Placed;
use parted_namespace::Namespace;
use reply_marks::Tally;
use std::alloc::{AllocError, Global};
use std::collections::VecDeque;
use striped_store::Pass;

/// A worker of each pass and its clock, in their order. The one error is want of memory.
pub(crate) fn start_workers<K: Keeper<Placed>, C: Clock + Drop>(
    alloc: Global,
    passes: Vec<Pass<Namespace, K>>,
    clocks: Vec<C>,
) -> Result<Vec<Worker<K, C>>, AllocError>
    requires many { length clocks.items ≡ length passes.items }
    requires new { All IsUnused passes.items }
    ensures { IfOk result (λ workers. map (λ worker. worker.pass.pass) workers.items ≡ passes.items) }
{
    let mut workers = Vec::with_capacity(alloc, passes.len())?;
    let mut passes = VecDeque::from_vec(passes);
    let mut clocks = VecDeque::from_vec(clocks);
    'each: loop {
        let pass = match passes.pop_front() {
            Some(pass) => pass,
            None => return Ok(workers),
        };
        let Some(clock) = clocks.pop_front() else {
            unreachable!();
        };
        workers.push(Worker {
            pass: CountedPass::new(pass),
            clock,
        })?;
    }
}

/// The passes of the workers in their order, and how many replies to their entries count as what. The one error is want of memory.
pub(crate) fn stop_workers<K: Keeper<Placed>, C: Clock + Drop>(
    alloc: Global,
    workers: Vec<Worker<K, C>>,
) -> Result<(Vec<Pass<Namespace, K>>, Tally), AllocError>
    requires few { length workers.items ≤ 64 }
    ensures passes { IfOk result (λ r. r.0.items ≡ map (λ worker. worker.pass.pass) workers.items) }
    ensures tally { IfOk result (λ r. r.1 ≡ total_of (map tally_by r.0.items)) }
    ensures own { IfOk result (λ r. All OwnsWhatItSaw r.0.items) }
{
    let mut passes = Vec::with_capacity(alloc, workers.len())?;
    let mut total = Tally::none();
    let mut workers = VecDeque::from_vec(workers);
    'each: while let Some(worker) = workers.pop_front() {
        let Worker { pass, clock: _ } = worker;
        let (pass, tally) = pass.into_parts();
        total = total.plus(tally);
        passes.push(pass)?;
    }
    Ok((passes, total))
}
