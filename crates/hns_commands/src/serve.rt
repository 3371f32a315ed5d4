//! `hns serve`.
ghost use Rattle.std.specs.Prelude.{◌≡◌, ◌≢◌, ◌<◌, ◌≤◌, ◌⊎◌, ◌↔◌, true, false, IfOk, length, map};
ghost use Rattle.lock_core.specs.Sound.{AllFit};
ghost use Rattle.striped_store.specs.Closed.{AreEveryPass};
ghost use Rattle.striped_store.specs.Views.{AreNewPasses};
ghost use Rattle.parted_namespace.specs.Namespace.{namespace};
ghost use Rattle.hns_commands.specs.Serves.{AreInOrder, AsksFor, HasTaken, LeavesBehind, serve_status};
ghost use Rattle.hns_commands.specs.Summary.{summary_of};

use super::summary::summary_text;
use super::team::{start_workers, stop_workers};
use command_words::serve_words;
use commit_journal::{Journal, Limits, NoKeep};
use conn_io::{Clock, Listener, Sink};
use conn_queue::{ConnQueue, Shut};
use conn_workers::{Worker, serve_all};
use inode_tree::Placed;
use service_workers::Service;
use serving::write_all;
use std::alloc::{AllocError, Global};
use std::sync::Wait;
use std::thread::Threads;

/// What `hns serve` leaves behind.
#[derive(Drop)]
pub struct Served<L> {
    /// The exit status.
    pub status: u8,
    pub listener: L,
    /// The journal of all connections, closed.
    pub journal: Option<Journal<Placed>>,
}

/// `hns serve`: serves connections of the listener from an empty namespace, with as many workers as the words say, each with a clock, until
/// as many connections were taken as the words say, or the listener ended or failed. Then it writes the summary: five lines, `entries` with
/// the length of the journal, `ok`, `refused` and `denied` with the numbers of its replies whose status is below 400, that refuse without a
/// denial, and that deny, and `bytes` with the bytes of the bodies of its requests.
///
/// The status is 0 where the summary was written, 4 where the sink failed, and 7 where the listener failed, after the summary was tried; 5
/// for want of memory, and 2 where the words are none of `serve` or there aren't as many clocks as workers: in both cases nothing is
/// written and there is no journal. How single connections ended changes no status.
///
/// The words are `serve` and options, each at most once, as `--workers 2` or `--workers=2`: `--addr`, the address, which is not left out;
/// `--workers`, 1 to 64, 4 where it is not given; `--connections`, 1 to 4,294,967,295, which is the greatest where it is not given; and the
/// limits of `run_pipe`. The listener has given no connection yet, has not ended and has counted no fault.
pub fn run_serve<R: Threads + Wait + Sync, L: Listener + Send, C: Clock + Send + Drop, O: Sink>(
    rt: &R,
    alloc: Global,
    words: &[String],
    listener: L,
    clocks: Vec<C>,
    out: &mut O,
) -> Served<L>
    requires given { L.given listener ≡ 0 }
    requires ended { L.ended listener ≡ false }
    requires faults { L.faults listener ≡ 0 }
    ensures usage { (result.status ≡ 2) ↔ (AsksFor words.now (length clocks.items) → ⊥) }
    ensures leaves { LeavesBehind (O.out out.old) (O.out out.new) result.status result.journal }
    ensures done { result.status ≡ 0 → (L.ended result.listener ≡ true) ⊎ HasTaken words.now (L.given result.listener) }
    ensures failed { result.status ≡ 7 → 0 < L.faults result.listener }
{
    let asked = match serve_words(words) {
        Some(asked) if asked.limits.passes() as usize == clocks.len() => asked,
        _ => {
            return Served {
                status: 2,
                listener,
                journal: None,
            };
        }
    };
    match start(alloc, &asked.limits, clocks) {
        Ok((service, workers)) => {
            let queue = ConnQueue::new(listener, asked.connections);
            serve_by(rt, service, workers, queue, out)
        }
        Err(_) => Served {
            status: 5,
            listener,
            journal: None,
        },
    }
}

// A service that keeps its journal in memory alone, and its workers.
fn start<C: Clock + Drop>(
    alloc: Global,
    limits: &Limits,
    clocks: Vec<C>,
) -> Result<(Service<NoKeep>, Vec<Worker<NoKeep, C>>), AllocError>
    requires many { length clocks.items ≡ limits.now.passes }
    ensures limits { IfOk result (λ r. r.0.limits ≡ limits.now) }
    ensures many { IfOk result (λ r. (r.0.seats ≡ limits.now.passes) × (length r.1.items ≡ limits.now.passes)) }
    ensures new { IfOk result (λ r. AreNewPasses r.0 (map (λ worker. worker.pass.pass) r.1.items)) }
{
    let (service, passes) = Service::start(alloc, limits, NoKeep)?;
    let workers = start_workers(alloc, passes, clocks)?;
    Ok((service, workers))
}

// Serves the connections of the queue, closes the service and writes the summary.
fn serve_by<R: Threads + Wait + Sync, L: Listener + Send, C: Clock + Send + Drop, O: Sink>(
    rt: &R,
    service: Service<NoKeep>,
    workers: Vec<Worker<NoKeep, C>>,
    queue: ConnQueue<L>,
    out: &mut O,
) -> Served<L>
    requires some { (0 < length workers.items) × (length workers.items ≤ 64) }
    requires many { length workers.items ≡ service.seats }
    requires new { AreNewPasses service (map (λ worker. worker.pass.pass) workers.items) }
    ensures usage { result.status ≢ 2 }
    ensures leaves { LeavesBehind (O.out out.old) (O.out out.new) result.status result.journal }
    ensures done { result.status ≡ 0 → (L.ended result.listener ≡ true) ⊎ (queue.most ≤ L.given result.listener) }
    ensures failed { result.status ≡ 7 → 0 < L.faults result.listener }
{
    let mut workers = workers;
    let (listener, shut) = serve_all(rt, &service, workers.as_mut_slice(), queue);
    match close(service, workers) {
        Ok((journal, text)) => {
            let status = status_of(shut, write_all(out, text.as_slice()).is_ok());
            Served {
                status,
                listener,
                journal: Some(journal),
            }
        }
        Err(_) => Served {
            status: 5,
            listener,
            journal: None,
        },
    }
}

fn status_of(shut: Shut, written: bool) -> u8
    ensures { result ≡ serve_status shut written }
{
    match shut {
        Shut::Failed => 7,
        _ => { if written { 0 } else { 4 } }
    }
}

// The journal of a service that is closed, and its summary.
fn close<C: Clock + Drop>(
    service: Service<NoKeep>,
    workers: Vec<Worker<NoKeep, C>>,
) -> Result<(Journal<Placed>, Vec<u8>), AllocError>
    requires few { length workers.items ≤ 64 }
    requires every { AreEveryPass service (map (λ worker. worker.pass.pass) workers.items) }
    requires order { AreInOrder (map (λ worker. worker.pass.pass) workers.items) }
    ensures fit { IfOk result (λ r. AllFit namespace r.0.entries) }
    ensures text { IfOk result (λ r. r.1.items ≡ summary_of r.0.entries) }
{
    let alloc = service.alloc();
    let (passes, tally) = stop_workers(alloc, workers)?;
    let closing = service.close(passes);
    let journal = closing.journal;
    let text = summary_text(alloc, journal.len(), tally, journal.body_bytes())?;
    Ok((journal, text))
}
