//! Workers, and connections one after the other.
ghost use Rattle.std.specs.Prelude.{◌≡◌, ◌<◌, All, IsSome, length};
ghost use Rattle.conn_queue.specs.Turns.{HasShut, shut_as};
ghost use Rattle.conn_workers.specs.Workers.{EachPair, IsReady, HasWorked};

use super::connection::serve_connection;
use super::counted::CountedPass;
use commit_journal::Keeper;
use conn_io::{Clock, Listener};
use conn_queue::{ConnQueue, ConnState, Shut, Taken};
use inode_tree::Placed;
use service_workers::Service;
use std::sync::Wait;
use std::thread;
use std::thread::Threads;

/// What serves connections, one after the other: a pass of the service, which counts replies, and a clock.
#[derive(Drop)]
pub struct Worker<K: Keeper<Placed>, C: Clock> {
    pub pass: CountedPass<K>,
    pub clock: C,
}

/// Serves connections from the queue, with each worker in a thread of its own where one can be made, until as many were taken as were
/// to be, or the listener ended or failed; then answers the listener, and which of these it was. There is a worker.
///
/// Each worker serves the connections that it took one after the other. What is still to be taken once all threads have ended is served
/// by the first worker.
pub fn serve_all<
    R: Threads + Wait + Sync,
    K: Keeper<Placed> + Send,
    L: Listener + Send,
    C: Clock + Send,
>(rt: &R, service: &Service<K>, workers: &mut [Worker<K, C>], queue: ConnQueue<L>) -> (L, Shut)
    requires some { 0 < length workers.old }
    requires ready { All (λ w. IsReady service.now w.pass.pass) workers.old }
    ensures ready { All (λ w. IsReady service.now w.pass.pass) workers.new }
    ensures many { length workers.new ≡ length workers.old }
    ensures worked { EachPair (λ old new. HasWorked service.now.limits old.pass.pass new.pass.pass) workers.old workers.new }
    ensures shut { HasShut queue.most (L.given result.0) (L.ended result.0) (L.faults result.0) result.1 }
{
    let count = workers.len();
    let serve = |_: usize, worker: &mut Worker<K, C>|
        requires { IsReady service.now worker.now.pass.pass }
        ensures { IsReady service.entry.now worker.exit.now.pass.pass × HasWorked service.entry.now.limits worker.entry.now.pass.pass worker.exit.now.pass.pass }
    { serve_taken(rt, service, worker, &queue) };
    thread::for_each_mut(rt, workers, count, &serve);
    serve_rest(rt, service, &mut workers[0], queue.into_state())
}

// Serves what a worker takes from the queue.
fn serve_taken<R: Wait, K: Keeper<Placed>, L: Listener + Send, C: Clock>(
    rt: &R,
    service: &Service<K>,
    worker: &mut Worker<K, C>,
    queue: &ConnQueue<L>,
)
    requires ready { IsReady service.now worker.old.pass.pass }
    ensures ready { IsReady service.now worker.new.pass.pass }
    ensures worked { HasWorked service.now.limits worker.old.pass.pass worker.new.pass.pass }
{
    for _ in rt.forever() {
        let Taken::Conn(conn, mut source, mut sink) = queue.take(rt) else {
            return;
        };
        serve_connection(rt, service, worker, conn, &mut source, &mut sink);
    }
}

// Serves what is still to be taken, by one worker.
fn serve_rest<R: Wait, K: Keeper<Placed>, L: Listener + Send, C: Clock>(
    rt: &R,
    service: &Service<K>,
    worker: &mut Worker<K, C>,
    state: ConnState<L>,
) -> (L, Shut)
    requires ready { IsReady service.now worker.old.pass.pass }
    ensures ready { IsReady service.now worker.new.pass.pass }
    ensures worked { HasWorked service.now.limits worker.old.pass.pass worker.new.pass.pass }
    ensures shut { HasShut state.most (L.given result.0) (L.ended result.0) (L.faults result.0) result.1 }
{
    let mut state = state;
    for _ in rt.forever() {
        match state.next() {
            Taken::Conn(conn, mut source, mut sink) => {
                serve_connection(rt, service, worker, conn, &mut source, &mut sink);
            }
            Taken::Ended | Taken::Failed => return close(state),
        }
    }
    unreachable!()
}

// The listener of a queue that is shut, and why it is.
fn close<L: Listener>(state: ConnState<L>) -> (L, Shut)
    requires shut { IsSome (shut_as state.most (L.given state.listener) state.kept) }
    ensures shut { HasShut state.most (L.given result.0) (L.ended result.0) (L.faults result.0) result.1 }
{
    let (listener, _, shut) = state.close();
    match shut {
        Some(shut) => (listener, shut),
        None => unreachable!(),
    }
}
