//! The queue, and what lies under its lock.
ghost use Rattle.std.specs.Prelude.{◌≡◌, ◌<◌, ◌≤◌, max, true, false, None, Some, IfSome};
ghost use Rattle.conn_queue.specs.declared.queue.Shut.{Shut};
ghost use Rattle.conn_queue.specs.Turns.{shut_as, HasShut, Numbers, Tells, answer_when};

use conn_io::{Accept, Listener};
use std::sync::{Mutex, Wait};

/// What a worker takes.
#[derive(Drop)]
pub enum Taken<I, O> {
    /// A connection: its number, counted from 0 in the order in which the listener gave them, its source and its sink.
    Conn(u32, I, O),
    /// No connection is taken any more: as many were taken as were to be, or the listener ended.
    Ended,
    /// The listener failed.
    Failed,
}

/// Why no connection is taken any more.
#[derive(Clone, Copy, Debug, PartialEq, Eq)]
pub enum Shut {
    /// As many were taken as were to be.
    Most,
    /// The listener ended.
    Ended,
    /// The listener failed.
    Failed,
}

/// What lies under the lock of a queue: the listener, how many connections are taken at most, and whether the listener has stopped.
#[derive(Drop)]
pub struct ConnState<L: Listener> {
    listener: L,
    most: u32,
    taken: u32,
    // what the listener answered in place of a connection
    kept: Option<Shut>,
    ghost counted: { taken ≡ L.given listener },
    ghost bounded: { taken ≤ most },
    ghost ended: { kept ≡ Some Shut.Ended → L.ended listener ≡ true },
    ghost failed: { kept ≡ Some Shut.Failed → 0 < L.faults listener },
    ghost listeners: { (kept ≡ Some Shut.Most) → ⊥ },
}

impl<L: Listener> ConnState<L> {
    /// Takes the next connection, and may wait for it. `Ended` comes only where as many were taken as were to be or the listener ended,
    /// `Failed` only where its count of faults is above 0; both are kept for good.
    pub fn next(&mut self) -> Taken<L::In, L::Out>
        ensures most { self.new.most ≡ self.old.most }
        ensures numbers { Numbers (L.given self.old.listener) (L.given self.new.listener) result }
        ensures tells { Tells (shut_as self.new.most (L.given self.new.listener) self.new.kept) result }
        ensures stays { IfSome (shut_as self.old.most (L.given self.old.listener) self.old.kept) (λ shut. (result ≡ answer_when shut) × (self.new ≡ self.old)) }
    {
        if self.taken >= self.most {
            return Taken::Ended;
        }
        match self.kept {
            Some(Shut::Failed) => return Taken::Failed,
            Some(_) => return Taken::Ended,
            None => {}
        }
        match self.listener.accept() {
            Accept::Conn(source, sink) => {
                let number = self.taken;
                self.taken += 1;
                Taken::Conn(number, source, sink)
            }
            Accept::Ended => {
                self.kept = Some(Shut::Ended);
                Taken::Ended
            }
            Accept::Failed => {
                self.kept = Some(Shut::Failed);
                Taken::Failed
            }
        }
    }

    /// Gives the listener back, with the number of connections that it gave, and why none is taken any more, where none is.
    pub fn close(self) -> (L, u32, Option<Shut>)
        ensures listener { result.0 ≡ self.listener }
        ensures given { result.1 ≡ L.given result.0 }
        ensures shut { result.2 ≡ shut_as self.most (L.given self.listener) self.kept }
        ensures cause { IfSome result.2 (HasShut self.most (L.given result.0) (L.ended result.0) (L.faults result.0)) }
    {
        let ConnState {
            listener,
            most,
            taken,
            kept,
        } = self;
        let shut = if taken >= most {
            Some(Shut::Most)
        } else {
            kept
        };
        (listener, taken, shut)
    }
}

/// A listener under a lock, from which workers take connections, up to `most` of them. A contract sees how many that are.
pub struct ConnQueue<L: Listener> {
    state: Mutex<ConnState<L>>,
    most: u32,
}

impl<L: Listener + Send> ConnQueue<L> {
    /// A queue of a listener that has given no connection, has not ended and has counted no fault.
    pub fn new(listener: L, most: u32) -> ConnQueue<L>
        requires given { L.given listener ≡ 0 }
        requires ended { L.ended listener ≡ false }
        requires faults { L.faults listener ≡ 0 }
        ensures { result.most ≡ most }
    {
        let state = ConnState {
            listener,
            most,
            taken: 0,
            kept: None,
        };
        ConnQueue {
            state: Mutex::new(state),
            most,
        }
    }

    /// Takes the lock and answers what `ConnState::next` answers.
    pub fn take<R: Wait>(&self, rt: &R) -> Taken<L::In, L::Out> {
        self.state.lock(rt).next()
    }

    /// Takes what lies under the lock. As many connections are taken at most as the queue was made for, or as were taken.
    pub fn into_state(self) -> ConnState<L>
        ensures { result.most ≡ max self.most (L.given result.listener) }
    {
        let ConnQueue { state, most } = self;
        let mut state = state.into_inner();
        state.most = most.max(state.taken);
        state
    }

    /// Gives the listener back, with the number of connections that it gave, and why none is taken any more, where none is.
    pub fn close(self) -> (L, u32, Option<Shut>)
        ensures given { result.1 ≡ L.given result.0 }
        ensures cause { IfSome result.2 (HasShut self.most (L.given result.0) (L.ended result.0) (L.faults result.0)) }
        ensures some_left { result.2 ≡ None → L.given result.0 < self.most }
    {
        self.into_state().close()
    }
}
