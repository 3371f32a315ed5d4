//! What gives connections, and one in memory.
ghost use Rattle.std.specs.Prelude.{ℕ, Bool, Option, ◌<◌};
ghost use Rattle.conn_io.specs.Accepts.{Gives, Leaves, EndsHere, HasRisen, CONNECTIONS_MOST};

use super::memory::{BytesIn, BytesOut};
use super::outside::{Sink, Source};
use std::collections::VecDeque;

/// What a listener answers.
#[derive(Drop)]
pub enum Accept<I, O> {
    /// A connection: its source and its sink.
    Conn(I, O),
    /// No connection comes any more.
    Ended,
    /// The listener failed, and counted it.
    Failed,
}

/// What gives connections.
pub trait Listener {
    /// Where the bytes of a connection come from.
    type In: Source + Drop + Send;

    /// Where the bytes for it go.
    type Out: Sink + Drop + Send;

    // How many connections it gave.
    ghost given: { Self → ℕ };

    // Whether no connection comes any more. It stays so.
    ghost ended: { Self → Bool };

    // How many are still to come, where it tells it.
    ghost left: { Self → Option ℕ };

    // How often it failed. The count never falls, and stands still at the end of a `u64`.
    ghost faults: { Self → ℕ };

    /// Waits for the next connection. `Ended` comes where none comes any more; `Failed` only where the count of faults rose.
    fn accept(&mut self) -> Accept<Self::In, Self::Out>
        requires { given self.old < CONNECTIONS_MOST }
        ensures gives { Gives (given self.old) (given self.new) result }
        ensures leaves { Leaves (left self.old) (left self.new) result }
        ensures ends { EndsHere (ended self.old) (ended self.new) (left self.old) result }
        ensures cause { HasRisen (faults self.old) (faults self.new) result };
}

/// A listener in memory: connections that come one after the other.
#[derive(Drop)]
pub struct ConnList {
    conns: VecDeque<(BytesIn, BytesOut)>,
    failing: Vec<u64>,
    calls: u64,
    given: u32,
    ended: bool,
    faults: u64,
}

impl ConnList {
    ghost use Rattle.conn_io.specs.Memory.{IsNewList};

    /// A listener of these connections in their order. Call `k`, counted from 0, fails exactly where `k` is in `failing`; no call takes
    /// memory.
    pub fn new(conns: Vec<(BytesIn, BytesOut)>, failing: Vec<u64>) -> ConnList
        ensures { IsNewList conns.items failing.items result }
    {
        ConnList {
            conns: VecDeque::from_vec(conns),
            failing,
            calls: 0,
            given: 0,
            ended: false,
            faults: 0,
        }
    }
}

impl Listener for ConnList {
    ghost use Rattle.std.specs.Prelude.{◌≡◌, ◌<◌, Some, length};
    ghost use Rattle.conn_io.specs.Accepts.{Gives, Leaves, EndsHere, HasRisen, CONNECTIONS_MOST};
    ghost use Rattle.conn_io.specs.Memory.{AcceptsNext};

    type In = BytesIn;

    type Out = BytesOut;

    ghost given = { λ s. s.given };

    ghost ended = { λ s. s.ended };

    ghost left = { λ s. Some (length s.conns.items) };

    ghost faults = { λ s. s.faults };

    fn accept(&mut self) -> Accept<BytesIn, BytesOut>
        requires { self.old.given < CONNECTIONS_MOST }
        ensures gives { Gives self.old.given self.new.given result }
        ensures leaves { Leaves (Some (length self.old.conns.items)) (Some (length self.new.conns.items)) result }
        ensures ends { EndsHere self.old.ended self.new.ended (Some (length self.old.conns.items)) result }
        ensures cause { HasRisen self.old.faults self.new.faults result }
        ensures next { AcceptsNext self.old self.new result }
    {
        let call = self.calls;
        self.calls = call.saturating_add(1);
        if self.failing.contains(&call) {
            self.faults = self.faults.saturating_add(1);
            return Accept::Failed;
        }
        match self.conns.pop_front() {
            Some((source, sink)) => {
                self.given += 1;
                Accept::Conn(source, sink)
            }
            None => {
                self.ended = true;
                Accept::Ended
            }
        }
    }
}
