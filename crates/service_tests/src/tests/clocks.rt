//! Signals between threads, and a clock that waits for them.
use conn_io::Clock;
use std::sync::Wait;
use std::sync::atomic::{AtomicBool, Ordering};
use std::thread::Threads;
use std::{hint, thread};

/// The most turns of a wait for what is to come.
pub(super) const TURNS_MOST: u32 = 10_000_000;

/// What one thread gives and others wait for.
#[derive(Drop)]
pub(super) struct Signal {
    given: AtomicBool,
}

impl Signal {
    /// A signal that is not given yet.
    pub(super) fn new() -> Signal {
        Signal {
            given: AtomicBool::new(false),
        }
    }

    /// Gives the signal.
    pub(super) fn give(&self) {
        self.given.store(true, Ordering::SeqCst);
    }

    /// Waits for the signal, at most so many turns, and answers whether it was given. Each thousandth turn gives the processor away.
    pub(super) fn comes_within(&self, turns: u32) -> bool {
        for turn in 0..turns {
            if self.given.load(Ordering::SeqCst) {
                return true;
            }
            if turn % 1_000 == 999 {
                thread::yield_now();
            } else {
                hint::spin_loop();
            }
        }
        self.given.load(Ordering::SeqCst)
    }
}

/// The signals of one connection.
#[derive(Drop)]
pub(super) struct Marks {
    /// It has begun.
    pub(super) begun: Signal,
    /// Its clock is in the call that waits.
    pub(super) reached: Signal,
    /// It is answered.
    pub(super) answered: Signal,
}

impl Marks {
    /// Signals that are not given yet.
    pub(super) fn new() -> Marks {
        Marks {
            begun: Signal::new(),
            reached: Signal::new(),
            answered: Signal::new(),
        }
    }

    fn signal(&self, awaited: Awaited) -> &Signal {
        match awaited {
            Awaited::Reached => &self.reached,
            Awaited::Answered => &self.answered,
        }
    }
}

/// What a clock waits for at last.
#[derive(Clone, Copy)]
pub(super) enum Awaited {
    Reached,
    Answered,
}

/// A call in which a clock waits twice for the other connection.
#[derive(Clone, Copy)]
pub(super) struct Meeting {
    /// The call, counted from 1.
    pub(super) at: u32,
    /// The turns of the wait until the other has begun.
    pub(super) begun_turns: u32,
    pub(super) last: Awaited,
    /// The turns of the last wait.
    pub(super) last_turns: u32,
}

/// A clock at the moment 0, which counts its calls and may wait in one of them.
#[derive(Drop)]
pub(super) struct MeetingClock<'a> {
    pub(super) calls: u32,
    /// Whether what it waited for came, at first and last.
    pub(super) came: (bool, bool),
    meeting: Option<Meeting>,
    mine: &'a Marks,
    other: &'a Marks,
}

impl<'a> MeetingClock<'a> {
    /// A clock that was not asked yet, with the signals of its own connection and of the other.
    pub(super) fn new(
        meeting: Option<Meeting>,
        mine: &'a Marks,
        other: &'a Marks,
    ) -> MeetingClock<'a> {
        MeetingClock {
            calls: 0,
            came: (false, false),
            meeting,
            mine,
            other,
        }
    }
}

impl<'a> Clock for MeetingClock<'a> {
    ghost use Rattle.std.specs.Prelude.{None};

    ghost ahead = { λ _. None };

    fn now(&mut self) -> u64 {
        self.calls = self.calls.saturating_add(1);
        if let Some(meeting) = self.meeting {
            if self.calls == meeting.at {
                self.came = met_in(&meeting, self.mine, self.other);
            }
        }
        0
    }
}

fn met_in(meeting: &Meeting, mine: &Marks, other: &Marks) -> (bool, bool) {
    mine.reached.give();
    let first = other.begun.comes_within(meeting.begun_turns);
    let last = other.signal(meeting.last).comes_within(meeting.last_turns);
    (first, last)
}

/// Whether two threads run at a time: each of two waits until the other has begun.
pub(super) fn run_together<R: Threads + Wait + Sync>(rt: &R) -> bool {
    let one = Signal::new();
    let other = Signal::new();
    let (first, second) = thread::join(rt, || met(&one, &other), || met(&other, &one));
    first && second
}

fn met(mine: &Signal, other: &Signal) -> bool {
    mine.give();
    other.comes_within(TURNS_MOST)
}
