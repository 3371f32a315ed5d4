ghost use Rattle.std.specs.Prelude.{◌≡◌};
ghost use Rattle.lock_core.specs.declared.machine.StepStop.TheVariants.{NoMemory};

use crate::object::{Parted, Played};
use std::alloc::AllocError;
use std::collections::LinkedList;
use thiserror::Error;

/// How a seat holds one stripe, with its note: the part that it found. No program makes one: the machine's definitions
/// and the view of a running table speak of it.
#[derive(Drop)]
pub enum Hold<T> {
    /// Not held.
    Free,
    /// Held shared, and not looked at.
    Shared,
    /// Held shared, with the part that was found.
    Looked(T),
    /// Held exclusively, with the part that was found.
    Exclusive(T),
}

/// What a seat that was joined into another one knew: its number, the journal that it saw, and its own entries. No
/// program makes one.
#[derive(Drop)]
pub struct Known<E> {
    /// Its number.
    pub number: u64,
    /// The beginning of the journal that it saw.
    pub seen: LinkedList<E>,
    /// Its own entries of the journal.
    pub mine: LinkedList<E>,
}

/// A seat of the lock machine: its number, how it holds each of the 64 stripes, its latch, whether it has the journal,
/// the journal that it saw, its own entries, and the seats that were joined into it. No program makes one.
#[derive(Drop)]
pub struct Sitting<T, E> {
    /// Whether the seat is there, and not joined into another.
    pub live: bool,
    /// Its number, from 0 in the order in which the seats were made.
    pub number: u64,
    /// How it holds each of the 64 stripes.
    pub holds: LinkedList<Hold<T>>,
    /// The stripe whose latch it has.
    pub latch: Option<u8>,
    /// Whether it has the journal.
    pub journal: bool,
    /// The beginning of the journal that it saw.
    pub seen: LinkedList<E>,
    /// Its own entries of the journal.
    pub mine: LinkedList<E>,
    /// The seats that were joined into it.
    pub olds: LinkedList<Known<E>>,
}

/// What may happen in the lock machine. A seat is named by its number, a stripe is below 64.
#[derive(Drop)]
pub enum Event<P: Played> {
    /// The seat reads a word.
    Load(u32),
    /// The seat takes the stripe shared.
    LockShared(u32, u8),
    /// The seat takes the stripe exclusively, and its part.
    LockExclusive(u32, u8),
    /// The seat gives back a stripe that it holds shared.
    UnlockShared(u32, u8),
    /// The seat gives back a stripe that it holds exclusively, and its part.
    UnlockExclusive(u32, u8),
    /// The seat gives the part back and holds the stripe shared.
    Downgrade(u32, u8),
    /// The seat takes the part of a stripe that it holds shared, to look at it.
    LatchTake(u32, u8),
    /// The seat gives that part back.
    LatchGive(u32, u8),
    /// The seat takes the journal.
    JournalTake(u32),
    /// The seat gives the journal back as it was.
    JournalGive(u32),
    /// The seat gives the journal back with this entry more.
    Commit(u32, P::Entry),
    /// The seat makes a new one.
    Split(u32),
    /// The first seat goes into the second.
    Join(u32, u32),
}

/// What an event asks for.
#[derive(Clone, Copy, Debug, PartialEq, Eq)]
pub enum Clause {
    /// The seat is live; where there are two, both are, and they are distinct.
    Live,
    /// The seat doesn't have the journal.
    NoJournal,
    /// The seat has no latch.
    NoLatch,
    /// The stripe is above every stripe that the seat holds.
    Ascending,
    /// The word allows it: nobody has what the event takes.
    Free,
    /// The seat holds the stripe in the mode that the event gives back or rests on, or has its latch.
    Holds,
    /// The seat has the journal.
    HoldsJournal,
    /// The seat has a note of each stripe that it holds.
    Looked,
    /// The seat holds exactly the stripes that the entry reads and writes, each in its mode.
    Footprint,
    /// The entry is one that the seat may make.
    Fits,
    /// Both seats hold nothing.
    Idle,
}

/// Why the machine made no step.
#[derive(Debug, Drop, Error)]
pub enum StepStop {
    /// The event breaks this clause, and no clause that is asked before it.
    #[error("the event is not allowed: {0:?}")]
    NotAllowed(Clause),
    /// Memory is wanting.
    #[error("out of memory")]
    NoMemory,
}

impl From<AllocError> for StepStop {
    ghost from_gives = { λ _ e. e ≡ NoMemory };

    fn from(_error: AllocError) -> StepStop {
        StepStop::NoMemory
    }
}
