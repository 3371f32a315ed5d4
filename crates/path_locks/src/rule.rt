//! The table's words, slots and views, and its rule.
//!
//! Words 0 to 63 are the lock words, 64 to 127 the latch words, and word 128 is the journal's. Slots 0 to 63 are those of
//! the parts, and slot 64 is the journal's.
use atomic_table::{Seat, Shared, Table, TableRule};
use commit_journal::{Journal, Keeper, Limits};
use lock_core::{Bodied, Parted, Sitting};
use std::alloc::Global;
use std::collections::LinkedList;
use std::marker::PhantomData;
use std::snapshot::Snapshot;

/// What lies in a slot.
#[derive(Drop)]
pub enum Slot<T, E: Bodied, K> {
    /// Nothing: the value is with the seat that took the slot.
    Empty,
    /// A part.
    Part(T),
    /// The journal and its keeper.
    Book(Journal<E>, K),
}

/// What a seat of the table knows. No program makes one: the table's rule and the contracts speak of it.
#[derive(Drop)]
pub struct View<T, E> {
    /// The seat as the lock machine has it.
    pub at: Sitting<T, E>,
    /// What the seat had seen of the journal each time that another seat was joined into it.
    pub before: LinkedList<LinkedList<E>>,
    /// How many seats there are, where this is the first one, and else 0.
    pub made: u64,
    /// The limits of the journal.
    pub limits: Limits,
    /// The count that the journal's keeper told when the seat last took the journal.
    pub taken: u64,
    /// The same, when the seat last gave it back.
    pub tape: u64,
}

/// What the table is told when it is made: the journal at its start, and how many seats there may be.
#[derive(Drop)]
pub struct Opening<E: Bodied, K> {
    /// The journal at the start.
    pub journal: Snapshot<Journal<E>>,
    /// The keeper at the start.
    pub keeper: Snapshot<K>,
    /// How many seats there may be.
    pub seats: u32,
}

/// The rule of the table: some state of the lock machine has its words, its homes and its seats, and is sound.
pub struct Locks<P, K> {
    marker: PhantomData<P>,
    keeper: PhantomData<K>,
}

impl<P: Parted, K: Keeper<P::Entry>> TableRule<
    Slot<P::Part, P::Entry, K>,
    View<P::Part, P::Entry>,
    Opening<P::Entry, K>,
> for Locks<P, K> {
    ghost use Rattle.path_locks.specs.Rule.{Ruled, first_view};

    ghost holds = { Ruled P.object P.bare K.tells };

    ghost first = { first_view P.object K.tells };
}

/// The slot of an object's table.
pub type LockSlot<P, K> = Slot<<P as Parted>::Part, <P as Parted>::Entry, K>;

/// What a seat of an object's table knows.
pub type LockView<P> = View<<P as Parted>::Part, <P as Parted>::Entry>;

/// A seat of an object's table.
pub type LockSeat<P, K> = Seat<LockSlot<P, K>, LockView<P>>;

/// The words and slots of an object's table, as seats step on them.
pub type LockWords<P, K> = Shared<
    LockSlot<P, K>,
    LockView<P>,
    Opening<<P as Parted>::Entry, K>,
    Locks<P, K>,
>;

/// An object's table with its memory.
pub type LockMemory<P, K> = Table<
    LockSlot<P, K>,
    LockView<P>,
    Opening<<P as Parted>::Entry, K>,
    Locks<P, K>,
    Global,
>;
