//! What each kind of step tells its seat, and how seats are made and joined. These types are for the proofs alone.
use crate::rule::{LockSlot, LockView};
use atomic_table::{Join, Play, Split};
use commit_journal::Keeper;
use lock_core::Parted;
use std::marker::PhantomData;

/// Takes a stripe shared, where its word is still what was read.
pub(crate) struct TakesShared<P, K> {
    marker: PhantomData<P>,
    keeper: PhantomData<K>,
}

impl<P: Parted, K: Keeper<P::Entry>> Play<LockSlot<P, K>, LockView<P>> for TakesShared<P, K> {
    ghost use Rattle.path_locks.specs.Plays.{took_shared};

    ghost then = { took_shared P.object };
}

/// Takes a stripe exclusively, and its part, where nobody holds it.
pub(crate) struct TakesExclusive<P, K> {
    marker: PhantomData<P>,
    keeper: PhantomData<K>,
}

impl<P: Parted, K: Keeper<P::Entry>> Play<LockSlot<P, K>, LockView<P>> for TakesExclusive<P, K> {
    ghost use Rattle.path_locks.specs.Plays.{took_exclusive};

    ghost then = { took_exclusive P.object P.bare };
}

/// Gives back a stripe that is held shared.
pub(crate) struct GivesShared<P, K> {
    marker: PhantomData<P>,
    keeper: PhantomData<K>,
}

impl<P: Parted, K: Keeper<P::Entry>> Play<LockSlot<P, K>, LockView<P>> for GivesShared<P, K> {
    ghost use Rattle.path_locks.specs.Plays.{gave_shared};

    ghost then = { gave_shared P.object };
}

/// Gives back a stripe that is held exclusively, and its part.
pub(crate) struct GivesExclusive<P, K> {
    marker: PhantomData<P>,
    keeper: PhantomData<K>,
}

impl<P: Parted, K: Keeper<P::Entry>> Play<LockSlot<P, K>, LockView<P>> for GivesExclusive<P, K> {
    ghost use Rattle.path_locks.specs.Plays.{gave_exclusive};

    ghost then = { gave_exclusive P.object };
}

/// Takes the journal, where nobody has it.
pub(crate) struct TakesJournal<P, K> {
    marker: PhantomData<P>,
    keeper: PhantomData<K>,
}

impl<P: Parted, K: Keeper<P::Entry>> Play<LockSlot<P, K>, LockView<P>> for TakesJournal<P, K> {
    ghost use Rattle.path_locks.specs.Moves.{took_journal};

    ghost then = { took_journal P.object K.tells };
}

/// Gives the journal back as it was.
pub(crate) struct GivesJournal<P, K> {
    marker: PhantomData<P>,
    keeper: PhantomData<K>,
}

impl<P: Parted, K: Keeper<P::Entry>> Play<LockSlot<P, K>, LockView<P>> for GivesJournal<P, K> {
    ghost use Rattle.path_locks.specs.Moves.{gave_journal};

    ghost then = { gave_journal P.object K.tells };
}

/// Gives the journal back with one entry more.
pub(crate) struct GivesLonger<P, K> {
    marker: PhantomData<P>,
    keeper: PhantomData<K>,
}

impl<P: Parted, K: Keeper<P::Entry>> Play<LockSlot<P, K>, LockView<P>> for GivesLonger<P, K> {
    ghost use Rattle.path_locks.specs.Moves.{gave_longer};

    ghost then = { gave_longer P.object K.tells };
}

/// Takes the latch of a stripe that is held shared, and its part, where nobody has it.
pub(crate) struct TakesLatch<P, K> {
    marker: PhantomData<P>,
    keeper: PhantomData<K>,
}

impl<P: Parted, K: Keeper<P::Entry>> Play<LockSlot<P, K>, LockView<P>> for TakesLatch<P, K> {
    ghost use Rattle.path_locks.specs.Moves.{took_latch};

    ghost then = { took_latch P.object P.bare };
}

/// Gives a latch back, and the part.
pub(crate) struct GivesLatch<P, K> {
    marker: PhantomData<P>,
    keeper: PhantomData<K>,
}

impl<P: Parted, K: Keeper<P::Entry>> Play<LockSlot<P, K>, LockView<P>> for GivesLatch<P, K> {
    ghost use Rattle.path_locks.specs.Moves.{gave_latch};

    ghost then = { gave_latch P.object };
}

/// Gives the part of a stripe that is held exclusively back, and holds the stripe shared.
pub(crate) struct MakesShared<P, K> {
    marker: PhantomData<P>,
    keeper: PhantomData<K>,
}

impl<P: Parted, K: Keeper<P::Entry>> Play<LockSlot<P, K>, LockView<P>> for MakesShared<P, K> {
    ghost use Rattle.path_locks.specs.Moves.{made_shared};

    ghost then = { made_shared P.object };
}

/// The first seat makes one with the next number.
pub(crate) struct Numbered<P, K> {
    marker: PhantomData<P>,
    keeper: PhantomData<K>,
}

impl<P: Parted, K: Keeper<P::Entry>> Split<LockView<P>> for Numbered<P, K> {
    ghost use Rattle.path_locks.specs.Plays.{made_another, new_view};

    ghost left = { made_another };

    ghost right = { new_view P.object };
}

/// A seat takes in another one.
pub(crate) struct TakesIn<P, K> {
    marker: PhantomData<P>,
    keeper: PhantomData<K>,
}

impl<P: Parted, K: Keeper<P::Entry>> Join<LockView<P>> for TakesIn<P, K> {
    ghost use Rattle.path_locks.specs.Plays.{joined_view, spent_view};

    ghost both = { joined_view };

    ghost spent = { spent_view };
}
