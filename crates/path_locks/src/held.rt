//! Seats, and what they hold.
ghost use Rattle.std.specs.Prelude.{◌≡◌, IfOk};
ghost use Rattle.path_locks.specs.Views.{SeatView, IsHeldBy};
ghost use Rattle.path_locks.specs.Working.{AreReady, AreSameParts};

use crate::plan::Plan;
use crate::rule::LockSeat;
use crate::steps::reserve_all;
use commit_journal::Keeper;
use lock_core::Parted;
use std::alloc::AllocError;
use std::marker::{Model, PhantomData};

/// A seat of a table of locks, which one thread at a time steps with. A contract sees its table, its place there, what it
/// knows with its slots in hand, and its places for parts.
#[derive(Drop)]
pub struct Seat<P: Parted, K: Keeper<P::Entry>> {
    pub(crate) seat: LockSeat<P, K>,
    pub(crate) room: Vec<Option<P::Part>>,
}

impl<P: Parted, K: Keeper<P::Entry>> Model for Seat<P, K> {
    ghost use Rattle.path_locks.specs.Views.{SeatView};
    ghost use Rattle.path_locks.specs.Between.{IsBetween};

    ghost Value = { SeatView P.Part P.Entry K };

    ghost view = { λ s. record { table = s.seat.table_id; id = s.seat.id; me = s.seat.me; room = s.room.items } };

    ghost invariant = { λ s. IsBetween P.object s.seat.me };
}

/// What a seat holds: a mode for each stripe, and the parts of the stripes that it holds exclusively. A contract sees the
/// modes, the parts, and how wide the plan was that was taken.
#[derive(Drop)]
pub struct Held<P: Parted, K: Keeper<P::Entry>> {
    pub(crate) plan: Plan,
    pub(crate) parts: Vec<Option<P::Part>>,
    pub(crate) wide: u32,
    pub(crate) keeper: PhantomData<K>,
}

impl<P: Parted, K: Keeper<P::Entry>> Model for Held<P, K> {
    ghost use Rattle.path_locks.specs.Views.{HeldView};

    ghost Value = { HeldView P.Part };

    ghost view = { λ h. record { modes = h.plan; parts = h.parts.items; wide = h.wide } };
}

impl<P: Parted, K: Keeper<P::Entry>> Held<P, K> {
    /// The number of stripes that were taken shared, and twice that of those taken exclusively.
    pub fn wide(&self) -> u32
        ensures { result ≡ self.now.wide }
    {
        self.wide
    }

    /// Makes the work ready in each part of a stripe that is held exclusively. The parts stay the same but for what is kept
    /// ready in them, and so does all else that is held. The one error is want of memory.
    pub fn reserve(&mut self, work: &P::Work) -> Result<(), AllocError>
        ensures modes { self.new.modes ≡ self.old.modes }
        ensures wide { self.new.wide ≡ self.old.wide }
        ensures same { AreSameParts P.bare self.old.parts self.new.parts }
        ensures held { (seat : SeatView P.Part P.Entry K) → IsHeldBy P.bare seat self.old → IsHeldBy P.bare seat self.new }
        ensures ready { IfOk result (λ _. AreReady P.ready work.now self.new.parts) }
    {
        reserve_all::<P>(&mut self.parts, work)
    }
}
