//! Tables of two seats.
ghost use Rattle.std.specs.Prelude.{◌≡◌, length};
ghost use Rattle.lock_core.specs.Tallied.{tally};
ghost use Rattle.path_locks.specs.Views.{AreNewSeats};

use commit_journal::{Journal, Limits, NoKeep};
use lock_core::{Parted, Tally, TallyEntry};
use path_locks::{LockTable, Seat};
use std::alloc::{AllocError, Global};
use std::marker::Model;
use std::test::Fail;

pub(super) type TallyTable = LockTable<Tally, NoKeep>;

pub(super) type TallySeat = Seat<Tally, NoKeep>;

/// A table and its two seats, each of which holds nothing.
#[derive(Drop)]
pub(super) struct SeatPair {
    pub(super) table: TallyTable,
    /// Empty, with room for both.
    pub(super) seats: Vec<TallySeat>,
    pub(super) first: TallySeat,
    pub(super) second: TallySeat,
}

impl Model for SeatPair {
    ghost use Rattle.lock_tests.specs.Pairs.{AreBothSeats};

    ghost Value = { Unit {0} };

    ghost view = { λ _. tt };

    ghost invariant = { λ p. AreBothSeats p.table p.seats.items p.first p.second };
}

/// A table with its two new seats.
fn paired(table: TallyTable, mut seats: Vec<TallySeat>) -> Result<SeatPair, Fail>
    requires many { (table.seats ≡ 2) × (length seats.items ≡ 2) }
    requires new { AreNewSeats tally table seats.items }
{
    let Some(second) = seats.pop() else {
        return Err(Fail::new("no seat"));
    };
    let Some(first) = seats.pop() else {
        return Err(Fail::new("one seat"));
    };
    Ok(SeatPair {
        table,
        seats,
        first,
        second,
    })
}

impl SeatPair {
    /// A table with a journal of at most nine entries.
    pub(super) fn open(alloc: Global) -> Result<SeatPair, Fail> {
        let limits = Limits::new(2, 9, 100, 1).ok_or("no limits")?;
        let parts = Tally::opening_parts(alloc)?;
        let journal = Journal::new(alloc, &limits);
        let (table, seats) = LockTable::<Tally, NoKeep>::start(alloc, parts, journal, 2, NoKeep)?;
        paired(table, seats)
    }

    /// Closes the table.
    pub(super) fn close(self) -> Result<(Vec<u64>, Journal<TallyEntry>, NoKeep), AllocError> {
        let SeatPair {
            table,
            mut seats,
            first,
            second,
        } = self;
        seats.push(first)?;
        seats.push(second)?;
        Ok(table.close(seats))
    }
}
