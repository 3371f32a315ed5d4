//! The end of a table: all its seats go into one, and what lies in its slots is taken out.
ghost use Rattle.std.specs.Prelude.{◌≡◌, ◌<◌, ◌≤◌, ℕ, [], slice_get, Some, vec_capacity};
ghost use Rattle.std.specs.Slots.{slots_items, slots_len, IsFull};
ghost use mathlib.Core.Option.{some};
ghost use lib.ListN.{get_elem?};
ghost use Rattle.lock_core.specs.declared.machine.Known.{Known};
ghost use Rattle.lock_core.specs.Machine.{known};
ghost use Rattle.commit_journal.specs.Journal.{JournalView};
ghost use Rattle.path_locks.specs.declared.rule.Slot.TheVariants.{Part, Book};
ghost use Rattle.path_locks.specs.Plays.{IsResting};
ghost use Rattle.path_locks.specs.Holding.{IsSized};
ghost use Rattle.path_locks.specs.Views.{SeatView, HoldsNothing, table_of, Knew, AreEverySeat, AreTakenOut};

use crate::held::Seat;
use crate::rule::{LockSeat, LockSlot, LockWords, Slot};
use crate::start::add;
use crate::steps::join_seats;
use atomic_table::Closed;
use commit_journal::{Journal, Keeper};
use lock_core::Parted;
use std::alloc::Global;

/// Joins one seat into another. Both hold nothing.
fn join_in<P: Parted, K: Keeper<P::Entry>>(
    words: &LockWords<P, K>,
    seat: &mut LockSeat<P, K>,
    other: Seat<P, K>,
)
    requires own { (seat.old.table_id ≡ words.now.table_id) × (other.table ≡ words.now.table_id) × IsSized words.now.table_id }
    requires rest { IsResting seat.old.me.0.at }
    requires nothing { HoldsNothing other }
    ensures own { (seat.new.table_id ≡ seat.old.table_id) × (seat.new.id ≡ seat.old.id) }
    ensures rest { IsResting seat.new.me.0.at }
    ensures kept { (p : Known P.Entry) → Knew seat.old.me.0 p → Knew seat.new.me.0 p }
    ensures new { Knew seat.new.me.0 (known other.me.0.at) }
{
    let Seat {
        seat: other,
        room: _,
    } = other;
    join_seats(words, seat, other);
}

/// The last seat, once all others were joined into it.
pub(crate) fn join_all<P: Parted, K: Keeper<P::Entry>>(
    words: &LockWords<P, K>,
    mut seats: Vec<Seat<P, K>>,
) -> LockSeat<P, K>
    requires own { IsSized words.now.table_id }
    requires every { AreEverySeat (table_of K.tells words.now.table_id words.now.key) seats.items }
    requires some { 1 ≤ words.now.key.seats }
    ensures own { result.table_id ≡ words.now.table_id }
    ensures rest { IsResting result.me.0.at }
    ensures knew { (k : ℕ) (s : SeatView P.Part P.Entry K) → slice_get seats.items k ≡ Some s → Knew result.me.0 (known s.me.0.at) }
{
    let Some(last) = seats.pop() else {
        unreachable!()
    };
    let Seat { mut seat, room: _ } = last;
    while let Some(other) = seats.pop() {
        join_in(words, &mut seat, other);
    }
    seat
}

/// The parts, the journal and its keeper that lie in the slots, the parts in a list that has room for them.
pub(crate) fn take_out<P: Parted, K: Keeper<P::Entry>>(
    mut closed: Closed<LockSlot<P, K>, Global>,
    mut parts: Vec<P::Part>,
) -> (Vec<P::Part>, Journal<P::Entry>, K)
    requires full { IsFull closed.slots × (slots_len closed.slots ≡ 65) }
    requires parts { (k : ℕ) → k < 64 → (y : P.Part) × (get_elem? (slots_items closed.slots) k ≡ some (Part y)) }
    requires book { (b : JournalView P.Entry) × (k : K) × (get_elem? (slots_items closed.slots) 64 ≡ some (Book b k)) }
    requires room { (parts.items ≡ []) × (64 ≤ vec_capacity parts) }
    ensures { AreTakenOut (slots_items closed.slots) result.0.items result.1 result.2 }
{
    for stripe in 0..64usize {
        let Slot::Part(part) = closed.take(stripe) else {
            unreachable!()
        };
        add(&mut parts, part);
    }
    let Slot::Book(journal, keeper) = closed.take(64) else {
        unreachable!()
    };
    closed.free();
    (parts, journal, keeper)
}
