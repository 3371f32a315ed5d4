//! The seats of a table at its start.
ghost use Rattle.std.specs.Prelude.{◌≡◌, ◌+◌, ◌<◌, ◌≤◌, [], length, map, replicate, None, vec_capacity};
ghost use Rattle.lock_core.specs.Sound.{AllFit};
ghost use Rattle.path_locks.specs.Rule.{first_view};
ghost use Rattle.path_locks.specs.Holding.{IsSized};
ghost use Rattle.path_locks.specs.Views.{counting, table_of, IsNewSeat, AreNewSeats};

use crate::held::Seat;
use crate::rule::{LockSeat, LockWords};
use crate::start::add;
use crate::steps::split_seat;
use commit_journal::Keeper;
use lock_core::Parted;

/// The first seat makes another one, with the next number.
fn another_seat<P: Parted, K: Keeper<P::Entry>>(
    words: &LockWords<P, K>,
    first: &mut LockSeat<P, K>,
    room: Vec<Option<P::Part>>,
) -> Seat<P, K>
    requires own { (first.old.table_id ≡ words.now.table_id) × IsSized words.now.table_id }
    requires first { first.old.me ≡ (counting (first_view P.object K.tells words.now.key) first.old.me.0.made, []) }
    requires more { (0 < first.old.me.0.made) × (first.old.me.0.made < words.now.key.seats) }
    requires fit { AllFit P.object words.now.key.journal.value.entries }
    requires empty { room.items ≡ replicate 64 None }
    ensures own { (first.new.table_id ≡ first.old.table_id) × (first.new.id ≡ first.old.id) }
    ensures first { first.new.me ≡ (counting (first_view P.object K.tells words.now.key) (first.old.me.0.made + 1), []) }
    ensures new { IsNewSeat P.object (table_of K.tells words.now.table_id words.now.key) first.old.me.0.made result }
{
    let seat = split_seat(words, first);
    Seat { seat, room }
}

/// Seats with the numbers from 0 on, one for each room, in a list that has room for them.
pub(crate) fn make_seats<P: Parted, K: Keeper<P::Entry>>(
    words: &LockWords<P, K>,
    mut first: LockSeat<P, K>,
    mut rooms: Vec<Vec<Option<P::Part>>>,
    mut seats: Vec<Seat<P, K>>,
) -> Vec<Seat<P, K>>
    requires own { (first.table_id ≡ words.now.table_id) × IsSized words.now.table_id }
    requires first { first.me ≡ (first_view P.object K.tells words.now.key, []) }
    requires fit { AllFit P.object words.now.key.journal.value.entries }
    requires rooms { map (λ room. room.items) rooms.items ≡ replicate words.now.key.seats (replicate 64 None) }
    requires some { 1 ≤ words.now.key.seats }
    requires empty { seats.items ≡ [] }
    requires capacity { words.now.key.seats ≤ vec_capacity seats }
    ensures many { length result.items ≡ words.now.key.seats }
    ensures new { AreNewSeats P.object (table_of K.tells words.now.table_id words.now.key) result.items }
{
    let Some(own) = rooms.pop() else {
        unreachable!()
    };
    while let Some(room) = rooms.pop() {
        let seat = another_seat(words, &mut first, room);
        add(&mut seats, seat);
    }
    let seat = Seat {
        seat: first,
        room: own,
    };
    match seats.insert(0, seat) {
        Ok(()) => {}
        Err(_) => unreachable!(),
    }
    seats
}
