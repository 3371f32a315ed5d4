ghost use Rattle.std.specs.Prelude.{◌≡◌, ◌<◌, true, []};
ghost use Rattle.path_locks.specs.Plays.{made_another, new_view, joined_view, IsResting};
ghost use Rattle.path_locks.specs.Holding.{IsSized};

use crate::plays::{Numbered, TakesIn};
use crate::rule::{LockSeat, LockWords};
use commit_journal::Keeper;
use lock_core::Parted;

/// The first seat makes another one, which has seen what it has, and has the next number.
pub(crate) fn split_seat<P: Parted, K: Keeper<P::Entry>>(
    words: &LockWords<P, K>,
    first: &mut LockSeat<P, K>,
) -> LockSeat<P, K>
    requires own { (first.old.table_id ≡ words.now.table_id) × IsSized words.now.table_id }
    requires live { first.old.me.0.at.live ≡ true }
    requires room { (0 < first.old.me.0.made) × (first.old.me.0.made < words.now.key.seats) }
    ensures own { (first.new.table_id ≡ first.old.table_id) × (first.new.id ≡ first.old.id) × (result.table_id ≡ first.old.table_id) }
    ensures first { first.new.me ≡ (made_another first.old.me.0, first.old.me.1) }
    ensures other { result.me ≡ (new_view P.object first.old.me.0, []) }
{
    words.split_seat::<Numbered<P, K>>(first)
}

/// Joins a seat into another. Both hold nothing.
pub(crate) fn join_seats<P: Parted, K: Keeper<P::Entry>>(
    words: &LockWords<P, K>,
    seat: &mut LockSeat<P, K>,
    other: LockSeat<P, K>,
)
    requires own { (seat.old.table_id ≡ words.now.table_id) × (other.table_id ≡ words.now.table_id) × IsSized words.now.table_id }
    requires rest { IsResting seat.old.me.0.at × IsResting other.me.0.at × (other.me.1 ≡ []) }
    ensures own { (seat.new.table_id ≡ seat.old.table_id) × (seat.new.id ≡ seat.old.id) }
    ensures joined { seat.new.me ≡ (joined_view seat.old.me.0 other.me.0, seat.old.me.1) }
{
    words.join_seat::<TakesIn<P, K>>(seat, other);
}
