ghost use Rattle.std.specs.Prelude.{◌≡◌, ◌<◌, ◌∷◌, MatchOption};
ghost use Rattle.lock_core.specs.declared.object.LockMode.TheVariants as mode;
ghost use Rattle.lock_core.specs.declared.machine.Hold.TheVariants.{Free, Exclusive};
ghost use Rattle.path_locks.specs.declared.rule.Slot.TheVariants.{Empty, Part};
ghost use Rattle.atomic_table.specs.Table.{rest};
ghost use Rattle.lock_core.specs.Machine.{hold_at};
ghost use Rattle.path_locks.specs.Plays.{MayTake, MayGive, Holds};
ghost use Rattle.path_locks.specs.Holding.{IsSized};

use crate::plays::{GivesExclusive, TakesExclusive};
use crate::rule::{LockSeat, LockWords, Slot};
use commit_journal::Keeper;
use lock_core::Parted;

/// Takes the stripe exclusively, where nobody holds it, and answers its part. The slot stays in hand, empty.
pub(crate) fn try_exclusive<P: Parted, K: Keeper<P::Entry>>(
    words: &LockWords<P, K>,
    seat: &mut LockSeat<P, K>,
    stripe: u8,
) -> Option<P::Part>
    requires own { (seat.old.table_id ≡ words.now.table_id) × IsSized words.now.table_id }
    requires may { (stripe < 64) × MayTake seat.old.me.0.at stripe }
    ensures own { (seat.new.table_id ≡ seat.old.table_id) × (seat.new.id ≡ seat.old.id) }
    ensures taken { MatchOption result
        (seat.new.me ≡ seat.old.me)
        (λ part. Holds P.object seat.old.me stripe (Exclusive (P.bare part)) ((stripe, Empty) ∷ seat.old.me.1) seat.new.me) }
{
    let stripe = stripe as usize;
    if words.peek(stripe) != 0 {
        return None;
    }
    if words.compare_exchange::<TakesExclusive<P, K>>(seat, stripe, 0, 4294967296) != 0 {
        return None;
    }
    match words.exchange(seat, stripe, Slot::Empty) {
        Slot::Part(part) => Some(part),
        _ => unreachable!(),
    }
}

/// Gives back the stripe, which the seat holds exclusively, with its part.
pub(crate) fn give_exclusive<P: Parted, K: Keeper<P::Entry>>(
    words: &LockWords<P, K>,
    seat: &mut LockSeat<P, K>,
    stripe: u8,
    part: P::Part,
)
    requires own { (seat.old.table_id ≡ words.now.table_id) × IsSized words.now.table_id }
    requires may { (stripe < 64) × MayGive mode.Exclusive seat.old.me.0.at stripe }
    requires part { hold_at seat.old.me.0.at.holds stripe ≡ Exclusive (P.bare part) }
    requires last { seat.old.me.1 ≡ (stripe, Empty) ∷ rest seat.old.me.1 }
    ensures own { (seat.new.table_id ≡ seat.old.table_id) × (seat.new.id ≡ seat.old.id) }
    ensures given { Holds P.object seat.old.me stripe Free (rest seat.old.me.1) seat.new.me }
{
    let stripe = stripe as usize;
    words.exchange(seat, stripe, Slot::Part(part));
    words.store::<GivesExclusive<P, K>>(seat, stripe, 0);
}
