ghost use Rattle.std.specs.Prelude.{◌≡◌, ◌<◌, MatchBool};
ghost use Rattle.lock_core.specs.declared.object.LockMode.TheVariants as mode;
ghost use Rattle.lock_core.specs.declared.machine.Hold.TheVariants.{Free, Shared};
ghost use Rattle.path_locks.specs.Plays.{MayTake, MayGive, Holds};
ghost use Rattle.path_locks.specs.Holding.{IsSized};

use crate::plays::{GivesShared, TakesShared};
use crate::rule::{LockSeat, LockWords};
use commit_journal::Keeper;
use lock_core::Parted;

/// Takes the stripe shared, where nobody holds it exclusively and no other seat steps on its word meanwhile, and says
/// whether it did. The part stays in its slot.
pub(crate) fn try_shared<P: Parted, K: Keeper<P::Entry>>(
    words: &LockWords<P, K>,
    seat: &mut LockSeat<P, K>,
    stripe: u8,
) -> bool
    requires own { (seat.old.table_id ≡ words.now.table_id) × IsSized words.now.table_id }
    requires may { (stripe < 64) × MayTake seat.old.me.0.at stripe }
    ensures own { (seat.new.table_id ≡ seat.old.table_id) × (seat.new.id ≡ seat.old.id) }
    ensures taken { MatchBool result
        (Holds P.object seat.old.me stripe Shared seat.old.me.1 seat.new.me)
        (seat.new.me ≡ seat.old.me) }
{
    let stripe = stripe as usize;
    let found = words.peek(stripe);
    if found >= 4294967295 {
        return false;
    }
    words.compare_exchange::<TakesShared<P, K>>(seat, stripe, found, found + 1) == found
}

/// Gives back the stripe, which the seat holds shared.
pub(crate) fn give_shared<P: Parted, K: Keeper<P::Entry>>(
    words: &LockWords<P, K>,
    seat: &mut LockSeat<P, K>,
    stripe: u8,
)
    requires own { (seat.old.table_id ≡ words.now.table_id) × IsSized words.now.table_id }
    requires may { (stripe < 64) × MayGive mode.Shared seat.old.me.0.at stripe }
    ensures own { (seat.new.table_id ≡ seat.old.table_id) × (seat.new.id ≡ seat.old.id) }
    ensures given { Holds P.object seat.old.me stripe Free seat.old.me.1 seat.new.me }
{
    let stripe = stripe as usize;
    words.fetch_sub::<GivesShared<P, K>>(seat, stripe, 1);
}
