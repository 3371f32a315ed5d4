ghost use Rattle.std.specs.Prelude.{◌≡◌};
ghost use Rattle.path_locks.specs.Plans.{AreHeld};
ghost use Rattle.path_locks.specs.Holding.{IsSized, IsReheld, HoldsBelow};

use super::stripe::{give_stripe, take_stripe};
use crate::plan::Plan;
use crate::rule::{LockSeat, LockWords};
use commit_journal::Keeper;
use lock_core::Parted;
use std::sync::Wait;

/// Takes the stripes of the plan, from the lowest to the highest.
pub(crate) fn take_all<R: Wait, P: Parted, K: Keeper<P::Entry>>(
    words: &LockWords<P, K>,
    rt: &R,
    seat: &mut LockSeat<P, K>,
    parts: &mut Vec<Option<P::Part>>,
    plan: &Plan,
)
    requires own { (seat.old.table_id ≡ words.now.table_id) × IsSized words.now.table_id }
    requires none { HoldsBelow P.object P.bare 0 seat.old.me parts.old.items }
    ensures own { (seat.new.table_id ≡ seat.old.table_id) × (seat.new.id ≡ seat.old.id) }
    ensures holds { HoldsBelow P.object P.bare 64 seat.new.me parts.new.items }
    ensures held { AreHeld plan.now 64 seat.new.me.0.at.holds }
    ensures same { IsReheld seat.old.me.0 seat.new.me.0 }
{
    for stripe in 0..64u8 {
        take_stripe(words, rt, seat, parts, stripe, plan.mode(stripe));
    }
}

/// Gives back the stripes of the plan, which the seat holds, from the highest to the lowest.
pub(crate) fn give_all<P: Parted, K: Keeper<P::Entry>>(
    words: &LockWords<P, K>,
    seat: &mut LockSeat<P, K>,
    parts: &mut Vec<Option<P::Part>>,
    plan: &Plan,
)
    requires own { (seat.old.table_id ≡ words.now.table_id) × IsSized words.now.table_id }
    requires holds { HoldsBelow P.object P.bare 64 seat.old.me parts.old.items }
    requires held { AreHeld plan.now 64 seat.old.me.0.at.holds }
    ensures own { (seat.new.table_id ≡ seat.old.table_id) × (seat.new.id ≡ seat.old.id) }
    ensures none { HoldsBelow P.object P.bare 0 seat.new.me parts.new.items }
    ensures same { IsReheld seat.old.me.0 seat.new.me.0 }
{
    for done in 0..64u8 {
        let stripe = 63 - done;
        give_stripe(words, seat, parts, stripe, plan.mode(stripe));
    }
}
