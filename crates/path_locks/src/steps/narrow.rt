ghost use Rattle.std.specs.Prelude.{◌≡◌, ◌+◌, ◌<◌, ◌∷◌, Some, None, slice_get, slice_set};
ghost use Rattle.lock_core.specs.declared.object.LockMode.TheVariants as locked;
ghost use Rattle.lock_core.specs.declared.machine.Hold.TheVariants.{Looked, Exclusive};
ghost use Rattle.path_locks.specs.declared.rule.Slot.TheVariants.{Empty};
ghost use Rattle.atomic_table.specs.Table.{rest};
ghost use Rattle.lock_core.specs.Machine.{HeldIn, hold_at};
ghost use Rattle.path_locks.specs.Plays.{MayGive, Holds};
ghost use Rattle.path_locks.specs.Plans.{AreHeld};
ghost use Rattle.path_locks.specs.Holding.{IsSized, IsReheld, HoldsBelow};
ghost use Rattle.path_locks.specs.Narrow.{IsBelow, IsWithin, AreNarrowed, IsNarrowedAt, IsRound};

use super::exclusive::give_exclusive;
use super::shared::give_shared;
use super::stripe::pick;
use crate::plan::Plan;
use crate::plays::MakesShared;
use crate::rule::{LockSeat, LockWords, Slot};
use commit_journal::Keeper;
use lock_core::{LockMode, Parted};

/// Gives back the part of a stripe that the seat holds exclusively, and holds the stripe shared.
fn make_shared<P: Parted, K: Keeper<P::Entry>>(
    words: &LockWords<P, K>,
    seat: &mut LockSeat<P, K>,
    stripe: u8,
    part: P::Part,
)
    requires own { (seat.old.table_id ≡ words.now.table_id) × IsSized words.now.table_id }
    requires may { (stripe < 64) × MayGive locked.Exclusive seat.old.me.0.at stripe }
    requires part { hold_at seat.old.me.0.at.holds stripe ≡ Exclusive (P.bare part) }
    requires last { seat.old.me.1 ≡ (stripe, Empty) ∷ rest seat.old.me.1 }
    ensures own { (seat.new.table_id ≡ seat.old.table_id) × (seat.new.id ≡ seat.old.id) }
    ensures given { Holds P.object seat.old.me stripe (Looked (P.bare part)) (rest seat.old.me.1) seat.new.me }
{
    let stripe = stripe as usize;
    words.exchange(seat, stripe, Slot::Part(part));
    words.store::<MakesShared<P, K>>(seat, stripe, 1);
}

/// Takes the part that is in a place, which is then empty.
fn take_part<T: Drop>(parts: &mut Vec<Option<T>>, at: usize) -> T
    requires { (part : T) × (slice_get parts.old.items at ≡ Some (Some part)) }
    ensures taken { slice_get parts.old.items at ≡ Some (Some result) }
    ensures left { parts.new.items ≡ slice_set parts.old.items at None }
{
    match pick(parts, at) {
        Some(part) => part,
        None => unreachable!(),
    }
}

/// Leaves what is kept of a stripe that the seat holds shared.
fn narrow_shared<P: Parted, K: Keeper<P::Entry>>(
    words: &LockWords<P, K>,
    seat: &mut LockSeat<P, K>,
    parts: &Vec<Option<P::Part>>,
    stripe: u8,
    keep: LockMode,
)
    requires own { (seat.old.table_id ≡ words.now.table_id) × IsSized words.now.table_id }
    requires round { (stripe < 64) × IsRound P.object P.bare (stripe + 1) seat.old.me parts.now.items }
    requires held { HeldIn locked.Shared (hold_at seat.old.me.0.at.holds stripe) }
    requires below { IsBelow keep locked.Shared }
    ensures own { (seat.new.table_id ≡ seat.old.table_id) × (seat.new.id ≡ seat.old.id) }
    ensures round { IsRound P.object P.bare stripe seat.new.me parts.now.items }
    ensures narrowed { IsNarrowedAt stripe keep seat.old.me.0 seat.new.me.0 }
{
    match keep {
        LockMode::None => give_shared(words, seat, stripe),
        LockMode::Shared => {}
        LockMode::Exclusive => unreachable!(),
    }
}

/// Leaves what is kept of a stripe that the seat holds exclusively.
fn narrow_exclusive<P: Parted, K: Keeper<P::Entry>>(
    words: &LockWords<P, K>,
    seat: &mut LockSeat<P, K>,
    parts: &mut Vec<Option<P::Part>>,
    stripe: u8,
    keep: LockMode,
)
    requires own { (seat.old.table_id ≡ words.now.table_id) × IsSized words.now.table_id }
    requires round { (stripe < 64) × IsRound P.object P.bare (stripe + 1) seat.old.me parts.old.items }
    requires held { HeldIn locked.Exclusive (hold_at seat.old.me.0.at.holds stripe) }
    ensures own { (seat.new.table_id ≡ seat.old.table_id) × (seat.new.id ≡ seat.old.id) }
    ensures round { IsRound P.object P.bare stripe seat.new.me parts.new.items }
    ensures narrowed { IsNarrowedAt stripe keep seat.old.me.0 seat.new.me.0 }
{
    match keep {
        LockMode::None => {
            let part = take_part(parts, stripe as usize);
            give_exclusive(words, seat, stripe, part);
        }
        LockMode::Shared => {
            let part = take_part(parts, stripe as usize);
            make_shared(words, seat, stripe, part);
        }
        LockMode::Exclusive => seat.turn(),
    }
}

/// Leaves what is kept of a stripe that the seat holds in a mode.
fn narrow_stripe<P: Parted, K: Keeper<P::Entry>>(
    words: &LockWords<P, K>,
    seat: &mut LockSeat<P, K>,
    parts: &mut Vec<Option<P::Part>>,
    stripe: u8,
    mode: LockMode,
    keep: LockMode,
)
    requires own { (seat.old.table_id ≡ words.now.table_id) × IsSized words.now.table_id }
    requires round { (stripe < 64) × IsRound P.object P.bare (stripe + 1) seat.old.me parts.old.items }
    requires held { HeldIn mode (hold_at seat.old.me.0.at.holds stripe) }
    requires below { IsBelow keep mode }
    ensures own { (seat.new.table_id ≡ seat.old.table_id) × (seat.new.id ≡ seat.old.id) }
    ensures round { IsRound P.object P.bare stripe seat.new.me parts.new.items }
    ensures narrowed { IsNarrowedAt stripe keep seat.old.me.0 seat.new.me.0 }
    ensures held { HeldIn keep (hold_at seat.new.me.0.at.holds stripe) }
{
    match mode {
        LockMode::None => {}
        LockMode::Shared => narrow_shared(words, seat, parts, stripe, keep),
        LockMode::Exclusive => narrow_exclusive(words, seat, parts, stripe, keep),
    }
}

/// Leaves what a plan keeps of what the seat holds, from the highest stripe to the lowest.
pub(crate) fn narrow_all<P: Parted, K: Keeper<P::Entry>>(
    words: &LockWords<P, K>,
    seat: &mut LockSeat<P, K>,
    parts: &mut Vec<Option<P::Part>>,
    plan: &Plan,
    keep: &Plan,
)
    requires own { (seat.old.table_id ≡ words.now.table_id) × IsSized words.now.table_id }
    requires holds { HoldsBelow P.object P.bare 64 seat.old.me parts.old.items }
    requires held { AreHeld plan.now 64 seat.old.me.0.at.holds }
    requires within { IsWithin keep.now plan.now }
    ensures own { (seat.new.table_id ≡ seat.old.table_id) × (seat.new.id ≡ seat.old.id) }
    ensures holds { HoldsBelow P.object P.bare 64 seat.new.me parts.new.items }
    ensures held { AreHeld keep.now 64 seat.new.me.0.at.holds }
    ensures narrowed { AreNarrowed keep.now seat.old.me.0.at.holds seat.new.me.0.at.holds }
    ensures same { IsReheld seat.old.me.0 seat.new.me.0 }
{
    for done in 0..64u8 {
        let stripe = 63 - done;
        let mode = plan.mode(stripe);
        let kept = keep.mode(stripe);
        narrow_stripe(words, seat, parts, stripe, mode, kept);
    }
}
