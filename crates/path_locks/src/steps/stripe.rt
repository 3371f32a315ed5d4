ghost use Rattle.std.specs.Prelude.{◌≡◌, ◌+◌, ◌<◌, ◌∷◌, Some, None, slice_get, slice_set, length};
ghost use Rattle.lock_core.specs.declared.object.LockMode.TheVariants as locked;
ghost use Rattle.lock_core.specs.declared.machine.Hold.TheVariants.{Shared, Exclusive};
ghost use Rattle.path_locks.specs.declared.rule.Slot.TheVariants.{Empty};
ghost use Rattle.lock_core.specs.Machine.{HeldIn, hold_at};
ghost use Rattle.path_locks.specs.Plays.{MayTake, Holds};
ghost use Rattle.path_locks.specs.Holding.{IsSized, HoldsBelow, HeldAnew};

use super::exclusive::{give_exclusive, try_exclusive};
use super::pause;
use super::shared::{give_shared, try_shared};
use crate::rule::{LockSeat, LockWords};
use commit_journal::Keeper;
use lock_core::{LockMode, Parted};
use std::mem;
use std::sync::Wait;

/// Waits for the stripe and takes it exclusively, with its part.
fn lock_exclusive<R: Wait, P: Parted, K: Keeper<P::Entry>>(
    words: &LockWords<P, K>,
    rt: &R,
    seat: &mut LockSeat<P, K>,
    stripe: u8,
) -> P::Part
    requires own { (seat.old.table_id ≡ words.now.table_id) × IsSized words.now.table_id }
    requires may { (stripe < 64) × MayTake seat.old.me.0.at stripe }
    ensures own { (seat.new.table_id ≡ seat.old.table_id) × (seat.new.id ≡ seat.old.id) }
    ensures taken { Holds P.object seat.old.me stripe (Exclusive (P.bare result)) ((stripe, Empty) ∷ seat.old.me.1) seat.new.me }
{
    let mut turns = 0u8;
    for _ in rt.forever() {
        if let Some(part) = try_exclusive(words, seat, stripe) {
            return part;
        }
        turns = pause(turns);
    }
    unreachable!()
}

/// Waits for the stripe and takes it shared.
fn lock_shared<R: Wait, P: Parted, K: Keeper<P::Entry>>(
    words: &LockWords<P, K>,
    rt: &R,
    seat: &mut LockSeat<P, K>,
    stripe: u8,
)
    requires own { (seat.old.table_id ≡ words.now.table_id) × IsSized words.now.table_id }
    requires may { (stripe < 64) × MayTake seat.old.me.0.at stripe }
    ensures own { (seat.new.table_id ≡ seat.old.table_id) × (seat.new.id ≡ seat.old.id) }
    ensures taken { Holds P.object seat.old.me stripe Shared seat.old.me.1 seat.new.me }
{
    let mut turns = 0u8;
    for _ in rt.forever() {
        if try_shared(words, seat, stripe) {
            return;
        }
        turns = pause(turns);
    }
    unreachable!()
}

/// Puts a part into its place.
pub(crate) fn put<T: Drop>(parts: &mut Vec<Option<T>>, at: usize, part: T)
    requires { at < length parts.old.items }
    ensures { parts.new.items ≡ slice_set parts.old.items at (Some part) }
{
    parts[at] = Some(part);
}

/// Takes what is in a place, which is then empty.
pub(crate) fn pick<T: Drop>(parts: &mut Vec<Option<T>>, at: usize) -> Option<T>
    requires { at < length parts.old.items }
    ensures picked { slice_get parts.old.items at ≡ Some result }
    ensures left { parts.new.items ≡ slice_set parts.old.items at None }
{
    mem::replace(&mut parts[at], None)
}

/// Takes a stripe in a mode, above all that the seat holds.
pub(crate) fn take_stripe<R: Wait, P: Parted, K: Keeper<P::Entry>>(
    words: &LockWords<P, K>,
    rt: &R,
    seat: &mut LockSeat<P, K>,
    parts: &mut Vec<Option<P::Part>>,
    stripe: u8,
    mode: LockMode,
)
    requires own { (seat.old.table_id ≡ words.now.table_id) × IsSized words.now.table_id }
    requires below { (stripe < 64) × HoldsBelow P.object P.bare stripe seat.old.me parts.old.items }
    ensures own { (seat.new.table_id ≡ seat.old.table_id) × (seat.new.id ≡ seat.old.id) }
    ensures holds { HoldsBelow P.object P.bare (stripe + 1) seat.new.me parts.new.items }
    ensures anew { HeldAnew stripe mode seat.old.me.0 seat.new.me.0 }
{
    match mode {
        LockMode::None => {}
        LockMode::Shared => lock_shared(words, rt, seat, stripe),
        LockMode::Exclusive => {
            let part = lock_exclusive(words, rt, seat, stripe);
            put(parts, stripe as usize, part);
        }
    }
}

/// Gives back the stripe, the last one that the seat took, which it holds in a mode.
pub(crate) fn give_stripe<P: Parted, K: Keeper<P::Entry>>(
    words: &LockWords<P, K>,
    seat: &mut LockSeat<P, K>,
    parts: &mut Vec<Option<P::Part>>,
    stripe: u8,
    mode: LockMode,
)
    requires own { (seat.old.table_id ≡ words.now.table_id) × IsSized words.now.table_id }
    requires below { (stripe < 64) × HoldsBelow P.object P.bare (stripe + 1) seat.old.me parts.old.items }
    requires held { HeldIn mode (hold_at seat.old.me.0.at.holds stripe) }
    ensures own { (seat.new.table_id ≡ seat.old.table_id) × (seat.new.id ≡ seat.old.id) }
    ensures holds { HoldsBelow P.object P.bare stripe seat.new.me parts.new.items }
    ensures anew { HeldAnew stripe locked.None seat.old.me.0 seat.new.me.0 }
{
    match mode {
        LockMode::None => {}
        LockMode::Shared => give_shared(words, seat, stripe),
        LockMode::Exclusive => {
            let Some(part) = pick(parts, stripe as usize) else {
                unreachable!()
            };
            give_exclusive(words, seat, stripe, part);
        }
    }
}
