ghost use Rattle.std.specs.Prelude.{◌≡◌, ◌<◌, ◌∷◌, true, Some, slice_get, length, MatchOption};
ghost use Rattle.std.specs.Fn.{FnOnceReturnsAt};
ghost use mathlib.Core.Option.{some};
ghost use Rattle.lock_core.specs.declared.object.LockMode.TheVariants as mode;
ghost use Rattle.path_locks.specs.declared.rule.Slot.TheVariants.{Empty};
ghost use Rattle.atomic_table.specs.Table.{rest};
ghost use Rattle.lock_core.specs.Machine.{hold_at, note_of};
ghost use Rattle.path_locks.specs.Plays.{MayGive};
ghost use Rattle.path_locks.specs.Holding.{IsSized};
ghost use Rattle.path_locks.specs.Moves.{TookLatch, GaveLatch, LookedAt};

use super::pause;
use crate::plays::{GivesLatch, TakesLatch};
use crate::rule::{LockSeat, LockWords, Slot};
use commit_journal::Keeper;
use lock_core::Parted;
use std::sync::Wait;

/// Takes the latch of a stripe that the seat holds shared, where nobody has it, and answers the part. The slot stays in
/// hand, empty.
fn try_latch<P: Parted, K: Keeper<P::Entry>>(
    words: &LockWords<P, K>,
    seat: &mut LockSeat<P, K>,
    stripe: u8,
) -> Option<P::Part>
    requires own { (seat.old.table_id ≡ words.now.table_id) × IsSized words.now.table_id }
    requires may { (stripe < 64) × MayGive mode.Shared seat.old.me.0.at stripe }
    ensures own { (seat.new.table_id ≡ seat.old.table_id) × (seat.new.id ≡ seat.old.id) }
    ensures taken { MatchOption result
        (seat.new.me ≡ seat.old.me)
        (λ part. TookLatch P.object seat.old.me stripe (P.bare part) ((stripe, Empty) ∷ seat.old.me.1) seat.new.me) }
{
    let stripe = stripe as usize;
    if words.peek(64 + stripe) != 0 {
        return None;
    }
    if words.compare_exchange::<TakesLatch<P, K>>(seat, 64 + stripe, 0, 1) != 0 {
        return None;
    }
    match words.exchange(seat, stripe, Slot::Empty) {
        Slot::Part(part) => Some(part),
        _ => unreachable!(),
    }
}

/// Waits for the latch of a stripe that the seat holds shared, and takes it, with the part.
fn lock_latch<R: Wait, P: Parted, K: Keeper<P::Entry>>(
    words: &LockWords<P, K>,
    rt: &R,
    seat: &mut LockSeat<P, K>,
    stripe: u8,
) -> P::Part
    requires own { (seat.old.table_id ≡ words.now.table_id) × IsSized words.now.table_id }
    requires may { (stripe < 64) × MayGive mode.Shared seat.old.me.0.at stripe }
    ensures own { (seat.new.table_id ≡ seat.old.table_id) × (seat.new.id ≡ seat.old.id) }
    ensures taken { TookLatch P.object seat.old.me stripe (P.bare result) ((stripe, Empty) ∷ seat.old.me.1) seat.new.me }
{
    let mut turns = 0u8;
    for _ in rt.forever() {
        if let Some(part) = try_latch(words, seat, stripe) {
            return part;
        }
        turns = pause(turns);
    }
    unreachable!()
}

/// Gives back the latch of a stripe, with the part.
fn give_latch<P: Parted, K: Keeper<P::Entry>>(
    words: &LockWords<P, K>,
    seat: &mut LockSeat<P, K>,
    stripe: u8,
    part: P::Part,
)
    requires own { (seat.old.table_id ≡ words.now.table_id) × IsSized words.now.table_id }
    requires may { (stripe < 64) × (seat.old.me.0.at.live ≡ true) × (seat.old.me.0.at.latch ≡ Some stripe) }
    requires part { note_of (hold_at seat.old.me.0.at.holds stripe) ≡ some (P.bare part) }
    requires last { seat.old.me.1 ≡ (stripe, Empty) ∷ rest seat.old.me.1 }
    ensures own { (seat.new.table_id ≡ seat.old.table_id) × (seat.new.id ≡ seat.old.id) }
    ensures given { GaveLatch P.object seat.old.me seat.new.me }
{
    let stripe = stripe as usize;
    words.exchange(seat, stripe, Slot::Part(part));
    words.store::<GivesLatch<P, K>>(seat, 64 + stripe, 0);
}

/// Looks at the part of a stripe that the seat holds shared, under its latch.
pub(crate) fn look_shared<R: Wait, P: Parted, K: Keeper<P::Entry>, T, F: FnOnce(&P::Part) -> T>(
    words: &LockWords<P, K>,
    rt: &R,
    seat: &mut LockSeat<P, K>,
    stripe: u8,
    f: F,
) -> T
    requires own { (seat.old.table_id ≡ words.now.table_id) × IsSized words.now.table_id }
    requires may { (stripe < 64) × MayGive mode.Shared seat.old.me.0.at stripe }
    requires there { stripe < length seat.old.me.0.at.holds }
    requires call { F.IsAlwaysCallable f }
    ensures own { (seat.new.table_id ≡ seat.old.table_id) × (seat.new.id ≡ seat.old.id) }
    ensures looked { (part : P.Part) × FnOnceReturnsAt F.FnOnce f part result × LookedAt P.object seat.old.me stripe (P.bare part) seat.new.me }
{
    let part = lock_latch(words, rt, seat, stripe);
    let answer = f(&part);
    give_latch(words, seat, stripe, part);
    answer
}

/// The part that is in a place.
fn part_in<T: Drop>(parts: &Vec<Option<T>>, at: usize) -> &T
    requires { (part : T) × (slice_get parts.now.items at ≡ Some (Some part)) }
    ensures { slice_get parts.now.items at ≡ Some (Some result.now) }
{
    match &parts[at] {
        Some(part) => part,
        None => unreachable!(),
    }
}

/// Looks at the part of a stripe that is held exclusively, which is in its place.
pub(crate) fn look_exclusive<P: Drop, T, F: FnOnce(&P) -> T>(
    parts: &Vec<Option<P>>,
    stripe: u8,
    f: F,
) -> T
    requires call { F.IsAlwaysCallable f }
    requires there { (part : P) × (slice_get parts.now.items stripe ≡ Some (Some part)) }
    ensures { (part : P) × (slice_get parts.now.items stripe ≡ Some (Some part)) × FnOnceReturnsAt F.FnOnce f part result }
{
    let part = part_in(parts, stripe as usize);
    f(part)
}
