//! Callers of a store of tallies.
ghost use Rattle.std.specs.Prelude.{◌≡◌, ◌<◌, ℕ, Some, slice_get, nat_eq};
ghost use Rattle.lock_core.specs.declared.object.LockMode.TheVariants as mode;
ghost use Rattle.lock_core.specs.Object.{mode_of};
ghost use Rattle.path_locks.specs.Views.{HoldsNothing, IsSeatAgain};
ghost use Rattle.striped_store.specs.Views.{IsOf};

use commit_journal::Keeper;
use lock_core::{LockMode, Tally, TallyEntry};
use path_locks::Plan;
use std::sync::Wait;
use striped_store::{CommitRefusal, Pass, Receipt, Store};

/// A commit that was refused: why, how wide that is which was handed back, and what is then still read.
#[derive(Clone, Copy, Debug, PartialEq, Eq)]
pub struct Refused {
    pub why: CommitRefusal,
    pub wide: u32,
    pub read: u64,
}

/// What an entry that reads one stripe and writes another holds.
pub fn footprint(reads: u8, writes: u8) -> Plan
    requires { (reads < 64) × (writes < 64) }
    ensures { (k : ℕ) → k < 64 → slice_get result k ≡ Some (mode_of (nat_eq k writes) (nat_eq k reads)) }
{
    let mut plan = Plan::none();
    plan.set(reads, LockMode::Shared);
    plan.set(writes, LockMode::Exclusive);
    plan
}

/// Every stripe, exclusively.
pub fn every_stripe() -> Plan
    ensures { (k : ℕ) → k < 64 → slice_get result k ≡ Some mode.Exclusive }
{
    let mut plan = Plan::none();
    for stripe in 0..64u8 {
        plan.set(stripe, LockMode::Exclusive);
    }
    plan
}

/// Takes what the entry needs, reads, and commits.
pub fn tallied<R: Wait, K: Keeper<TallyEntry>>(
    rt: &R,
    store: &Store<Tally, K>,
    pass: &mut Pass<Tally, K>,
    reads: u8,
    writes: u8,
) -> Result<Receipt, Refused>
    requires own { IsOf store.now pass.old }
    requires nothing { HoldsNothing pass.old.seat }
    requires stripes { (reads < 64) × (writes < 64) }
    ensures same { IsSeatAgain pass.old.seat pass.new.seat }
    ensures nothing { HoldsNothing pass.new.seat }
{
    let plan = footprint(reads, writes);
    let held = store.begin(rt, pass, &plan);
    store.look(rt, pass, &held, reads, |part| *part);
    let entry = TallyEntry {
        pass: pass.number(),
        reads,
        writes,
    };
    match store.commit(rt, pass, held, entry, ()) {
        Ok(receipt) => Ok(receipt),
        Err((held, why)) => {
            let wide = held.wide();
            let read = store.look(rt, pass, &held, reads, |part| *part);
            store.finish(pass, held);
            Err(Refused { why, wide, read })
        }
    }
}

/// Takes every stripe, reads, keeps what the entry needs, and commits.
pub fn narrowed<R: Wait, K: Keeper<TallyEntry>>(
    rt: &R,
    store: &Store<Tally, K>,
    pass: &mut Pass<Tally, K>,
    reads: u8,
    writes: u8,
) -> Option<Receipt>
    requires own { IsOf store.now pass.old }
    requires nothing { HoldsNothing pass.old.seat }
    requires stripes { (reads < 64) × (writes < 64) }
    ensures same { IsSeatAgain pass.old.seat pass.new.seat }
    ensures nothing { HoldsNothing pass.new.seat }
{
    let plan = every_stripe();
    let keep = footprint(reads, writes);
    let mut held = store.begin(rt, pass, &plan);
    store.look(rt, pass, &held, reads, |part| *part);
    store.narrow(pass, &mut held, &keep);
    let entry = TallyEntry {
        pass: pass.number(),
        reads,
        writes,
    };
    match store.commit(rt, pass, held, entry, ()) {
        Ok(receipt) => Some(receipt),
        Err((held, _why)) => {
            store.finish(pass, held);
            None
        }
    }
}

/// Commits the same entry so many times, and answers how often it was made.
pub fn churned<R: Wait, K: Keeper<TallyEntry>>(
    rt: &R,
    store: &Store<Tally, K>,
    pass: &mut Pass<Tally, K>,
    reads: u8,
    writes: u8,
    rounds: u32,
) -> u32
    requires own { IsOf store.now pass.old }
    requires nothing { HoldsNothing pass.old.seat }
    requires stripes { (reads < 64) × (writes < 64) }
    ensures same { IsSeatAgain pass.old.seat pass.new.seat }
    ensures nothing { HoldsNothing pass.new.seat }
{
    let mut made = 0u32;
    for _round in 0..rounds {
        if tallied(rt, store, pass, reads, writes).is_ok() {
            made = made.saturating_add(1);
        }
    }
    made
}
