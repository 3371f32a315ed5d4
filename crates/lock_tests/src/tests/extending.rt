ghost use Rattle.std.specs.Prelude.{◌≡◌, ◌+◌, ◌<◌};
ghost use Rattle.std.specs.Thread.{IsSync};
ghost use Rattle.path_locks.specs.Views.{HoldsNothing, IsSameSeat};
ghost use Rattle.striped_store.specs.Views.{IsOf};

use super::pass_pair::{PassPair, TallyPass, TallyStore};
use lock_core::LockMode;
use path_locks::Plan;
use std::alloc::AllocError;
use std::sync::Wait;
use std::test::Fail;
use std::thread;
use std::thread::Threads;

/// Takes a stripe exclusively and then the one above it, and answers how wide that is.
fn climbed<R: Wait>(rt: &R, store: &TallyStore, pass: &mut TallyPass, low: u8) -> u32
    requires own { IsOf store.now pass.old × (low < 63) }
    requires nothing { HoldsNothing pass.old.seat }
    ensures same { IsSameSeat pass.old.seat pass.new.seat }
    ensures nothing { HoldsNothing pass.new.seat }
{
    let plan = Plan::none();
    let mut held = store.begin(rt, pass, &plan);
    store.extend(rt, pass, &mut held, low, LockMode::Exclusive);
    store.extend(rt, pass, &mut held, low + 1, LockMode::Exclusive);
    let wide = held.wide();
    store.finish(pass, held);
    wide
}

/// Climbs a thousand times.
fn all_climbed<R: Wait>(rt: &R, store: &TallyStore, mut pass: TallyPass, low: u8) -> TallyPass
    requires own { IsOf store.now pass × (low < 63) }
    requires nothing { HoldsNothing pass.seat }
    ensures same { IsSameSeat pass.seat result.seat }
    ensures nothing { HoldsNothing result.seat }
{
    for _round in 0..1000u16 {
        let _wide = climbed(rt, store, &mut pass, low);
    }
    pass
}

/// One thread climbs from stripe 1 to 2, and another from 2 to 3.
fn both_climbed<R: Threads + Wait + Sync>(
    rt: &R,
    store: &TallyStore,
    first: TallyPass,
    second: TallyPass,
) -> (TallyPass, TallyPass)
    requires own { IsOf store.now first × IsOf store.now second }
    requires nothing { HoldsNothing first.seat × HoldsNothing second.seat }
    ensures same { IsSameSeat first.seat result.0.seat × IsSameSeat second.seat result.1.seat }
    ensures nothing { HoldsNothing result.0.seat × HoldsNothing result.1.seat }
{
    let low = move || -> TallyPass
        requires { IsSync R.row × IsOf store.now first × HoldsNothing first.seat }
        ensures { IsSameSeat first.seat result.seat × HoldsNothing result.seat }
    { all_climbed(rt, store, first, 1) };
    let high = move || -> TallyPass
        requires { IsSync R.row × IsOf store.now second × HoldsNothing second.seat }
        ensures { IsSameSeat second.seat result.seat × HoldsNothing result.seat }
    { all_climbed(rt, store, second, 2) };
    thread::join(rt, low, high)
}

/// Both passes of the store climb, in threads.
fn pair_climbed<R: Threads + Wait + Sync>(rt: &R, pair: PassPair) -> PassPair {
    let PassPair {
        store,
        passes,
        first,
        second,
    } = pair;
    let (first, second) = both_climbed(rt, &store, first, second);
    PassPair {
        store,
        passes,
        first,
        second,
    }
}

/// How many entries the journal has after both have climbed.
fn entries_climbed<R: Threads + Wait + Sync>(rt: &R, pair: PassPair) -> Result<u64, AllocError> {
    let pair = pair_climbed(rt, pair);
    let closing = pair.close()?;
    Ok(closing.journal.len())
}

#[test]
fn two_passes_climb_over_a_stripe(rt: HostRuntime) -> Result<(), Fail> {
    let pair = PassPair::open(rt.alloc(), 9)?;
    let entries = entries_climbed(&rt, pair)?;
    assert!(rt; entries == 0);
    Ok(())
}

/// How wide the two uppermost stripes are.
fn climbed_to_the_end<R: Wait>(rt: &R, pair: &mut PassPair) -> u32 {
    climbed(rt, &pair.store, &mut pair.first, 62)
}

#[test]
fn a_pass_climbs_to_the_last_stripe(rt: HostRuntime) -> Result<(), Fail> {
    let mut pair = PassPair::open(rt.alloc(), 9)?;
    assert!(rt; climbed_to_the_end(&rt, &mut pair) == 4);
    Ok(())
}
