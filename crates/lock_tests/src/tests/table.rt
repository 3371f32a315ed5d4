ghost use Rattle.std.specs.Prelude.{◌≡◌, ◌+◌, ◌<◌};
ghost use Rattle.std.specs.Thread.{IsSync};
ghost use Rattle.path_locks.specs.Views.{HoldsNothing, IsSameSeat};

use super::seat_pair::{SeatPair, TallySeat, TallyTable};
use lock_core::LockMode;
use path_locks::Plan;
use std::alloc::AllocError;
use std::sync::Wait;
use std::test::Fail;
use std::thread;
use std::thread::Threads;

/// Holds a plan and gives it back: how wide it was.
fn turned<R: Wait>(rt: &R, table: &TallyTable, seat: &mut TallySeat, plan: &Plan) -> u32
    requires own { seat.old.table ≡ table.now.id }
    requires nothing { HoldsNothing seat.old }
    ensures same { IsSameSeat seat.old seat.new }
    ensures nothing { HoldsNothing seat.new }
{
    let held = table.acquire(rt, seat, plan);
    let wide = held.wide();
    table.release(seat, held);
    wide
}

/// Takes two neighbours exclusively, a thousand times.
fn churned<R: Wait>(rt: &R, table: &TallyTable, mut seat: TallySeat, low: u8) -> TallySeat
    requires own { (seat.table ≡ table.now.id) × (low < 63) }
    requires nothing { HoldsNothing seat }
    ensures same { IsSameSeat seat result }
    ensures nothing { HoldsNothing result }
{
    let mut plan = Plan::none();
    plan.set(low, LockMode::Exclusive);
    plan.set(low + 1, LockMode::Exclusive);
    for _round in 0..1000u16 {
        let _wide = turned(rt, table, &mut seat, &plan);
    }
    seat
}

/// One thread takes stripes 1 and 2, and another 2 and 3.
fn both_churned<R: Threads + Wait + Sync>(
    rt: &R,
    table: &TallyTable,
    first: TallySeat,
    second: TallySeat,
) -> (TallySeat, TallySeat)
    requires own { (first.table ≡ table.now.id) × (second.table ≡ table.now.id) }
    requires nothing { HoldsNothing first × HoldsNothing second }
    ensures same { IsSameSeat first result.0 × IsSameSeat second result.1 }
    ensures nothing { HoldsNothing result.0 × HoldsNothing result.1 }
{
    let low = move || -> TallySeat
        requires { IsSync R.row × (first.table ≡ table.now.id) × HoldsNothing first }
        ensures { IsSameSeat first result × HoldsNothing result }
    { churned(rt, table, first, 1) };
    let high = move || -> TallySeat
        requires { IsSync R.row × (second.table ≡ table.now.id) × HoldsNothing second }
        ensures { IsSameSeat second result × HoldsNothing result }
    { churned(rt, table, second, 2) };
    thread::join(rt, low, high)
}

/// Both seats of the table take turns, in threads.
fn pair_churned<R: Threads + Wait + Sync>(rt: &R, pair: SeatPair) -> SeatPair {
    let SeatPair {
        table,
        seats,
        first,
        second,
    } = pair;
    let (first, second) = both_churned(rt, &table, first, second);
    SeatPair {
        table,
        seats,
        first,
        second,
    }
}

/// Closes the table: how many parts it has, and how many that are 0, and how many entries and places its journal.
pub(super) fn left(pair: SeatPair) -> Result<(usize, usize, u64, u64), AllocError> {
    let (parts, journal, _keeper) = pair.close()?;
    let zeros = parts.iter().filter(|part| **part == 0).count();
    Ok((
        parts.len(),
        zeros,
        journal.len(),
        journal.limits().journal_max(),
    ))
}

#[test]
fn two_seats_meet_on_a_stripe(rt: HostRuntime) -> Result<(), Fail> {
    let pair = SeatPair::open(rt.alloc())?;
    let found = left(pair_churned(&rt, pair))?;
    assert!(rt; found == (64, 64, 0, 9));
    Ok(())
}

/// A plan of stripes 1 and 63 shared, and 2 exclusively.
fn three_stripes() -> Plan {
    let mut plan = Plan::none();
    plan.set(1, LockMode::Shared);
    plan.set(2, LockMode::Exclusive);
    plan.set(63, LockMode::Shared);
    plan
}

/// The modes of three stripes of that plan.
fn three_modes() -> (LockMode, LockMode, LockMode) {
    let plan = three_stripes();
    (plan.mode(0), plan.mode(2), plan.mode(63))
}

#[test]
fn a_plan_tells_its_modes(rt: HostRuntime) -> Result<(), Fail> {
    let expected = (LockMode::None, LockMode::Exclusive, LockMode::Shared);
    assert!(rt; three_modes() == expected);
    Ok(())
}

/// How wide that plan is, which is held and given back.
fn held_wide<R: Wait>(rt: &R, pair: &mut SeatPair) -> u32 {
    turned(rt, &pair.table, &mut pair.first, &three_stripes())
}

#[test]
fn a_plan_is_held_and_given_back(rt: HostRuntime) -> Result<(), Fail> {
    let mut pair = SeatPair::open(rt.alloc())?;
    assert!(rt; held_wide(&rt, &mut pair) == 4);
    let found = left(pair)?;
    assert!(rt; found == (64, 64, 0, 9));
    Ok(())
}
