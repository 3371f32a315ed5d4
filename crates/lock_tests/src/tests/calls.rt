//! The calls of the table of locks, each by itself.
ghost use Rattle.std.specs.Prelude.{◌≡◌, ◌<◌};
ghost use Rattle.path_locks.specs.Views.{number_of, HoldsNothing, IsSameSeat, IsSeatAgain};

use super::seat_pair::{SeatPair, TallySeat, TallyTable};
use super::table::left;
use crate::callers::{every_stripe, footprint};
use lock_core::{LockMode, TallyEntry};
use path_locks::Plan;
use std::sync::Wait;
use std::test::Fail;

/// Reads the part of a stripe, while stripe 63 is held alone.
fn read<R: Wait>(rt: &R, table: &TallyTable, seat: &mut TallySeat, stripe: u8) -> u64
    requires own { seat.old.table ≡ table.now.id }
    requires nothing { HoldsNothing seat.old }
    requires stripe { stripe < 63 }
    ensures same { IsSameSeat seat.old seat.new }
    ensures nothing { HoldsNothing seat.new }
{
    let plan = footprint(stripe, 63);
    let held = table.acquire(rt, seat, &plan);
    let part = table.look(rt, seat, &held, stripe, |part| *part);
    table.release(seat, held);
    part
}

/// The part of stripe 5, as the first seat reads it.
fn read_once<R: Wait>(rt: &R, pair: &mut SeatPair) -> u64 {
    read(rt, &pair.table, &mut pair.first, 5)
}

#[test]
fn a_seat_looks_at_a_part(rt: HostRuntime) -> Result<(), Fail> {
    let mut pair = SeatPair::open(rt.alloc())?;
    assert!(rt; read_once(&rt, &mut pair) == 0);
    Ok(())
}

/// Downgrades stripe 6, which the second seat then reads while the first one holds it.
fn read_downgraded<R: Wait>(rt: &R, pair: &mut SeatPair) -> u64 {
    let plan = footprint(5, 6);
    let mut held = pair.table.acquire(rt, &mut pair.first, &plan);
    pair.table.downgrade(&mut pair.first, &mut held, 6);
    let part = read(rt, &pair.table, &mut pair.second, 6);
    pair.table.release(&mut pair.first, held);
    part
}

#[test]
fn a_downgraded_stripe_is_read_by_another_seat(rt: HostRuntime) -> Result<(), Fail> {
    let mut pair = SeatPair::open(rt.alloc())?;
    assert!(rt; read_downgraded(&rt, &mut pair) == 0);
    Ok(())
}

/// Keeps stripe 6 of all 64, shared, so that the second seat reads it and takes stripe 63.
fn read_kept<R: Wait>(rt: &R, pair: &mut SeatPair) -> u64 {
    let plan = every_stripe();
    let mut keep = Plan::none();
    keep.set(6, LockMode::Shared);
    let mut held = pair.table.acquire(rt, &mut pair.first, &plan);
    pair.table.drop_extra(&mut pair.first, &mut held, &keep);
    let part = read(rt, &pair.table, &mut pair.second, 6);
    pair.table.release(&mut pair.first, held);
    part
}

#[test]
fn stripes_that_are_dropped_are_free(rt: HostRuntime) -> Result<(), Fail> {
    let mut pair = SeatPair::open(rt.alloc())?;
    assert!(rt; read_kept(&rt, &mut pair) == 0);
    Ok(())
}

/// How wide one stripe more is.
fn extended<R: Wait>(rt: &R, pair: &mut SeatPair) -> u32 {
    let plan = Plan::none();
    let mut held = pair.table.acquire(rt, &mut pair.first, &plan);
    pair.table
        .extend(rt, &mut pair.first, &mut held, 63, LockMode::Exclusive);
    let wide = held.wide();
    pair.table.release(&mut pair.first, held);
    wide
}

#[test]
fn a_seat_takes_one_stripe_more(rt: HostRuntime) -> Result<(), Fail> {
    let mut pair = SeatPair::open(rt.alloc())?;
    assert!(rt; extended(&rt, &mut pair) == 2);
    Ok(())
}

/// Makes work ready in what is held.
fn reserved<R: Wait>(rt: &R, pair: &mut SeatPair) -> bool {
    let plan = footprint(1, 2);
    let mut held = pair.table.acquire(rt, &mut pair.first, &plan);
    let ready = held.reserve(&()).is_ok();
    pair.table.release(&mut pair.first, held);
    ready
}

#[test]
fn work_is_made_ready(rt: HostRuntime) -> Result<(), Fail> {
    let mut pair = SeatPair::open(rt.alloc())?;
    assert!(rt; reserved(&rt, &mut pair));
    Ok(())
}

/// The entries of the journal and its places, while a seat has it.
fn journal_numbers<R: Wait>(rt: &R, pair: &mut SeatPair) -> (u64, u64) {
    let (journal, keeper) = pair.table.take_journal(rt, &mut pair.first);
    let numbers = (journal.len(), journal.limits().journal_max());
    pair.table.give_journal(&mut pair.first, journal, keeper);
    numbers
}

#[test]
fn a_seat_takes_the_journal_and_gives_it_back(rt: HostRuntime) -> Result<(), Fail> {
    let mut pair = SeatPair::open(rt.alloc())?;
    assert!(rt; journal_numbers(&rt, &mut pair) == (0, 9));
    Ok(())
}

/// Commits an entry of the seat: its number, or none for want of room.
fn committed<R: Wait>(
    rt: &R,
    table: &TallyTable,
    seat: &mut TallySeat,
    entry: TallyEntry,
) -> Option<u64>
    requires own { seat.old.table ≡ table.now.id }
    requires by { entry.pass ≡ number_of seat.old }
    requires nothing { HoldsNothing seat.old }
    requires stripes { (entry.reads < 64) × (entry.writes < 64) }
    ensures same { IsSeatAgain seat.old seat.new }
    ensures nothing { HoldsNothing seat.new }
{
    let plan = footprint(entry.reads, entry.writes);
    let mut held = table.acquire(rt, seat, &plan);
    table.look(rt, seat, &held, entry.reads, |part| *part);
    if held.reserve(&()).is_err() {
        table.release(seat, held);
        return None;
    }
    let (mut journal, keeper) = table.take_journal(rt, seat);
    if journal.reserve(0).is_err() {
        table.give_journal(seat, journal, keeper);
        table.release(seat, held);
        return None;
    }
    let number = journal.push(entry);
    table.commit(seat, &mut held, journal, keeper, &());
    table.release(seat, held);
    Some(number)
}

/// The number of an entry of the first seat, which reads stripe 1 and writes stripe 2, and what the second one reads then
/// in stripe 2.
fn commit_seen<R: Wait>(rt: &R, pair: &mut SeatPair) -> (Option<u64>, u64) {
    let entry = TallyEntry {
        pass: 0,
        reads: 1,
        writes: 2,
    };
    let number = committed(rt, &pair.table, &mut pair.first, entry);
    let part = read(rt, &pair.table, &mut pair.second, 2);
    (number, part)
}

#[test]
fn a_seat_commits(rt: HostRuntime) -> Result<(), Fail> {
    let mut pair = SeatPair::open(rt.alloc())?;
    assert!(rt; commit_seen(&rt, &mut pair) == (Some(1), 1));
    let found = left(pair)?;
    assert!(rt; found == (64, 63, 1, 9));
    Ok(())
}
