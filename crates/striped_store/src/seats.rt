//! Passes out of seats, and seats out of passes.
ghost use Rattle.std.specs.Prelude.{◌≡◌, ◌+◌, ◌≤◌, [], ◌∷◌, ◌++◌, length, map, IfOk, vec_len, vec_capacity, ◌<◌};
ghost use Rattle.commit_journal.specs.Limits.{AreWithin};
ghost use Rattle.path_locks.specs.Views.{AreNewSeats};
ghost use Rattle.striped_store.specs.UsedIds.{AreUsed};
ghost use Rattle.striped_store.specs.Views.{AreOpenPasses};

use crate::pass::Pass;
use commit_journal::Keeper;
use lock_core::Parted;
use path_locks::{LockTable, Plan, Seat};
use std::alloc::{AllocError, Global};

/// The passes of new seats, in the order of their numbers.
pub(crate) fn make_passes<P: Parted, K: Keeper<P::Entry>>(
    alloc: Global,
    table: &LockTable<P, K>,
    seats: Vec<Seat<P, K>>,
    used: &[u64; 64],
) -> Result<Vec<Pass<P, K>>, AllocError>
    requires new { AreNewSeats P.object table.now seats.items }
    requires used { AreUsed P.object P.Entry.uses table.now.opening used.now }
    requires short { length table.now.opening ≤ table.now.limits.journal_max }
    requires few { length seats.items ≤ 64 }
    requires within { AreWithin table.now.limits }
    ensures many { IfOk result (λ passes. length passes.items ≡ length seats.items) }
    ensures new { IfOk result (λ passes. AreOpenPasses P.object table.now passes.items) }
{
    let mut passes = Vec::with_capacity(alloc, seats.len())?;
    let mut number = 0;
    for seat in seats {
        let room = Vec::with_capacity(alloc, 64)?;
        passes.push(Pass {
            seat,
            plan: Plan::none(),
            number,
            used: used[number as usize],
            wide: 0,
            room,
        })?;
        number += 1;
    }
    Ok(passes)
}

/// Adds a seat to a list that has room for it.
fn add<P: Parted, K: Keeper<P::Entry>>(seats: &mut Vec<Seat<P, K>>, seat: Seat<P, K>)
    requires { vec_len seats.old < vec_capacity seats.old }
    ensures items { seats.new.items ≡ seats.old.items ++ seat ∷ [] }
    ensures capacity { vec_capacity seats.old ≤ vec_capacity seats.new }
{
    match seats.push(seat) {
        Ok(()) => {}
        Err(_) => unreachable!(),
    }
}

/// The seats of passes, in the order of the passes, in a list that has room for one more.
fn gather<P: Parted, K: Keeper<P::Entry>>(
    passes: Vec<Pass<P, K>>,
    mut seats: Vec<Seat<P, K>>,
) -> Vec<Seat<P, K>>
    requires empty { seats.items ≡ [] }
    requires room { length passes.items < vec_capacity seats }
    ensures seats { result.items ≡ map (λ p. p.seat) passes.items }
    ensures room { length passes.items < vec_capacity result }
{
    for pass in passes {
        let Pass {
            seat,
            plan: _,
            number: _,
            used: _,
            wide: _,
            room: _,
        } = pass;
        add(&mut seats, seat);
    }
    seats
}

/// The seats of passes, in the order of the passes. They need no memory, since each pass has room for all of them.
pub(crate) fn take_seats<P: Parted, K: Keeper<P::Entry>>(
    mut passes: Vec<Pass<P, K>>,
) -> Vec<Seat<P, K>>
    requires some { 1 ≤ length passes.items }
    requires few { length passes.items ≤ 64 }
    ensures { result.items ≡ map (λ p. p.seat) passes.items }
{
    let Some(last) = passes.pop() else {
        unreachable!()
    };
    let Pass {
        seat,
        plan: _,
        number: _,
        used: _,
        wide: _,
        room,
    } = last;
    let mut seats = gather(passes, room);
    add(&mut seats, seat);
    seats
}
