ghost use Rattle.std.specs.Prelude.{◌<◌};

use super::one::Lone;
use crate::shelves::{Shelf, Shelves, delivered};
use commit_journal::{Full, NoKeep};
use std::alloc::{AllocError, Global};
use std::sync::Wait;
use std::test::Fail;
use striped_store::{CommitRefusal, Receipt};

type Hall = Lone<Shelves, NoKeep>;

fn opened(alloc: Global, entries: u64) -> Result<Hall, Fail> {
    Hall::open(alloc, entries, 10, NoKeep)
}

/// Commits a delivery.
fn deliver<R: Wait>(
    rt: &R,
    hall: &mut Hall,
    shelf: u8,
    weight: u64,
    ids: u8,
) -> Result<Receipt, CommitRefusal>
    requires { shelf < 64 }
{
    delivered(rt, &hall.store, &mut hall.pass, shelf, weight, ids)
}

/// A delivery that fits, and one that is too heavy.
fn first_deliveries<R: Wait>(
    rt: &R,
    hall: &mut Hall,
) -> (Result<Receipt, CommitRefusal>, Option<CommitRefusal>) {
    let first = deliver(rt, hall, 5, 7, 3);
    let second = deliver(rt, hall, 6, 4, 1);
    (first, second.err())
}

/// A delivery that fits after these.
fn next_delivery<R: Wait>(rt: &R, hall: &mut Hall) -> Result<Receipt, CommitRefusal> {
    deliver(rt, hall, 6, 3, 2)
}

/// How many ids the pass used up, and how wide its last commit was.
fn told(hall: &Hall) -> (u64, u32) {
    (hall.pass.used(), hall.pass.wide())
}

/// What the journal of the closed store has: entries, and bytes of their bodies.
fn journal_left(hall: Hall) -> Result<(u64, u64), AllocError> {
    let closing = hall.close()?;
    Ok((closing.journal.len(), closing.journal.body_bytes()))
}

#[test]
fn bodies_and_ids_are_counted(rt: HostRuntime) -> Result<(), Fail> {
    let receipt = Receipt {
        number: 1,
        shared: 0,
        exclusive: 32,
        rounds: 0,
    };
    let full = CommitRefusal::Full(Full::JournalBytesFull);
    let next = Receipt {
        number: 2,
        shared: 0,
        exclusive: 64,
        rounds: 0,
    };
    let mut hall = opened(rt.alloc(), 9)?;
    assert!(rt; first_deliveries(&rt, &mut hall) == (Ok(receipt), Some(full)));
    assert!(rt; told(&hall) == (3, 2));
    assert!(rt; next_delivery(&rt, &mut hall) == Ok(next));
    assert!(rt; told(&hall) == (5, 2));
    let left = journal_left(hall)?;
    assert!(rt; left == (2, 10));
    Ok(())
}

/// The answers to two deliveries, to the last shelf and to another.
fn two_deliveries<R: Wait>(rt: &R, hall: &mut Hall) -> (bool, Option<CommitRefusal>) {
    let first = deliver(rt, hall, 63, 0, 1).is_ok();
    let second = deliver(rt, hall, 2, 0, 1).err();
    (first, second)
}

/// The two shelves of the closed store, and how many entries its journal has.
fn shelves_left(hall: Hall) -> Result<(Option<Shelf>, Option<Shelf>, u64), AllocError> {
    let closing = hall.close()?;
    let last = closing.parts.get(63).copied();
    let other = closing.parts.get(2).copied();
    Ok((last, other, closing.journal.len()))
}

#[test]
fn a_full_journal_refuses_the_second_delivery(rt: HostRuntime) -> Result<(), Fail> {
    let full = CommitRefusal::Full(Full::JournalFull);
    let filled = Shelf {
        last: 1,
        room: false,
    };
    let untouched = Shelf {
        last: 0,
        room: true,
    };
    let mut hall = opened(rt.alloc(), 1)?;
    assert!(rt; two_deliveries(&rt, &mut hall) == (true, Some(full)));
    let left = shelves_left(hall)?;
    assert!(rt; left == (Some(filled), Some(untouched), 1));
    Ok(())
}

#[test]
fn a_store_starts_with_what_another_left(rt: HostRuntime) -> Result<(), Fail> {
    let next = Receipt {
        number: 2,
        shared: 0,
        exclusive: 64,
        rounds: 0,
    };
    let mut hall = opened(rt.alloc(), 9)?;
    assert!(rt; deliver(&rt, &mut hall, 5, 7, 3).is_ok());
    let mut hall = hall.restart(rt.alloc())?;
    assert!(rt; told(&hall) == (3, 0));
    assert!(rt; next_delivery(&rt, &mut hall) == Ok(next));
    let left = journal_left(hall)?;
    assert!(rt; left == (2, 10));
    Ok(())
}
