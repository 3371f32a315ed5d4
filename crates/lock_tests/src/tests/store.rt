use super::pass_pair::{PassPair, TallyPass};
use crate::callers::{Refused, footprint, narrowed};
use commit_journal::{Full, Journal, NoKeep};
use lock_core::{Parted, Tally, TallyEntry};
use std::alloc::{AllocError, Global};
use std::sync::Wait;
use std::test::Fail;
use std::thread::Threads;
use striped_store::{Closing, CommitRefusal, Receipt};

/// What a store left behind.
#[derive(Clone, Copy, Debug, PartialEq, Eq)]
struct Left {
    /// The entries of its journal, and the places for them.
    entries: u64,
    places: u64,
    /// The part of one stripe.
    part: Option<u64>,
    /// Whether the last entry that wrote a part left its number there, and 0 stands where none did.
    is_replay: bool,
}

/// The 64 numbers after the entries: each entry's number stands where the last one wrote.
fn replayed(alloc: Global, journal: &Journal<TallyEntry>) -> Result<Vec<u64>, AllocError> {
    let mut parts = Tally::opening_parts(alloc)?;
    for number in 1..=journal.len() {
        if let Some(entry) = journal.get(number) {
            if let Some(part) = parts.get_mut(entry.writes as usize) {
                *part = number;
            }
        }
    }
    Ok(parts)
}

fn left_by(
    alloc: Global,
    closing: &Closing<Tally, NoKeep>,
    stripe: usize,
) -> Result<Left, AllocError> {
    let parts = replayed(alloc, &closing.journal)?;
    Ok(Left {
        entries: closing.journal.len(),
        places: closing.journal.limits().journal_max(),
        part: closing.parts.get(stripe).copied(),
        is_replay: closing.parts == parts,
    })
}

/// Closes the store, and answers what it left behind, with the part of the stripe.
fn closed(alloc: Global, pair: PassPair, stripe: usize) -> Result<Left, AllocError> {
    let closing = pair.close()?;
    left_by(alloc, &closing, stripe)
}

/// The number of a pass, how many ids it used up, and how wide its last commit was.
fn told(pass: &TallyPass) -> (u32, u64, u32) {
    (pass.number(), pass.used(), pass.wide())
}

fn first_told(pair: &PassPair) -> (u32, u64, u32) {
    told(&pair.first)
}

fn second_told(pair: &PassPair) -> (u32, u64, u32) {
    told(&pair.second)
}

/// Two passes commit fifty times each in threads, in stripes so far apart.
fn churned_apart<R: Threads + Wait + Sync>(rt: &R, pair: PassPair, apart: u8) -> PassPair {
    pair.churn(rt, apart % 60)
}

/// What is left after a hundred commits, none of which wrote stripe 0.
fn hundred_left() -> Left {
    Left {
        entries: 100,
        places: 1000,
        part: Some(0),
        is_replay: true,
    }
}

#[test]
fn threads_commit_to_stripes_apart(rt: HostRuntime) -> Result<(), Fail> {
    let pair = churned_apart(&rt, PassPair::open(rt.alloc(), 1000)?, 7);
    assert!(rt; first_told(&pair) == (0, 0, 3));
    assert!(rt; second_told(&pair) == (1, 0, 3));
    let found = closed(rt.alloc(), pair, 0)?;
    assert!(rt; found == hundred_left());
    Ok(())
}

#[test]
fn threads_commit_to_the_same_stripes(rt: HostRuntime) -> Result<(), Fail> {
    let pair = churned_apart(&rt, PassPair::open(rt.alloc(), 1000)?, 0);
    assert!(rt; first_told(&pair) == (0, 0, 3));
    assert!(rt; second_told(&pair) == (1, 0, 3));
    let found = closed(rt.alloc(), pair, 0)?;
    assert!(rt; found == hundred_left());
    Ok(())
}

/// A commit to the journal's one place, and one that finds it full.
fn two_commits<R: Wait>(rt: &R, pair: &mut PassPair) -> (Option<Receipt>, Option<Refused>) {
    let first = pair.first_commits(rt, 1, 2);
    let second = pair.second_commits(rt, 2, 1);
    (first.ok(), second.err())
}

#[test]
fn a_full_store_refuses_and_hands_back(rt: HostRuntime) -> Result<(), Fail> {
    let receipt = Receipt {
        number: 1,
        shared: 2,
        exclusive: 4,
        rounds: 0,
    };
    let refused = Refused {
        why: CommitRefusal::Full(Full::JournalFull),
        wide: 3,
        read: 1,
    };
    let mut pair = PassPair::open(rt.alloc(), 1)?;
    assert!(rt; two_commits(&rt, &mut pair) == (Some(receipt), Some(refused)));
    assert!(rt; first_told(&pair) == (0, 0, 3));
    assert!(rt; second_told(&pair) == (1, 0, 0));
    let found = closed(rt.alloc(), pair, 2)?;
    let expected = Left {
        entries: 1,
        places: 1,
        part: Some(1),
        is_replay: true,
    };
    assert!(rt; found == expected);
    Ok(())
}

/// A commit of the first pass.
fn one_commit<R: Wait>(rt: &R, pair: &mut PassPair) -> bool {
    pair.first_commits(rt, 1, 2).is_ok()
}

#[test]
fn a_pass_tells_of_its_last_commit(rt: HostRuntime) -> Result<(), Fail> {
    let mut pair = PassPair::open(rt.alloc(), 9)?;
    assert!(rt; first_told(&pair) == (0, 0, 0));
    assert!(rt; one_commit(&rt, &mut pair));
    assert!(rt; first_told(&pair) == (0, 0, 3));
    Ok(())
}

/// How wide the footprint of an entry is, which is held and given back without a commit.
fn begun<R: Wait>(rt: &R, pair: &mut PassPair) -> u32 {
    let plan = footprint(0, 63);
    let held = pair.store.begin(rt, &mut pair.first, &plan);
    let wide = held.wide();
    pair.store.finish(&mut pair.first, held);
    wide
}

#[test]
fn a_pass_begins_and_finishes(rt: HostRuntime) -> Result<(), Fail> {
    let mut pair = PassPair::open(rt.alloc(), 9)?;
    assert!(rt; begun(&rt, &mut pair) == 3);
    assert!(rt; first_told(&pair) == (0, 0, 0));
    Ok(())
}

/// A commit of the first pass, which first held every stripe.
fn narrow_commit<R: Wait>(rt: &R, pair: &mut PassPair) -> Option<Receipt> {
    narrowed(rt, &pair.store, &mut pair.first, 0, 63)
}

#[test]
fn a_pass_narrows(rt: HostRuntime) -> Result<(), Fail> {
    let receipt = Receipt {
        number: 1,
        shared: 1,
        exclusive: 9_223_372_036_854_775_808,
        rounds: 0,
    };
    let mut pair = PassPair::open(rt.alloc(), 9)?;
    assert!(rt; narrow_commit(&rt, &mut pair) == Some(receipt));
    assert!(rt; first_told(&pair) == (0, 0, 128));
    let found = closed(rt.alloc(), pair, 63)?;
    let expected = Left {
        entries: 1,
        places: 9,
        part: Some(1),
        is_replay: true,
    };
    assert!(rt; found == expected);
    Ok(())
}
