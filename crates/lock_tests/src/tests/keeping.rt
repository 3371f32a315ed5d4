ghost use Rattle.std.specs.Prelude.{◌≡◌, ◌<◌, Some, []};

use super::one::Lone;
use crate::callers::{Refused, tallied};
use commit_journal::{KeepStop, Keeper};
use lock_core::{Tally, TallyEntry};
use std::alloc::{AllocError, Global};
use std::sync::Wait;
use std::test::Fail;
use striped_store::{CommitRefusal, Receipt};

/// A keeper in memory, whose device fails at one call.
#[derive(Drop)]
pub struct MemKeep {
    entries: Vec<TallyEntry>,
    calls: u64,
    fails: u64,
    faults: u64,
}

impl MemKeep {
    fn new(alloc: Global, fails: u64) -> MemKeep
        ensures { result.entries.items ≡ [] }
    {
        MemKeep {
            entries: Vec::new(alloc),
            calls: 0,
            fails,
            faults: 0,
        }
    }
}

impl Keeper<TallyEntry> for MemKeep {
    ghost tells = { λ k. record { kept = Some k.entries.items; faults = k.faults } };

    fn keep(&mut self, entry: &TallyEntry) -> Result<(), KeepStop> {
        self.calls = self.calls.wrapping_add(1);
        if self.calls == self.fails {
            self.faults = self.faults.saturating_add(1);
            return Err(KeepStop::Failed);
        }
        match self.entries.push(*entry) {
            Ok(()) => Ok(()),
            Err(_) => Err(KeepStop::NoMemory),
        }
    }
}

type Shop = Lone<Tally, MemKeep>;

/// A store whose keeper fails at its second call.
fn opened(alloc: Global) -> Result<Shop, Fail> {
    let keeper = MemKeep::new(alloc, 2);
    Shop::open(alloc, 9, 100, keeper)
}

/// Commits an entry.
fn commit<R: Wait>(rt: &R, shop: &mut Shop, reads: u8, writes: u8) -> Result<Receipt, Refused>
    requires { (reads < 64) × (writes < 64) }
{
    tallied(rt, &shop.store, &mut shop.pass, reads, writes)
}

/// Three commits, of which the second one finds that the keeper fails.
fn three_commits<R: Wait>(rt: &R, shop: &mut Shop) -> (bool, Option<Refused>, Option<Receipt>) {
    let first = commit(rt, shop, 1, 2).is_ok();
    let second = commit(rt, shop, 2, 1).err();
    let third = commit(rt, shop, 2, 1).ok();
    (first, second, third)
}

/// What the closed store left.
#[derive(Clone, Copy, Debug, PartialEq, Eq)]
struct Tail {
    /// The entries of the journal, and those that were kept.
    entries: (u64, usize),
    /// The calls of the keeper, and how often it failed.
    calls: (u64, u64),
    /// The last entry of the journal is the last one that was kept.
    is_same: bool,
}

fn tail_of(shop: Shop) -> Result<Tail, AllocError> {
    let closing = shop.close()?;
    let kept = &closing.keeper.entries;
    Ok(Tail {
        entries: (closing.journal.len(), kept.len()),
        calls: (closing.keeper.calls, closing.keeper.faults),
        is_same: closing.journal.get(2) == kept.get(1),
    })
}

#[test]
fn a_keeper_that_fails_refuses_one_commit(rt: HostRuntime) -> Result<(), Fail> {
    let refused = Refused {
        why: CommitRefusal::Tape,
        wide: 3,
        read: 1,
    };
    let receipt = Receipt {
        number: 2,
        shared: 4,
        exclusive: 2,
        rounds: 0,
    };
    let mut shop = opened(rt.alloc())?;
    let found = three_commits(&rt, &mut shop);
    assert!(rt; found == (true, Some(refused), Some(receipt)));
    let left = tail_of(shop)?;
    let expected = Tail {
        entries: (2, 2),
        calls: (3, 1),
        is_same: true,
    };
    assert!(rt; left == expected);
    Ok(())
}
