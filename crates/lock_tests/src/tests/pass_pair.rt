//! Stores of two passes.
ghost use Rattle.std.specs.Prelude.{◌≡◌, ◌<◌, length};
ghost use Rattle.std.specs.Thread.{IsSync};
ghost use Rattle.path_locks.specs.Views.{HoldsNothing, IsSeatAgain};
ghost use Rattle.striped_store.specs.Views.{IsOf, AreNewPasses};

use super::one::is_none;
use crate::callers::{Refused, churned, tallied};
use commit_journal::{Limits, NoKeep};
use lock_core::Tally;
use std::alloc::{AllocError, Global};
use std::marker::Model;
use std::sync::Wait;
use std::test::Fail;
use std::thread;
use std::thread::Threads;
use striped_store::{Closing, Pass, Receipt, Store};

pub(super) type TallyStore = Store<Tally, NoKeep>;

pub(super) type TallyPass = Pass<Tally, NoKeep>;

/// A store and its two passes, each of which holds nothing.
#[derive(Drop)]
pub(super) struct PassPair {
    pub(super) store: TallyStore,
    /// Empty, with room for both.
    pub(super) passes: Vec<TallyPass>,
    pub(super) first: TallyPass,
    pub(super) second: TallyPass,
}

impl Model for PassPair {
    ghost use Rattle.lock_tests.specs.Pairs.{AreBothPasses};

    ghost Value = { Unit {0} };

    ghost view = { λ _. tt };

    ghost invariant = { λ p. AreBothPasses p.store p.passes.items p.first p.second };
}

/// A store with its two new passes.
fn paired(store: TallyStore, mut passes: Vec<TallyPass>) -> Result<PassPair, Fail>
    requires many { length passes.items ≡ store.seats }
    requires new { AreNewPasses store passes.items }
{
    let Some(second) = passes.pop() else {
        return Err(Fail::new("no pass"));
    };
    let Some(first) = passes.pop() else {
        return Err(Fail::new("one pass"));
    };
    if is_none(&passes) {
        Ok(PassPair {
            store,
            passes,
            first,
            second,
        })
    } else {
        Err(Fail::new("more than two passes"))
    }
}

impl PassPair {
    /// A store with a journal of at most so many entries.
    pub(super) fn open(alloc: Global, entries: u64) -> Result<PassPair, Fail> {
        let limits = Limits::new(2, entries, 100, 1).ok_or("no limits")?;
        let (store, passes) = Store::<Tally, NoKeep>::start(alloc, &limits, NoKeep)?;
        paired(store, passes)
    }

    /// The first pass commits.
    pub(super) fn first_commits<R: Wait>(
        &mut self,
        rt: &R,
        reads: u8,
        writes: u8,
    ) -> Result<Receipt, Refused>
        requires { (reads < 64) × (writes < 64) }
    {
        tallied(rt, &self.store, &mut self.first, reads, writes)
    }

    /// The second pass commits.
    pub(super) fn second_commits<R: Wait>(
        &mut self,
        rt: &R,
        reads: u8,
        writes: u8,
    ) -> Result<Receipt, Refused>
        requires { (reads < 64) × (writes < 64) }
    {
        tallied(rt, &self.store, &mut self.second, reads, writes)
    }

    /// In two threads each pass commits fifty times, the second one between stripes so far above those of the first.
    pub(super) fn churn<R: Threads + Wait + Sync>(self, rt: &R, apart: u8) -> PassPair
        requires { apart < 60 }
    {
        let PassPair {
            store,
            passes,
            first,
            second,
        } = self;
        let (first, second) = both_churned(rt, &store, first, second, apart);
        PassPair {
            store,
            passes,
            first,
            second,
        }
    }

    /// Closes the store.
    pub(super) fn close(self) -> Result<Closing<Tally, NoKeep>, AllocError> {
        let PassPair {
            store,
            mut passes,
            first,
            second,
        } = self;
        passes.push(first)?;
        passes.push(second)?;
        Ok(store.close(passes))
    }
}

/// Two threads commit, the second one between stripes so far above those of the first.
fn both_churned<R: Threads + Wait + Sync>(
    rt: &R,
    store: &TallyStore,
    first: TallyPass,
    second: TallyPass,
    apart: u8,
) -> (TallyPass, TallyPass)
    requires own { IsOf store.now first × IsOf store.now second }
    requires nothing { HoldsNothing first.seat × HoldsNothing second.seat }
    requires apart { apart < 60 }
    ensures same { IsSeatAgain first.seat result.0.seat × IsSeatAgain second.seat result.1.seat }
    ensures nothing { HoldsNothing result.0.seat × HoldsNothing result.1.seat }
{
    let low = move || -> TallyPass
        requires { IsSync R.row × IsOf store.now first × HoldsNothing first.seat }
        ensures { IsSeatAgain first.seat result.seat × HoldsNothing result.seat }
    { fifty(rt, store, first, 1, 2) };
    let high = move || -> TallyPass
        requires { IsSync R.row × IsOf store.now second × HoldsNothing second.seat × (apart < 60) }
        ensures { IsSeatAgain second.seat result.seat × HoldsNothing result.seat }
    { fifty(rt, store, second, 2 + apart, 1 + apart) };
    thread::join(rt, low, high)
}

/// Commits the same entry fifty times.
fn fifty<R: Wait>(
    rt: &R,
    store: &TallyStore,
    mut pass: TallyPass,
    reads: u8,
    writes: u8,
) -> TallyPass
    requires own { IsOf store.now pass }
    requires nothing { HoldsNothing pass.seat }
    requires stripes { (reads < 64) × (writes < 64) }
    ensures same { IsSeatAgain pass.seat result.seat }
    ensures nothing { HoldsNothing result.seat }
{
    let _made = churned(rt, store, &mut pass, reads, writes, 50);
    pass
}
