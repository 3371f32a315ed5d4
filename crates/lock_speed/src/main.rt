//! Commits of tallies, to be timed: `lock_speed one COMMITS` makes so many by one pass, and `lock_speed four COMMITS` by each of
//! four passes, in four threads on stripes apart. Each holds one stripe shared and one exclusively. It prints how many were made.
#![tactic(auto)]

ghost use Rattle.std.specs.Prelude.{◌≡◌, ◌+◌, ◌<◌, IfSome, length};
ghost use Rattle.std.specs.Thread.{IsSync};
ghost use Rattle.path_locks.specs.Views.{HoldsNothing};
ghost use Rattle.striped_store.specs.Views.{AreNewPasses, IsOf};

use commit_journal::{JOURNAL_MOST, Limits, NoKeep};
use lock_core::Tally;
use lock_tests::callers::churned;
use std::alloc::Global;
use std::process::ExitCode;
use std::sync::Wait;
use std::thread::Threads;
use std::{env, thread};
use striped_store::{Pass, Store};

type TallyStore = Store<Tally, NoKeep>;

type TallyPass = Pass<Tally, NoKeep>;

/// The last of the new passes.
fn popped(store: &TallyStore, passes: &mut Vec<TallyPass>) -> Option<TallyPass>
    requires { AreNewPasses store.now passes.old.items }
    ensures new { AreNewPasses store.now passes.new.items }
    ensures own { IfSome result (λ p. IsOf store.now p) }
    ensures nothing { IfSome result (λ p. HoldsNothing p.seat) }
{
    match passes.pop() {
        Some(pass) => Some(pass),
        None => None,
    }
}

/// Two threads commit on stripes apart.
fn two_churned<R: Threads + Wait + Sync>(
    rt: &R,
    store: &TallyStore,
    first: TallyPass,
    second: TallyPass,
    reads: u8,
    commits: u32,
) -> u32
    requires own { IsOf store.now first × IsOf store.now second }
    requires nothing { HoldsNothing first.seat × HoldsNothing second.seat }
    requires stripes { reads < 55 }
{
    let low = move || -> u32
        requires { IsSync R.row × IsOf store.now first × HoldsNothing first.seat × (reads < 55) }
    {
        let mut pass = first;
        churned(rt, store, &mut pass, reads, reads + 1, commits)
    };
    let high = move || -> u32
        requires { IsSync R.row × IsOf store.now second × HoldsNothing second.seat × (reads < 55) }
    {
        let mut pass = second;
        churned(rt, store, &mut pass, reads + 8, reads + 9, commits)
    };
    let (made, more) = thread::join(rt, low, high);
    made.saturating_add(more)
}

/// Two passes, each of which holds nothing.
fn two_popped(store: &TallyStore, passes: &mut Vec<TallyPass>) -> Option<(TallyPass, TallyPass)>
    requires { AreNewPasses store.now passes.old.items }
    ensures new { AreNewPasses store.now passes.new.items }
    ensures own { IfSome result (λ p. IsOf store.now p.0 × IsOf store.now p.1) }
    ensures nothing { IfSome result (λ p. HoldsNothing p.0.seat × HoldsNothing p.1.seat) }
{
    let first = popped(store, passes)?;
    let second = popped(store, passes)?;
    Some((first, second))
}

/// Four threads commit on stripes apart.
fn four_churned<R: Threads + Wait + Sync>(
    rt: &R,
    store: &TallyStore,
    passes: &mut Vec<TallyPass>,
    commits: u32,
) -> Option<u32>
    requires { AreNewPasses store.now passes.old.items }
{
    let (first, second) = two_popped(store, passes)?;
    let (third, fourth) = two_popped(store, passes)?;
    let low = move || -> u32
        requires { IsSync R.row × IsOf store.now first × IsOf store.now second × HoldsNothing first.seat × HoldsNothing second.seat }
    { two_churned(rt, store, first, second, 0, commits) };
    let high = move || -> u32
        requires { IsSync R.row × IsOf store.now third × IsOf store.now fourth × HoldsNothing third.seat × HoldsNothing fourth.seat }
    { two_churned(rt, store, third, fourth, 16, commits) };
    let (made, more) = thread::join(rt, low, high);
    Some(made.saturating_add(more))
}

/// How many were made: by four passes, or by one.
fn made<R: Threads + Wait + Sync>(rt: &R, alloc: Global, four: bool, commits: u32) -> Option<u32> {
    let limits = Limits::new(4, JOURNAL_MOST, 1, 1)?;
    let Ok((store, mut passes)) = Store::<Tally, NoKeep>::start(alloc, &limits, NoKeep) else {
        return None;
    };
    if four {
        four_churned(rt, &store, &mut passes, commits)
    } else {
        let mut pass = popped(&store, &mut passes)?;
        Some(churned(rt, &store, &mut pass, 0, 1, commits))
    }
}

fn main(rt: HostRuntime) -> ExitCode {
    let Ok(arguments) = env::args(&rt) else {
        return ExitCode::from(2);
    };
    let mut words = arguments.skip(1);
    let four = match words.next() {
        Some(word) => word.as_str() == "four",
        None => false,
    };
    let commits = match words.next() {
        Some(word) => word.as_str().parse::<u32>().unwrap_or(0),
        None => 0,
    };
    match made(&rt, rt.alloc(), four, commits) {
        Some(count) => {
            let _ = println!(rt; "{count} commits");
            ExitCode::from(0)
        }
        None => ExitCode::from(5),
    }
}
