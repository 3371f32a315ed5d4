ghost use Rattle.std.specs.Prelude.{◌≡◌, ◌+◌, [], length, OnOk, IfOk};
ghost use Rattle.std.specs.Thread.{IsSync};
ghost use Rattle.path_locks.specs.Views.{HoldsNothing, IsSameSeat};
ghost use Rattle.striped_store.specs.Views.{number_of_pass, IsNewPass, AreNewPasses, IsOf};

use commit_journal::{Limits, NoKeep};
use lock_core::LockMode;
use parted_namespace::Namespace;
use path_locks::Plan;
use std::alloc::Global;
use std::sync::Wait;
use std::test::Fail;
use std::thread;
use std::thread::Threads;
use striped_store::{Closing, Pass, Store};

type Nodes = Store<Namespace, NoKeep>;

type NodePass = Pass<Namespace, NoKeep>;

/// A store of the namespace as it is at the start, with two passes.
fn opened(alloc: Global) -> Result<(Nodes, Vec<NodePass>), Fail>
    ensures many { IfOk result (λ r. length r.1.items ≡ r.0.seats) }
    ensures new { IfOk result (λ r. AreNewPasses r.0 r.1.items) }
{
    let limits = Limits::new(2, 9, 100, 1).ok_or("no limits")?;
    Ok(Nodes::start(alloc, &limits, NoKeep)?)
}

/// The last of the new passes.
fn popped(store: &Nodes, passes: &mut Vec<NodePass>) -> Result<NodePass, Fail>
    requires { AreNewPasses store.now passes.old.items }
    ensures new { AreNewPasses store.now passes.new.items }
    ensures fewer { OnOk result (length passes.new.items + 1 ≡ length passes.old.items) }
    ensures last { IfOk result (λ p. IsNewPass store.now (length passes.new.items) p) }
{
    match passes.pop() {
        Some(pass) => Ok(pass),
        None => Err("no pass")?,
    }
}

/// Takes the stripe of the account exclusively, and gives it back.
fn taken<R: Wait>(rt: &R, store: &Nodes, pass: &mut NodePass)
    requires own { IsOf store.now pass.old }
    requires nothing { HoldsNothing pass.old.seat }
    ensures same { IsSameSeat pass.old.seat pass.new.seat }
    ensures nothing { HoldsNothing pass.new.seat }
{
    let mut plan = Plan::none();
    plan.set(0, LockMode::Exclusive);
    let held = store.begin(rt, pass, &plan);
    store.finish(pass, held);
}

/// Takes it a hundred times.
fn often_taken<R: Wait>(rt: &R, store: &Nodes, mut pass: NodePass) -> NodePass
    requires own { IsOf store.now pass }
    requires nothing { HoldsNothing pass.seat }
    ensures same { IsSameSeat pass.seat result.seat }
    ensures nothing { HoldsNothing result.seat }
{
    for _round in 0..100u16 {
        taken(rt, store, &mut pass);
    }
    pass
}

/// Two threads, to which one store is lent.
fn both_taken<R: Threads + Wait + Sync>(
    rt: &R,
    store: &Nodes,
    first: NodePass,
    second: NodePass,
) -> (NodePass, NodePass)
    requires own { IsOf store.now first × IsOf store.now second }
    requires nothing { HoldsNothing first.seat × HoldsNothing second.seat }
    ensures same { IsSameSeat first.seat result.0.seat × IsSameSeat second.seat result.1.seat }
    ensures nothing { HoldsNothing result.0.seat × HoldsNothing result.1.seat }
{
    let low = move || -> NodePass
        requires { IsSync R.row × IsOf store.now first × HoldsNothing first.seat }
        ensures { IsSameSeat first.seat result.seat × HoldsNothing result.seat }
    { often_taken(rt, store, first) };
    let high = move || -> NodePass
        requires { IsSync R.row × IsOf store.now second × HoldsNothing second.seat }
        ensures { IsSameSeat second.seat result.seat × HoldsNothing result.seat }
    { often_taken(rt, store, second) };
    thread::join(rt, low, high)
}

/// Closes a store of two passes.
fn closed(
    store: Nodes,
    mut passes: Vec<NodePass>,
    first: NodePass,
    second: NodePass,
) -> Result<Closing<Namespace, NoKeep>, Fail>
    requires own { IsOf store first × IsOf store second }
    requires nothing { HoldsNothing first.seat × HoldsNothing second.seat }
    requires every { (store.seats ≡ 2) × (number_of_pass first ≡ 0) × (number_of_pass second ≡ 1) × (passes.items ≡ []) }
{
    passes.push(first)?;
    passes.push(second)?;
    Ok(store.close(passes))
}

#[test]
fn two_threads_take_the_account(rt: HostRuntime) -> Result<(), Fail> {
    let (store, mut passes) = opened(rt.alloc())?;
    let second = popped(&store, &mut passes)?;
    let first = popped(&store, &mut passes)?;
    assert!(rt; passes.is_empty());
    let (first, second) = both_taken(&rt, &store, first, second);
    assert_eq!(rt; (first.number(), first.used(), first.wide()), (0, 0, 0));
    assert_eq!(rt; (second.number(), second.used(), second.wide()), (1, 0, 0));
    let Closing { journal, parts, .. } = closed(store, passes, first, second)?;
    assert!(rt; journal.is_empty());
    assert_eq!(rt; parts.len(), 64);
    Ok(())
}
