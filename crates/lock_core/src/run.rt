ghost use Rattle.std.specs.Prelude.{◌≡◌, ℕ, ◌<◌, List, [], All, IfOk, IfErr};
ghost use Rattle.lock_core.specs.declared.machine.Event.{Event as AnyEvent};
ghost use Rattle.lock_core.specs.Machine.{LockState, NamesStripe};
ghost use Rattle.lock_core.specs.Sound.{AllFit, opened};
ghost use Rattle.lock_core.specs.Invariant.{Invariant};
ghost use Rattle.lock_core.specs.Runs.{Runs, IsRunStop};

use crate::machine::{Event, StepStop};
use crate::object::{Parted, Played};
use crate::pure_core::Core;
use std::alloc::Global;

/// Runs a list of events from the start, one after the other, and answers the machine behind the last one.
///
/// Each event that names a stripe names one below 64. `NotAllowed` comes exactly where some event isn't allowed at its
/// place, with the first clause that the first such event breaks. `NoMemory` may come at any time.
pub fn run_events<P: Played>(alloc: Global, events: Vec<Event<P>>) -> Result<Core<P>, StepStop>
    requires { All NamesStripe events.items }
    ensures ran { IfOk result (λ core. Runs P.object (opened P.object []) events.items core) }
    ensures stopped { IfErr result (λ stop. IsRunStop P.object (opened P.object []) events.items stop) }
    ensures kept { IfOk result (λ core. Invariant P.object [] core) }
{
    let mut core = Core::new(alloc)?;
    for event in events {
        core.step(event)?;
    }
    Ok(core)
}

/// The law of the lock machine: whatever journal of fitting entries it starts from, after any events that are each
/// allowed at its place the invariant holds.
pub fn runs_keep_the_invariant<P: Parted>()
    ensures { (start : List P.Entry)
        (events : List (AnyEvent (Unit {0}) P.Entry P.Reply P.Part (Unit {0})))
        (last : LockState P.Part P.Entry P.Reply)
        → AllFit P.object start → All NamesStripe events
        → Runs P.object (opened P.object start) events last → Invariant P.object start last }
{}
