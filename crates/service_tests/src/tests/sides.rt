//! Two connections, each in a thread of its own.
ghost use Rattle.std.specs.Thread.{IsSync};
ghost use Rattle.path_locks.specs.Views.{HoldsNothing, IsSeatAgain};
ghost use Rattle.striped_store.specs.Views.{IsOf};

use super::calls::{Call, Stop, Told, ask};
use super::clocks::{Marks, Meeting, MeetingClock, TURNS_MOST};
use super::team::Team;
use commit_journal::NoKeep;
use parted_namespace::Namespace;
use service_workers::Service;
use std::sync::Wait;
use std::test::Fail;
use std::thread;
use std::thread::Threads;
use striped_store::Pass;

type NodePass = Pass<Namespace, NoKeep>;

/// The side of one connection: its one call, and what its clock does.
#[derive(Clone, Copy)]
pub(super) struct Side {
    pub(super) call: Call,
    pub(super) meeting: Option<Meeting>,
    /// Whether it begins only once the clock of the other is in the call that waits.
    pub(super) follows: bool,
}

/// How a side ended: its answer, and whether what its clock waited for came, at first and last.
#[derive(Clone, Copy, Debug, PartialEq, Eq)]
pub(super) struct Done {
    pub(super) told: Result<Told, Stop>,
    pub(super) came: (bool, bool),
}

/// Both sides at a time, the first one by pass 0 and the second by pass 1. Where no second thread can be made, the second side begins
/// when the first has ended.
pub(super) fn both_play<R: Threads + Wait + Sync>(
    rt: &R,
    team: Team<NoKeep>,
    first: Side,
    second: Side,
) -> Result<(Team<NoKeep>, Done, Done), Fail> {
    let Team {
        service,
        mut passes,
    } = team;
    let Some(pass_1) = passes.pop() else {
        return Err(Fail::new("no pass"));
    };
    let Some(pass_0) = passes.pop() else {
        return Err(Fail::new("one pass"));
    };
    let ((pass_1, second), (pass_0, first)) = both_played(
        rt,
        &service,
        pass_0,
        pass_1,
        (first, second),
    );
    passes.push(pass_0)?;
    passes.push(pass_1)?;
    Ok((Team { service, passes }, first, second))
}

fn both_played<R: Threads + Wait + Sync>(
    rt: &R,
    service: &Service<NoKeep>,
    pass_0: NodePass,
    pass_1: NodePass,
    sides: (Side, Side),
) -> ((NodePass, Done), (NodePass, Done))
    requires own { IsOf service.now pass_0 × IsOf service.now pass_1 }
    requires nothing { HoldsNothing pass_0.seat × HoldsNothing pass_1.seat }
    ensures again { IsSeatAgain pass_1.seat result.0.0.seat × IsSeatAgain pass_0.seat result.1.0.seat }
    ensures nothing { HoldsNothing result.0.0.seat × HoldsNothing result.1.0.seat }
{
    let (side_0, side_1) = sides;
    let (own_0, own_1) = (Marks::new(), Marks::new());
    let (marks_0, marks_1) = (&own_0, &own_1);
    let one = move || -> (NodePass, Done)
        requires { IsSync R.row × IsOf service.now pass_0 × HoldsNothing pass_0.seat }
        ensures { IsSeatAgain pass_0.seat result.0.seat × HoldsNothing result.0.seat }
    { play(rt, service, pass_0, side_0, marks_0, marks_1) };
    let other = move || -> (NodePass, Done)
        requires { IsSync R.row × IsOf service.now pass_1 × HoldsNothing pass_1.seat }
        ensures { IsSeatAgain pass_1.seat result.0.seat × HoldsNothing result.0.seat }
    { play(rt, service, pass_1, side_1, marks_1, marks_0) };
    thread::join(rt, other, one)
}

/// Plays a side by a pass, with the signals of its own connection and of the other.
fn play<R: Wait>(
    rt: &R,
    service: &Service<NoKeep>,
    mut pass: NodePass,
    side: Side,
    mine: &Marks,
    other: &Marks,
) -> (NodePass, Done)
    requires own { IsOf service.now pass }
    requires nothing { HoldsNothing pass.seat }
    ensures again { IsSeatAgain pass.seat result.0.seat }
    ensures nothing { HoldsNothing result.0.seat }
{
    if is_late(&side, other) {
        return (pass, late());
    }
    mine.begun.give();
    let mut clock = MeetingClock::new(side.meeting, mine, other);
    let told = ask(rt, service, &mut pass, &mut clock, &side.call);
    mine.answered.give();
    let done = Done {
        told,
        came: clock.came,
    };
    (pass, done)
}

fn is_late(side: &Side, other: &Marks) -> bool {
    side.follows && !other.reached.comes_within(TURNS_MOST)
}

fn late() -> Done {
    Done {
        told: Err(Stop::Late),
        came: (false, false),
    }
}
