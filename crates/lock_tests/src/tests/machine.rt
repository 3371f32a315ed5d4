ghost use Rattle.std.specs.Prelude.{All, OnOk, IfOk};
ghost use Rattle.lock_core.specs.Machine.{NamesStripe};

use lock_core::{
    Bodied, Clause, Core, Event, LockMode, Parted, Played, StepStop, Tally, TallyEntry, run_events,
};
use std::alloc::{AllocError, Global};
use std::test::Fail;

/// What a seat, which comes first, does; a stripe comes second, modulo 64.
#[derive(Clone, Copy)]
enum Act {
    Load(u32),
    Shared(u32, u8),
    Exclusive(u32, u8),
    GiveShared(u32, u8),
    GiveExclusive(u32, u8),
    Downgrade(u32, u8),
    Latch(u32, u8),
    GiveLatch(u32, u8),
    Journal(u32),
    GiveJournal(u32),
    /// The entry of pass 0 that reads stripe 1 and writes stripe 2.
    Commit(u32),
    Split(u32),
    Join(u32, u32),
}

fn entry() -> TallyEntry {
    TallyEntry {
        pass: 0,
        reads: 1,
        writes: 2,
    }
}

fn other_entry() -> TallyEntry {
    TallyEntry {
        pass: 3,
        reads: 5,
        writes: 6,
    }
}

fn event_of(act: Act) -> Event<Tally>
    ensures { NamesStripe result }
{
    match act {
        Act::Load(seat) => Event::Load(seat),
        Act::Shared(seat, stripe) => Event::LockShared(seat, stripe % 64),
        Act::Exclusive(seat, stripe) => Event::LockExclusive(seat, stripe % 64),
        Act::GiveShared(seat, stripe) => Event::UnlockShared(seat, stripe % 64),
        Act::GiveExclusive(seat, stripe) => Event::UnlockExclusive(seat, stripe % 64),
        Act::Downgrade(seat, stripe) => Event::Downgrade(seat, stripe % 64),
        Act::Latch(seat, stripe) => Event::LatchTake(seat, stripe % 64),
        Act::GiveLatch(seat, stripe) => Event::LatchGive(seat, stripe % 64),
        Act::Journal(seat) => Event::JournalTake(seat),
        Act::GiveJournal(seat) => Event::JournalGive(seat),
        Act::Commit(seat) => Event::Commit(seat, entry()),
        Act::Split(seat) => Event::Split(seat),
        Act::Join(from, into) => Event::Join(from, into),
    }
}

/// The clause that the act breaks, if it is not allowed.
fn broken(core: &mut Core<Tally>, act: Act) -> Result<Option<Clause>, StepStop> {
    match core.step(event_of(act)) {
        Ok(()) => Ok(None),
        Err(StepStop::NotAllowed(clause)) => Ok(Some(clause)),
        Err(StepStop::NoMemory) => Err(StepStop::NoMemory),
    }
}

/// The acts, one after the other, until one is not allowed: the clause that it breaks.
fn all_broken(core: &mut Core<Tally>, acts: &[Act]) -> Result<Option<Clause>, StepStop> {
    for act in acts {
        let clause = broken(core, *act)?;
        if clause.is_some() {
            return Ok(clause);
        }
    }
    Ok(None)
}

/// The same, from the start of the machine.
fn first_broken(alloc: Global, acts: &[Act]) -> Result<Option<Clause>, StepStop> {
    let mut core = Core::<Tally>::new(alloc)?;
    all_broken(&mut core, acts)
}

/// The clause that these acts break from the start of the machine, and the one that an act behind them breaks.
fn broken_behind(
    alloc: Global,
    acts: &[Act],
    last: Act,
) -> Result<(Option<Clause>, Option<Clause>), StepStop> {
    let mut core = Core::<Tally>::new(alloc)?;
    let found = all_broken(&mut core, acts)?;
    let behind = broken(&mut core, last)?;
    Ok((found, behind))
}

fn add(events: &mut Vec<Event<Tally>>, act: Act) -> Result<(), AllocError>
    requires { All NamesStripe events.old.items }
    ensures { OnOk result (All NamesStripe events.new.items) }
{
    events.push(event_of(act))?;
    Ok(())
}

/// The acts as a list of events.
fn events_of(alloc: Global, acts: &[Act]) -> Result<Vec<Event<Tally>>, AllocError>
    ensures { IfOk result (λ events. All NamesStripe events.items) }
{
    let mut events = Vec::new(alloc);
    for act in acts {
        add(&mut events, *act)?;
    }
    Ok(events)
}

/// The machine after the acts, which are run as one list.
fn ran(alloc: Global, acts: &[Act]) -> Result<Core<Tally>, StepStop> {
    let events = events_of(alloc, acts)?;
    run_events(alloc, events)
}

/// The clause that one of the acts breaks, which are run as one list.
fn run_broken(alloc: Global, acts: &[Act]) -> Result<Option<Clause>, StepStop> {
    match ran(alloc, acts) {
        Ok(_core) => Ok(None),
        Err(StepStop::NotAllowed(clause)) => Ok(Some(clause)),
        Err(StepStop::NoMemory) => Err(StepStop::NoMemory),
    }
}

#[test]
fn a_held_stripe_is_not_taken_again(rt: HostRuntime) -> Result<(), Fail> {
    let twice = [Act::Exclusive(0, 1), Act::Shared(0, 1)];
    let found = run_broken(rt.alloc(), &twice)?;
    assert!(rt; found == Some(Clause::Ascending));
    Ok(())
}

#[test]
fn a_stripe_that_was_given_back_is_taken_again(rt: HostRuntime) -> Result<(), Fail> {
    let between = [
        Act::Exclusive(0, 1),
        Act::GiveExclusive(0, 1),
        Act::Shared(0, 1),
    ];
    let found = run_broken(rt.alloc(), &between)?;
    assert!(rt; found.is_none());
    Ok(())
}

#[test]
fn a_stripe_of_another_seat_is_not_free(rt: HostRuntime) -> Result<(), Fail> {
    let held = [
        Act::Split(0),
        Act::Shared(0, 3),
        Act::Shared(1, 3),
        Act::Exclusive(1, 5),
        Act::Shared(0, 5),
    ];
    let found = run_broken(rt.alloc(), &held)?;
    assert!(rt; found == Some(Clause::Free));
    Ok(())
}

#[test]
fn a_stripe_that_another_seat_gave_back_is_free(rt: HostRuntime) -> Result<(), Fail> {
    let given = [
        Act::Split(0),
        Act::Shared(0, 3),
        Act::Shared(1, 3),
        Act::Exclusive(1, 5),
        Act::GiveExclusive(1, 5),
        Act::Shared(0, 5),
    ];
    let found = run_broken(rt.alloc(), &given)?;
    assert!(rt; found.is_none());
    Ok(())
}

#[test]
fn a_commit_wants_looks(rt: HostRuntime) -> Result<(), Fail> {
    let blind = [
        Act::Shared(0, 1),
        Act::Exclusive(0, 2),
        Act::Journal(0),
        Act::Commit(0),
    ];
    let found = first_broken(rt.alloc(), &blind)?;
    assert!(rt; found == Some(Clause::Looked));
    Ok(())
}

#[test]
fn a_commit_wants_its_footprint(rt: HostRuntime) -> Result<(), Fail> {
    let wider = [
        Act::Shared(0, 1),
        Act::Latch(0, 1),
        Act::GiveLatch(0, 1),
        Act::Exclusive(0, 2),
        Act::Exclusive(0, 3),
        Act::Journal(0),
        Act::Commit(0),
    ];
    let found = first_broken(rt.alloc(), &wider)?;
    assert!(rt; found == Some(Clause::Footprint));
    Ok(())
}

/// How many entries there are, and the first one.
fn entries(core: &Core<Tally>) -> (usize, Option<TallyEntry>) {
    let journal = core.journal();
    (journal.len(), journal.first().copied())
}

/// How many replies there are, and the first one.
fn replies(core: &Core<Tally>) -> (usize, Option<u64>) {
    let replies = core.replies();
    (replies.len(), replies.first().copied())
}

/// The parts of stripes 1 and 2.
fn both_parts(core: &Core<Tally>) -> (u64, u64) {
    (*core.part(1), *core.part(2))
}

/// A commit with all that it wants.
fn commit_acts() -> [Act; 6] {
    [
        Act::Shared(0, 1),
        Act::Latch(0, 1),
        Act::GiveLatch(0, 1),
        Act::Exclusive(0, 2),
        Act::Journal(0),
        Act::Commit(0),
    ]
}

#[test]
fn a_commit_of_what_was_looked_at_is_allowed(rt: HostRuntime) -> Result<(), Fail> {
    let found = first_broken(rt.alloc(), &commit_acts())?;
    assert!(rt; found.is_none());
    Ok(())
}

#[test]
fn a_commit_answers_and_changes_its_part(rt: HostRuntime) -> Result<(), Fail> {
    let core = ran(rt.alloc(), &commit_acts())?;
    assert!(rt; entries(&core) == (1, Some(entry())));
    assert!(rt; replies(&core) == (1, Some(0)));
    assert!(rt; both_parts(&core) == (0, 1));
    Ok(())
}

#[test]
fn seats_come_and_go(rt: HostRuntime) -> Result<(), Fail> {
    let acts = [
        Act::Split(0),
        Act::Load(1),
        Act::Shared(0, 1),
        Act::GiveShared(0, 1),
        Act::Exclusive(1, 4),
        Act::Downgrade(1, 4),
        Act::Shared(0, 4),
        Act::GiveShared(1, 4),
        Act::GiveShared(0, 4),
        Act::Journal(1),
        Act::GiveJournal(1),
        Act::Join(1, 0),
    ];
    let found = broken_behind(rt.alloc(), &acts, Act::Load(1))?;
    assert!(rt; found == (None, Some(Clause::Live)));
    Ok(())
}

/// How many numbers there are at the start.
fn opening_length(alloc: Global) -> Result<usize, AllocError> {
    let parts = Tally::opening_parts(alloc)?;
    Ok(parts.len())
}

#[test]
fn a_tally_has_sixty_four_numbers(rt: HostRuntime) -> Result<(), Fail> {
    let length = opening_length(rt.alloc())?;
    assert!(rt; length == 64);
    Ok(())
}

fn entry_sizes<E: Bodied>(entry: &E) -> (u64, u8) {
    (entry.body_len(), entry.uses_len())
}

#[test]
fn an_entry_of_a_tally_has_no_body(rt: HostRuntime) -> Result<(), Fail> {
    assert!(rt; entry_sizes(&other_entry()) == (0, 0));
    assert!(rt; Tally::pass_of(&other_entry()) == 3);
    Ok(())
}

/// A number that was made ready, and written.
fn applied(alloc: Global) -> Result<u64, AllocError> {
    let mut part = 0;
    Tally::reserve(alloc, &mut part, &())?;
    Tally::apply(&mut part, &(), 9);
    Ok(part)
}

#[test]
fn a_number_is_written(rt: HostRuntime) -> Result<(), Fail> {
    let part = applied(rt.alloc())?;
    assert!(rt; part == 9);
    Ok(())
}

/// The modes in which an entry holds stripes 5 and 6, at the start.
fn modes(alloc: Global) -> Result<(LockMode, LockMode), AllocError> {
    let modes = Tally::footprint(alloc, &[0; 64], &other_entry(), 9)?;
    Ok((modes[5], modes[6]))
}

#[test]
fn a_tally_reads_one_stripe_and_writes_one(rt: HostRuntime) -> Result<(), Fail> {
    let found = modes(rt.alloc())?;
    assert!(rt; found == (LockMode::Shared, LockMode::Exclusive));
    Ok(())
}

/// What the entry answers as number 9, and its part after it.
fn played(alloc: Global) -> Result<(u64, u64), AllocError> {
    let mut parts = [0; 64];
    let reply = Tally::play(alloc, &mut parts, &other_entry(), 9)?;
    Ok((reply, parts[6]))
}

#[test]
fn a_tally_plays_an_entry(rt: HostRuntime) -> Result<(), Fail> {
    let found = played(rt.alloc())?;
    assert!(rt; found == (0, 9));
    Ok(())
}
