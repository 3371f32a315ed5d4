//! Two passes at a time.
use super::calls::{Call, Stop, Told};
use super::clocks::{Awaited, Marks, Meeting, MeetingClock, TURNS_MOST, run_together};
use super::sides::{Done, Side, both_play};
use super::team::Team;
use commit_journal::NoKeep;
use std::alloc::Global;
use std::sync::Wait;
use std::test::Fail;
use std::thread::Threads;

/// A service of two passes, in which pass 0 has made `/data`, `/data/c`, `/data/a` and `/data/b`, with the ids 1, 66, 131 and 196,
/// which lie in the stripes 1 to 4; and then also the file `/data/c/f`, with the id 261 in stripe 5, where it is asked for.
fn made<R: Wait>(rt: &R, alloc: Global, with_file: bool) -> Result<Team<NoKeep>, Fail> {
    let mut team = Team::open(alloc, 2, 20, 0, NoKeep)?;
    make(rt, &mut team, b"PUT /data?resource=filesystem")?;
    make(rt, &mut team, b"PUT /data/c?resource=directory")?;
    make(rt, &mut team, b"PUT /data/a?resource=directory")?;
    make(rt, &mut team, b"PUT /data/b?resource=directory")?;
    if with_file {
        make(rt, &mut team, b"PUT /data/c/f?resource=file")?;
    }
    Ok(team)
}

fn make<R: Wait>(rt: &R, team: &mut Team<NoKeep>, line: &'static [u8]) -> Result<(), Fail> {
    let told = team.ask(rt, 0, &Call::new(0, line))?;
    if told.status == 201 {
        Ok(())
    } else {
        Err(Fail::new("nothing was made"))
    }
}

/// How often the clock is asked for a call that the pass of this number makes alone.
fn calls_alone<R: Wait>(
    rt: &R,
    alloc: Global,
    with_file: bool,
    by: usize,
    call: Call,
) -> Result<u32, Fail> {
    let mut team = made(rt, alloc, with_file)?;
    let marks = Marks::new();
    let mut clock = MeetingClock::new(None, &marks, &marks);
    let told = team.ask_by_clock(rt, by, &mut clock, &call)?;
    if told.receipt.rounds == clock.calls {
        Ok(clock.calls)
    } else {
        Err(Fail::new("the receipt has other rounds"))
    }
}

/// What two sides came to: the status and the stripes of each, whether the last wait of each clock met what it waited for, and whether
/// the first wait of the first clock did; and how many entries the closed journal has.
#[derive(Clone, Copy, Debug, PartialEq, Eq)]
struct Outcome {
    first: (u16, u64, u64),
    second: (u16, u64, u64),
    first_met: bool,
    second_met: bool,
    had_begun: bool,
    entries: u64,
}

fn ended(team: Team<NoKeep>, first: Done, second: Done) -> Result<Outcome, Stop> {
    let told_first: Told = first.told?;
    let told_second: Told = second.told?;
    let closing = team.close();
    Ok(Outcome {
        first: told_first.stripes(),
        second: told_second.stripes(),
        first_met: first.came.1,
        second_met: second.came.1,
        had_begun: first.came.0,
        entries: closing.journal.len(),
    })
}

/// Two creates: connection 1 begins when the clock of connection 0 is in its last call, which lasts at most so many turns once
/// connection 1 has begun, or less where connection 1 is answered.
fn two_creates<R: Threads + Wait + Sync>(
    rt: &R,
    alloc: Global,
    second: &'static [u8],
    turns: u32,
) -> Result<Outcome, Fail> {
    let call = Call::new(0, b"PUT /data/a/f?resource=file");
    let at = calls_alone(rt, alloc, false, 0, call)?;
    let team = made(rt, alloc, false)?;
    let meeting = Meeting {
        at,
        begun_turns: if turns < TURNS_MOST { TURNS_MOST } else { 0 },
        last: Awaited::Answered,
        last_turns: turns,
    };
    let side_0 = Side {
        call,
        meeting: Some(meeting),
        follows: false,
    };
    let side_1 = Side {
        call: Call::new(1, second),
        meeting: None,
        follows: true,
    };
    let (team, first, second) = both_play(rt, team, side_0, side_1)?;
    Ok(ended(team, first, second)?)
}

/// Two connections read one file, and the clock of each waits in its last call until that of the other was made.
fn two_reads<R: Threads + Wait + Sync>(rt: &R, alloc: Global) -> Result<Outcome, Fail> {
    let call_0 = Call::new(0, b"GET /data/c/f");
    let call_1 = Call::new(1, b"GET /data/c/f");
    let at_0 = calls_alone(rt, alloc, true, 0, call_0)?;
    let at_1 = calls_alone(rt, alloc, true, 1, call_1)?;
    let team = made(rt, alloc, true)?;
    let side_0 = reader_side(call_0, at_0);
    let side_1 = reader_side(call_1, at_1);
    let (team, first, second) = both_play(rt, team, side_0, side_1)?;
    Ok(ended(team, first, second)?)
}

fn reader_side(call: Call, at: u32) -> Side {
    let meeting = Meeting {
        at,
        begun_turns: 0,
        last: Awaited::Reached,
        last_turns: TURNS_MOST,
    };
    Side {
        call,
        meeting: Some(meeting),
        follows: false,
    }
}

// The account and /data are shared. Connection 0 writes /data/a and a new node of pass 0, which gets the id 261; connection 1 writes
// /data/b and the first new node of pass 1, in stripe 2.
#[test]
fn a_create_in_other_stripes_does_not_wait(rt: HostRuntime) -> Result<(), Fail> {
    let together = run_together(&rt);
    let line = b"PUT /data/b/f?resource=file";
    let found = two_creates(&rt, rt.alloc(), line, TURNS_MOST)?;
    assert_eq!(rt; found.first, (201, 0b11, 0b10_1000));
    assert_eq!(rt; found.second, (201, 0b11, 0b1_0100));
    assert!(rt; found.first_met || !together);
    assert_eq!(rt; found.entries, 6);
    Ok(())
}

// The account, /data, /data/c and /data/c/f are shared.
#[test]
fn two_reads_of_a_file_go_on_at_a_time(rt: HostRuntime) -> Result<(), Fail> {
    let together = run_together(&rt);
    let found = two_reads(&rt, rt.alloc())?;
    assert_eq!(rt; found.first, (200, 0b10_0111, 0));
    assert_eq!(rt; found.second, (200, 0b10_0111, 0));
    assert!(rt; (found.first_met && found.second_met) || !together);
    assert_eq!(rt; found.entries, 7);
    Ok(())
}

// Both write /data/a, in stripe 3.
#[test]
fn a_create_in_the_same_stripe_waits(rt: HostRuntime) -> Result<(), Fail> {
    let together = run_together(&rt);
    let line = b"PUT /data/a/g?resource=file";
    let found = two_creates(&rt, rt.alloc(), line, 1_000_000)?;
    assert_eq!(rt; found.first, (201, 0b11, 0b10_1000));
    assert_eq!(rt; found.second, (201, 0b11, 0b1100));
    assert!(rt; found.had_begun || !together);
    assert!(rt; !found.first_met);
    assert_eq!(rt; found.entries, 6);
    Ok(())
}
