//! Refusals: a full journal, full bodies, and a keeper that fails.
use super::calls::{Call, Stop};
use super::team::Team;
use commit_journal::{Full, KeepStop, Keeper, NoKeep};
use inode_tree::Placed;
use std::sync::Wait;
use std::test::Fail;
use striped_store::CommitRefusal;

const JOURNAL_FULL: Stop = Stop::Refused(CommitRefusal::Full(Full::JournalFull));

const BYTES_FULL: Stop = Stop::Refused(CommitRefusal::Full(Full::JournalBytesFull));

/// The status of the reply to a call by the pass of this number.
fn status<R: Wait, K: Keeper<Placed>>(
    rt: &R,
    team: &mut Team<K>,
    by: usize,
    call: Call,
) -> Result<u16, Stop> {
    Ok(team.ask(rt, by, &call)?.status)
}

// The other pass finds that the first holds nothing: it is refused for the same reason, and does not wait.
#[test]
fn a_full_journal_refuses(rt: HostRuntime) -> Result<(), Fail> {
    let mut team = Team::open(rt.alloc(), 2, 1, 0, NoKeep)?;
    let data = Call::new(0, b"PUT /data?resource=filesystem");
    let more = Call::new(0, b"PUT /more?resource=filesystem");
    assert_eq!(rt; status(&rt, &mut team, 0, data), Ok(201));
    assert_eq!(rt; status(&rt, &mut team, 0, more), Err(JOURNAL_FULL));
    assert_eq!(rt; status(&rt, &mut team, 1, more), Err(JOURNAL_FULL));
    assert_eq!(rt; status(&rt, &mut team, 0, more), Err(JOURNAL_FULL));
    assert_eq!(rt; team.close().journal.len(), 1);
    Ok(())
}

// Five bytes are one too many; the pass can then append four.
#[test]
fn full_bodies_refuse(rt: HostRuntime) -> Result<(), Fail> {
    let mut team = Team::open(rt.alloc(), 1, 9, 4, NoKeep)?;
    let data = Call::new(0, b"PUT /data?resource=filesystem");
    let file = Call::new(0, b"PUT /data/f?resource=file");
    let line = b"PATCH /data/f?action=append&position=0";
    let five = Call {
        conn: 0,
        line,
        rest: b"Content-Length: 5\r\n\r\nhello",
    };
    let four = Call {
        conn: 0,
        line,
        rest: b"Content-Length: 4\r\n\r\nhell",
    };
    assert_eq!(rt; status(&rt, &mut team, 0, data), Ok(201));
    assert_eq!(rt; status(&rt, &mut team, 0, file), Ok(201));
    assert_eq!(rt; status(&rt, &mut team, 0, five), Err(BYTES_FULL));
    assert_eq!(rt; status(&rt, &mut team, 0, four), Ok(202));
    let closing = team.close();
    assert_eq!(rt;
        (closing.journal.len(), closing.journal.body_bytes()),
        (3, 4)
    );
    Ok(())
}

/// A keeper whose device always fails.
#[derive(Drop)]
pub struct FailingKeep {
    faults: u64,
}

impl Keeper<Placed> for FailingKeep {
    ghost use Rattle.std.specs.Prelude.{None};

    ghost tells = { λ k. record { kept = None; faults = k.faults } };

    fn keep(&mut self, _entry: &Placed) -> Result<(), KeepStop> {
        self.faults = self.faults.saturating_add(1);
        Err(KeepStop::Failed)
    }
}

#[test]
fn a_failing_keeper_refuses(rt: HostRuntime) -> Result<(), Fail> {
    let mut team = Team::open(rt.alloc(), 2, 9, 0, FailingKeep { faults: 0 })?;
    let data = Call::new(0, b"PUT /data?resource=filesystem");
    let refused = Err(Stop::Refused(CommitRefusal::Tape));
    assert_eq!(rt; status(&rt, &mut team, 0, data), refused);
    assert_eq!(rt; status(&rt, &mut team, 1, data), refused);
    assert_eq!(rt; status(&rt, &mut team, 0, data), refused);
    let closing = team.close();
    assert_eq!(rt; (closing.journal.len(), closing.keeper.faults), (0, 3));
    Ok(())
}
