//! What a closed service leaves behind.
use super::calls::{Call, Stop};
use super::team::Team;
use commit_journal::{Journal, NoKeep};
use inode_tree::Placed;
use std::sync::Wait;
use std::test::Fail;

/// Two passes make entries by turns, each for a connection of its own.
fn asked<R: Wait>(rt: &R, team: &mut Team<NoKeep>) -> Result<(), Stop> {
    team.ask(rt, 0, &Call::new(7, b"PUT /data?resource=filesystem"))?;
    team.ask(rt, 1, &Call::new(8, b"PUT /data/a?resource=directory"))?;
    team.ask(rt, 0, &Call::new(7, b"PUT /data/f?resource=file"))?;
    team.ask(rt, 1, &Call::new(8, b"GET /data/f"))?;
    team.ask(rt, 0, &Call::new(7, b"DELETE /data/a"))?;
    Ok(())
}

/// The connection and the pass of an entry, counted from 1.
fn maker(journal: &Journal<Placed>, number: u64) -> Option<(u32, u32)> {
    match journal.get(number) {
        Some(placed) => Some((placed.entry.conn, placed.pass)),
        None => None,
    }
}

#[test]
fn a_closed_service_has_the_entries_of_both_passes(rt: HostRuntime) -> Result<(), Fail> {
    let mut team = Team::open(rt.alloc(), 2, 9, 0, NoKeep)?;
    asked(&rt, &mut team)?;
    let closing = team.close();
    assert_eq!(rt; (closing.journal.len(), closing.parts.len()), (5, 64));
    for (number, wanted) in [
        (1, Some((7, 0))),
        (2, Some((8, 1))),
        (3, Some((7, 0))),
        (4, Some((8, 1))),
        (5, Some((7, 0))),
        (6, None),
    ] {
        assert_eq!(rt; maker(&closing.journal, number), wanted, "entry {number}");
    }
    Ok(())
}
