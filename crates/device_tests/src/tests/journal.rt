// The journal and its limits.
ghost use Rattle.std.specs.Prelude.{◌≡◌};

use commit_journal::{Full, Journal, Limits, ReserveStop};
use lock_core::Bodied;
use std::test::Fail;

/// An entry that is nothing but a body of so many bytes.
#[derive(Clone, Copy, Debug, PartialEq, Eq)]
struct Weight {
    bytes: u64,
}

impl Bodied for Weight {
    ghost body = { λ w. w.bytes };

    ghost uses = { λ _. 0 };

    fn body_len(&self) -> u64 {
        self.bytes
    }

    fn uses_len(&self) -> u8 {
        0
    }
}

#[test]
fn limits_end_where_they_say(rt: HostRuntime) -> Result<(), Fail> {
    for (passes, journal_max, bytes_max, requests_max, are) in [
        (1, 1, 0, 1, true),
        (64, 4_194_304, 2_147_483_648, 1_048_576, true),
        (0, 1, 0, 1, false),
        (65, 1, 0, 1, false),
        (1, 0, 0, 1, false),
        (1, 4_194_305, 0, 1, false),
        (1, 1, 2_147_483_649, 1, false),
        (1, 1, 0, 0, false),
        (1, 1, 0, 1_048_577, false),
    ] {
        let limits = Limits::new(passes, journal_max, bytes_max, requests_max);
        assert_eq!(rt;
            limits.is_some(),
            are,
            "{passes} {journal_max} {bytes_max} {requests_max}"
        );
    }
    let limits = Limits::new(2, 3, 4, 5).ok_or("no limits")?;
    assert_eq!(rt; (limits.passes(), limits.journal_max()), (2, 3));
    assert_eq!(rt; (limits.bytes_max(), limits.requests_max()), (4, 5));
    Ok(())
}

#[test]
fn entries_come_back_by_their_numbers(rt: HostRuntime) -> Result<(), Fail> {
    let limits = Limits::new(1, 9, 100, 1).ok_or("no limits")?;
    let mut journal = Journal::new(rt.alloc(), &limits);
    assert!(rt; journal.is_empty());
    journal.reserve(4)?;
    assert_eq!(rt; journal.push(Weight { bytes: 4 }), 1);
    journal.reserve(6)?;
    assert_eq!(rt; journal.push(Weight { bytes: 6 }), 2);
    assert!(rt; !journal.is_empty());
    assert_eq!(rt; (journal.len(), journal.body_bytes()), (2, 10));
    assert_eq!(rt; journal.get(0), None);
    assert_eq!(rt; journal.get(1), Some(&Weight { bytes: 4 }));
    assert_eq!(rt; journal.get(2), Some(&Weight { bytes: 6 }));
    assert_eq!(rt; journal.get(3), None);
    assert_eq!(rt; journal.limits().journal_max(), 9);
    Ok(())
}

#[test]
fn a_journal_is_full_by_its_entries(rt: HostRuntime) -> Result<(), Fail> {
    let limits = Limits::new(1, 2, 10, 1).ok_or("no limits")?;
    let mut journal = Journal::new(rt.alloc(), &limits);
    journal.reserve(5)?;
    journal.push(Weight { bytes: 5 });
    journal.reserve(5)?;
    journal.push(Weight { bytes: 5 });
    for body in [0, 1] {
        let stop = journal.reserve(body);
        assert_eq!(rt; stop, Err(ReserveStop::Full(Full::JournalFull)), "{body}");
    }
    assert_eq!(rt; journal.len(), 2);
    Ok(())
}

#[test]
fn a_journal_is_full_by_its_bodies(rt: HostRuntime) -> Result<(), Fail> {
    let limits = Limits::new(1, 9, 10, 1).ok_or("no limits")?;
    let mut journal = Journal::new(rt.alloc(), &limits);
    journal.reserve(4)?;
    journal.push(Weight { bytes: 4 });
    assert_eq!(rt;
        journal.reserve(7),
        Err(ReserveStop::Full(Full::JournalBytesFull))
    );
    journal.reserve(6)?;
    journal.push(Weight { bytes: 6 });
    assert_eq!(rt;
        journal.reserve(1),
        Err(ReserveStop::Full(Full::JournalBytesFull))
    );
    assert_eq!(rt; journal.reserve(0), Ok(()));
    assert_eq!(rt; (journal.len(), journal.body_bytes()), (2, 10));
    Ok(())
}
