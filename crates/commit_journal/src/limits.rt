ghost use Rattle.std.specs.Prelude.{◌≡◌, ◌≤◌};
ghost use Rattle.commit_journal.specs.Limits.{limits_of, are_within, AreWithin};

use std::marker::Model;
use thiserror::Error;

/// The most passes that a service has.
pub const PASSES_MOST: u32 = 64;

/// The most entries that a journal has.
pub const JOURNAL_MOST: u64 = 4_194_304;

/// The most bytes of request bodies that a journal retains.
pub const BYTES_MOST: u64 = 2_147_483_648;

/// The most requests that one connection sends.
pub const REQUESTS_MOST: u64 = 1_048_576;

/// The limits that a service is started with. A contract sees the four numbers.
#[derive(Clone, Copy, Debug)]
pub struct Limits {
    passes: u32,
    journal_max: u64,
    bytes_max: u64,
    requests_max: u64,
}

impl Model for Limits {
    ghost use Rattle.commit_journal.specs.Limits.{LimitNumbers, AreWithin};

    ghost Value = { LimitNumbers };

    ghost view = { λ l. record { passes = l.passes; journal_max = l.journal_max; bytes_max = l.bytes_max; requests_max = l.requests_max } };

    ghost invariant = { λ l. AreWithin (record { passes = l.passes; journal_max = l.journal_max; bytes_max = l.bytes_max; requests_max = l.requests_max }) };

    ghost inverse = { λ n. record { passes = n.passes; journal_max = n.journal_max; bytes_max = n.bytes_max; requests_max = n.requests_max } };
}

impl Limits {
    /// Limits of these numbers: `passes` from 1 to 64, `journal_max` entries from 1 to 4,194,304, `bytes_max` bytes of retained bodies up to
    /// 2,147,483,648, and `requests_max` requests of a connection from 1 to 1,048,576. `None` comes exactly where a number is outside.
    pub fn new(passes: u32, journal_max: u64, bytes_max: u64, requests_max: u64) -> Option<Limits>
        ensures { result ≡ limits_of (record { passes = passes; journal_max = journal_max; bytes_max = bytes_max; requests_max = requests_max }) }
    {
        if !are_within(passes, journal_max, bytes_max, requests_max) {
            return None;
        }
        Some(Limits {
            passes,
            journal_max,
            bytes_max,
            requests_max,
        })
    }

    /// How many passes there are.
    pub fn passes(&self) -> u32
        ensures value { result ≡ self.now.passes }
        ensures within { AreWithin self.now }
    {
        self.passes
    }

    /// How many entries the journal has at most.
    pub fn journal_max(&self) -> u64
        ensures value { result ≡ self.now.journal_max }
        ensures within { AreWithin self.now }
    {
        self.journal_max
    }

    /// How many bytes of bodies the journal retains at most.
    pub fn bytes_max(&self) -> u64
        ensures value { result ≡ self.now.bytes_max }
        ensures within { AreWithin self.now }
    {
        self.bytes_max
    }

    /// How many requests of one connection are answered at most.
    pub fn requests_max(&self) -> u64
        ensures value { result ≡ self.now.requests_max }
        ensures within { AreWithin self.now }
    {
        self.requests_max
    }
}

fn are_within(passes: u32, journal_max: u64, bytes_max: u64, requests_max: u64) -> bool
    ensures { result ≡ are_within (record { passes = passes; journal_max = journal_max; bytes_max = bytes_max; requests_max = requests_max }) }
{
    1 <= passes
        && passes <= PASSES_MOST
        && 1 <= journal_max
        && journal_max <= JOURNAL_MOST
        && bytes_max <= BYTES_MOST
        && 1 <= requests_max
        && requests_max <= REQUESTS_MOST
}

/// Why a journal takes no further entry.
#[derive(Clone, Copy, Debug, PartialEq, Eq, Error)]
pub enum Full {
    /// It has as many entries as its limits allow.
    #[error("the journal has no room for another entry")]
    JournalFull,
    /// It has room for an entry, but with this body it would retain more bytes than its limits allow.
    #[error("the journal has no room for the body")]
    JournalBytesFull,
}
