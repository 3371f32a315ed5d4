ghost use Rattle.std.specs.Prelude.{◌≡◌, ◌+◌, ◌-◌, ◌≤◌, ◌<◌, ◌↔◌, [], ◌∷◌, ◌++◌, length, slice_get, OnOk, IsErrOf, if◌then◌else◌, ◌==◌, None};
ghost use Rattle.std.specs.Option.{option_copied};
ghost use Rattle.commit_journal.specs.Journal.{bodies_of, IsFull, IsFullFor, HasRoom, IsWithin};

use super::limits::{Full, JOURNAL_MOST, Limits};
use lock_core::Bodied;
use std::alloc::Global;
use std::marker::Model;
use thiserror::Error;

/// Why a journal could not make room.
#[derive(Clone, Copy, Debug, PartialEq, Eq, Error)]
pub enum ReserveStop {
    /// A limit stands against one more entry.
    #[error(transparent)]
    Full(Full),
    /// Memory is wanting.
    #[error("out of memory")]
    NoMemory,
}

/// The journal: the entries in the order in which they took effect. A contract sees the list of them, the limits, and the
/// room that was made for further ones.
#[derive(Drop)]
pub struct Journal<E: Bodied> {
    entries: Vec<E>,
    body_bytes: u64,
    limits: Limits,
}

impl<E: Bodied> Model for Journal<E> {
    ghost use Rattle.std.specs.Prelude.{◌-◌, vec_len, vec_capacity};
    ghost use Rattle.commit_journal.specs.Journal.{JournalView, KeepsLimits};

    ghost Value = { JournalView E };

    ghost view = { λ j. record { entries = j.entries.items; limits = j.limits; spare = vec_capacity j.entries - vec_len j.entries } };

    ghost invariant = { λ j. KeepsLimits E.body j.entries.items j.limits j.body_bytes };
}

impl<E: Bodied> Journal<E> {
    /// An empty journal with these limits. It takes no memory.
    pub fn new(alloc: Global, limits: &Limits) -> Journal<E>
        ensures entries { result.entries ≡ [] }
        ensures limits { result.limits ≡ limits.now }
    {
        Journal {
            entries: Vec::new(alloc),
            body_bytes: 0,
            limits: *limits,
        }
    }

    /// Makes room for one more entry whose body has `body` bytes. Full comes first and takes no memory: `JournalFull`
    /// exactly where the journal has `journal_max` entries, else `JournalBytesFull` exactly where the retained bodies and
    /// this one would pass `bytes_max`.
    pub fn reserve(&mut self, body: u64) -> Result<(), ReserveStop>
        ensures ok { OnOk result (HasRoom E.body self.new body) }
        ensures full { IsErrOf result (ReserveStop.Full Full.JournalFull) ↔ IsFull self.old }
        ensures bytes_full { IsErrOf result (ReserveStop.Full Full.JournalBytesFull) ↔ IsFullFor E.body self.old body }
        ensures entries { self.new.entries ≡ self.old.entries }
        ensures limits { self.new.limits ≡ self.old.limits }
        ensures spare { self.old.spare ≤ self.new.spare }
        ensures within { IsWithin E.body self.new }
    {
        if self.len() == self.limits.journal_max() {
            return Err(ReserveStop::Full(Full::JournalFull));
        }
        if body > self.limits.bytes_max() - self.body_bytes {
            return Err(ReserveStop::Full(Full::JournalBytesFull));
        }
        match self.entries.reserve(1) {
            Ok(()) => Ok(()),
            Err(_) => Err(ReserveStop::NoMemory),
        }
    }

    /// Adds an entry, for which there is room since a `reserve` of its body, and answers its number, the new length.
    pub fn push(&mut self, entry: E) -> u64
        requires { HasRoom E.body self.old (E.body entry) }
        ensures entries { self.new.entries ≡ self.old.entries ++ entry ∷ [] }
        ensures limits { self.new.limits ≡ self.old.limits }
        ensures number { result ≡ length self.new.entries }
        ensures within { IsWithin E.body self.new }
    {
        let body = entry.body_len();
        match self.entries.push(entry) {
            Ok(()) => {}
            Err(_) => unreachable!(),
        }
        self.body_bytes += body;
        self.entries.len() as u64
    }

    /// How many entries there are.
    pub fn len(&self) -> u64
        ensures value { result ≡ length self.now.entries }
        ensures few { result ≤ self.now.limits.journal_max }
        ensures small { result ≤ JOURNAL_MOST }
    {
        let _most = self.limits.journal_max();
        self.entries.len() as u64
    }

    /// Whether there is no entry.
    pub fn is_empty(&self) -> bool
        ensures { result ≡ (length self.now.entries == 0) }
    {
        self.entries.is_empty()
    }

    /// The entry with the number `k`, which counts from 1: `None` exactly where `k` is 0 or above the length.
    pub fn get(&self, k: u64) -> Option<&E>
        ensures { option_copied result ≡ (if k == 0 then None else slice_get self.now.entries (k - 1)) }
    {
        if k == 0 {
            return None;
        }
        self.entries.get((k - 1) as usize)
    }

    /// The bytes of all retained bodies.
    pub fn body_bytes(&self) -> u64
        ensures value { result ≡ bodies_of E.body self.now.entries }
        ensures light { result ≤ self.now.limits.bytes_max }
    {
        self.body_bytes
    }

    /// The limits that it was made with.
    pub fn limits(&self) -> &Limits
        ensures { result.now ≡ self.now.limits }
    {
        &self.limits
    }
}
