ghost use Rattle.std.specs.Prelude.{◌≡◌, ◌<◌};

use crate::object::{Bodied, LockMode, Parted, Played};
use std::alloc::{AllocError, Global};

/// Sixty-four numbers, all 0 at the start, for tests of the machine and of what stands on it.
#[derive(Drop)]
pub struct Tally;

/// Reads one number and writes the journal's number into another. Both stripes are below 64.
#[derive(Clone, Copy, Debug, PartialEq, Eq)]
pub struct TallyEntry {
    /// The pass that made the entry.
    pub pass: u32,
    /// The stripe whose number is the reply.
    pub reads: u8,
    /// The stripe whose number becomes the entry's number in the journal.
    pub writes: u8,
    ghost reads_below: { reads < 64 },
    ghost writes_below: { writes < 64 },
}

impl Bodied for TallyEntry {
    ghost body = { λ _. 0 };

    ghost uses = { λ _. 0 };

    fn body_len(&self) -> u64 {
        0
    }

    fn uses_len(&self) -> u8 {
        0
    }
}

impl Parted for Tally {
    ghost use Rattle.std.specs.Prelude.{ℕ};
    ghost use Rattle.lock_core.specs.Tallied.{tally, tally_does, tally_applied};

    type Entry = TallyEntry;

    type Reply = u64;

    type Part = u64;

    type Work = ();

    ghost object = { tally };

    ghost bare = { λ x. x };

    ghost ready = { λ _ _. Unit {0} };

    ghost applied = { tally_applied };

    ghost does = { tally_does };

    fn pass_of(entry: &TallyEntry) -> u32 {
        entry.pass
    }

    fn opening_parts(alloc: Global) -> Result<Vec<u64>, AllocError> {
        Vec::from_elem(alloc, 0u64, 64)
    }

    fn reserve(_alloc: Global, _part: &mut u64, _work: &()) -> Result<(), AllocError> {
        Ok(())
    }

    fn apply(part: &mut u64, _work: &(), number: u64) {
        *part = number;
    }

    ghost use Rattle.lock_core.specs.Tallied.{tally_lawful, tally_works};

    ghost lawful = { tally_lawful };

    ghost works = { tally_works };
}

impl Played for Tally {
    fn footprint(
        _alloc: Global,
        _parts: &[u64],
        entry: &TallyEntry,
        _number: u64,
    ) -> Result<[LockMode; 64], AllocError> {
        let mut modes = [LockMode::None; 64];
        modes[entry.reads as usize] = LockMode::Shared;
        modes[entry.writes as usize] = LockMode::Exclusive;
        Ok(modes)
    }

    fn fitting(
        _alloc: Global,
        _pass: u32,
        _journal: &[TallyEntry],
        _parts: &[u64],
        _entry: &TallyEntry,
    ) -> Result<bool, AllocError> {
        Ok(true)
    }

    fn play(
        _alloc: Global,
        parts: &mut [u64],
        entry: &TallyEntry,
        number: u64,
    ) -> Result<u64, AllocError> {
        let reply = parts[entry.reads as usize];
        parts[entry.writes as usize] = number;
        Ok(reply)
    }
}
