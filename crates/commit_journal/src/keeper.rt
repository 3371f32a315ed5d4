//! Keepers of entries.
ghost use Rattle.std.specs.Prelude.{◌≡◌, ◌≤◌, None, IsErrOf, MatchResult};
ghost use Rattle.commit_journal.specs.Keeper.{Told, Rose, kept_with};

use thiserror::Error;

/// Why an entry was not kept.
#[derive(Clone, Copy, Debug, PartialEq, Eq, Error)]
pub enum KeepStop {
    /// The keeper's device failed.
    #[error("the keeper failed")]
    Failed,
    /// Memory is wanting.
    #[error("out of memory")]
    NoMemory,
}

/// What keeps the entries of a journal beyond the memory of the program.
pub trait Keeper<E>: Drop {
    // What it has kept, where it tells, and how often its device failed.
    ghost tells: { Self → Told E };

    /// Keeps one entry more. `Failed` comes only where the count of faults rose.
    fn keep(&mut self, entry: &E) -> Result<(), KeepStop>
        ensures kept { MatchResult result
            (λ _. (tells self.new).kept ≡ kept_with entry.now (tells self.old).kept)
            (λ _. (tells self.new).kept ≡ (tells self.old).kept) }
        ensures failed { IsErrOf result KeepStop.Failed → Rose (tells self.old) (tells self.new) }
        ensures faults { (tells self.old).faults ≤ (tells self.new).faults };
}

/// The keeper that keeps nothing.
#[derive(Clone, Copy, Debug, PartialEq, Eq)]
pub struct NoKeep;

impl<E> Keeper<E> for NoKeep {
    ghost tells = { λ _. record { kept = None; faults = 0 } };

    fn keep(&mut self, _entry: &E) -> Result<(), KeepStop> {
        Ok(())
    }
}
