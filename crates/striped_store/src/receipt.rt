//! What a commit answers.
ghost use Rattle.std.specs.Prelude.{◌≡◌, ◌<◌, ℕ, Some, slice_get};
ghost use Rattle.lock_core.specs.declared.object.LockMode.{LockMode};
ghost use Rattle.striped_store.specs.Receipts.{AreBits};

use commit_journal::Full;
use lock_core::LockMode;
use path_locks::Plan;
use thiserror::Error;

/// What a commit tells of itself. Bit s of a number of stripes is stripe s.
#[derive(Clone, Copy, Debug, PartialEq, Eq)]
pub struct Receipt {
    /// The number of the entry in the journal, which counts from 1.
    pub number: u64,
    /// The stripes that were held shared at the commit.
    pub shared: u64,
    /// The stripes that were held exclusively at the commit.
    pub exclusive: u64,
    /// In how many rounds the caller came to hold what the entry needs. It is 0 as the commit answers it; the caller sets it.
    pub rounds: u32,
}

/// Why a commit was refused.
#[derive(Clone, Copy, Debug, PartialEq, Eq, Error)]
pub enum CommitRefusal {
    /// A limit of the journal stands against the entry.
    #[error(transparent)]
    Full(Full),
    /// The journal's keeper failed to keep the entry.
    #[error("the keeper failed")]
    Tape,
    /// Memory is wanting.
    #[error("out of memory")]
    NoMemory,
}

/// The stripes that the plan holds in this mode.
pub(crate) fn stripes_in(plan: &Plan, mode: LockMode) -> u64
    ensures bits { AreBits result (λ k. slice_get plan.now k ≡ Some mode) }
    ensures whole { (k : ℕ) → k < 64 → (m : LockMode) × (slice_get plan.now k ≡ Some m) }
{
    let mut bits = 0u64;
    for stripe in 0..64u8 {
        if plan.mode(stripe) == mode {
            bits |= 1u64 << stripe;
        }
    }
    bits
}
