ghost use Rattle.std.specs.Prelude.{◌≡◌};
ghost use Rattle.serving.specs.declared.refusal.SubmitRefusal.TheVariants.{NoMemory};
ghost use Rattle.serving.specs.Answered.{refusal_for};

use commit_journal::{Full, ReserveStop};
use std::alloc::AllocError;
use thiserror::Error;

/// Why a request was not taken. It then has no entry.
#[derive(Clone, Copy, Debug, PartialEq, Eq, Error)]
pub enum SubmitRefusal {
    /// The journal has no room for it.
    #[error(transparent)]
    Full(Full),
    /// There is no memory for it or for its reply.
    #[error("out of memory")]
    NoMemory,
}

impl From<AllocError> for SubmitRefusal {
    ghost from_gives = { λ _ refusal. refusal ≡ NoMemory };

    fn from(_error: AllocError) -> SubmitRefusal {
        SubmitRefusal::NoMemory
    }
}

impl From<ReserveStop> for SubmitRefusal {
    ghost from_gives = { λ stop refusal. refusal ≡ refusal_for stop };

    fn from(stop: ReserveStop) -> SubmitRefusal {
        match stop {
            ReserveStop::Full(full) => SubmitRefusal::Full(full),
            ReserveStop::NoMemory => SubmitRefusal::NoMemory,
        }
    }
}
