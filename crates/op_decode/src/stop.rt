ghost use Rattle.std.specs.Prelude.{◌≡◌};
ghost use Rattle.op_decode.specs.declared.stop.Stop.TheVariants as stop;

use namespace_model::Code;
use std::alloc::{AllocError, AllocFailed};

/// Why a part of a request is not read.
#[derive(Clone, Copy)]
pub enum Stop {
    /// The request is refused with this code.
    Refused(Code),
    /// There was no memory.
    NoMemory,
}

impl From<Code> for Stop {
    ghost from_gives = { λ code given. given ≡ stop.Refused code };

    fn from(code: Code) -> Stop {
        Stop::Refused(code)
    }
}

impl From<AllocError> for Stop {
    ghost from_gives = { λ _ given. given ≡ stop.NoMemory };

    fn from(_error: AllocError) -> Stop {
        Stop::NoMemory
    }
}

impl<T: Drop> From<AllocFailed<T>> for Stop {
    ghost from_gives = { λ _ given. given ≡ stop.NoMemory };

    fn from(_failed: AllocFailed<T>) -> Stop {
        Stop::NoMemory
    }
}
