ghost use Rattle.std.specs.Prelude.{◌≡◌};
ghost use Rattle.head_text.specs.declared.props_fault.PropsStop.TheVariants.{NoMemory};

use std::alloc::{AllocError, AllocFailed};
use thiserror::Error;

/// Why a text of properties is refused. Items are counted from 0.
#[derive(Clone, Copy, Debug, PartialEq, Eq, Error)]
pub enum PropsFault {
    /// The item at this place is no name, `=` and value.
    #[error("Property {0} is no pair of a name and a value.")]
    BadPair(usize),
    /// The value of the item at this place is no base64 text.
    #[error("The value of property {0} is not base64.")]
    BadBase64(usize),
    /// The name of the item at this place stood before.
    #[error("The name of property {0} stands twice.")]
    Twice(usize),
    /// Over 64 items.
    #[error("There are too many properties.")]
    TooMany,
}

/// Why properties aren't read.
#[derive(Clone, Copy, Debug, PartialEq, Eq, Error)]
pub enum PropsStop {
    /// The text is refused.
    #[error("{0}")]
    Fault(PropsFault),
    /// There was no memory.
    #[error("There was no memory.")]
    NoMemory,
}

impl From<AllocError> for PropsStop {
    ghost from_gives = { λ _ e. e ≡ NoMemory };

    fn from(_error: AllocError) -> PropsStop {
        PropsStop::NoMemory
    }
}

impl<T: Drop> From<AllocFailed<T>> for PropsStop {
    ghost from_gives = { λ _ e. e ≡ NoMemory };

    fn from(_failed: AllocFailed<T>) -> PropsStop {
        PropsStop::NoMemory
    }
}
