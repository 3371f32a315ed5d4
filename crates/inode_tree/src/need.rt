ghost use Rattle.inode_tree.specs.declared.need.GetStop.TheVariants.{NoMemory};
ghost use Rattle.std.specs.Prelude.{◌≡◌};

use lock_core::LockMode;
use std::alloc::AllocError;

/// A stripe that would have to be held, and how.
#[derive(Clone, Copy, Debug, PartialEq, Eq)]
pub struct Need {
    /// Below 64.
    pub stripe: u8,
    /// Never `None`.
    pub mode: LockMode,
}

/// Why a look at a node gave nothing.
#[derive(Debug, Drop)]
pub enum GetStop {
    /// Its stripe isn't held so.
    Need(Need),
    /// There was no memory left.
    NoMemory,
}

impl From<AllocError> for GetStop {
    ghost from_gives = { λ _ e. e ≡ NoMemory };

    fn from(_error: AllocError) -> GetStop {
        GetStop::NoMemory
    }
}
