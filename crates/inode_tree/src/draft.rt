ghost use Rattle.inode_tree.specs.declared.draft.EvalStop.TheVariants.{NoMemory};
ghost use Rattle.std.specs.Prelude.{◌≡◌};

use super::change::Change;
use super::id::NodeId;
use super::need::{GetStop, Need};
use namespace_model::Reply;
use std::alloc::{AllocError, AllocFailed};

/// What the evaluator of an operation works out before anything is changed. `specs/Promises.antt` says what it promises.
#[derive(Drop)]
pub struct Draft {
    /// The reply, in which the number that the entry will have is left open.
    pub reply: Reply,
    /// The nodes that were read, in any order. One may stand twice.
    pub reads: Vec<NodeId>,
    /// The nodes that are to be written, new ones too, in any order. One may stand twice.
    pub writes: Vec<NodeId>,
    /// What becomes of them, in this order.
    pub changes: Vec<Change>,
    /// How many ids of the pass the new nodes take.
    pub drawn: u32,
}

/// Why there is no draft.
#[derive(Debug, Drop)]
pub enum EvalStop {
    /// A stripe isn't held so, in which a node lies that the request reads or writes.
    Need(Need),
    /// There was no memory left.
    NoMemory,
}

impl From<AllocError> for EvalStop {
    ghost from_gives = { λ _ e. e ≡ NoMemory };

    fn from(_error: AllocError) -> EvalStop {
        EvalStop::NoMemory
    }
}

impl<T: Drop> From<AllocFailed<T>> for EvalStop {
    ghost from_gives = { λ _ e. e ≡ NoMemory };

    fn from(_failed: AllocFailed<T>) -> EvalStop {
        EvalStop::NoMemory
    }
}

impl From<GetStop> for EvalStop {
    ghost use Rattle.inode_tree.specs.Stops.{stop_of_get};

    ghost from_gives = { λ stop e. e ≡ stop_of_get stop };

    fn from(stop: GetStop) -> EvalStop {
        match stop {
            GetStop::Need(need) => EvalStop::Need(need),
            GetStop::NoMemory => EvalStop::NoMemory,
        }
    }
}
