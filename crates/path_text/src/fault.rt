ghost use Rattle.std.specs.Prelude.{◌≡◌};
ghost use Rattle.path_text.specs.declared.fault.TargetStop.TheVariants.{NoMemory};

use std::alloc::AllocError;
use thiserror::Error;

/// Why a text names no path. A place in a text is counted in bytes from its leading `/` at 0, a place of a part from 0 with the
/// filesystem.
#[derive(Clone, Copy, Debug, PartialEq, Eq, Error)]
pub enum PathFault {
    /// A `%` that two hex digits don't follow, at its place in the target.
    #[error("There is a bad escape at byte {0}.")]
    BadEscape(usize),
    /// The decoded text is UTF-8 up to this place and no further.
    #[error("The text is not UTF-8 from byte {0} on.")]
    NotUtf8(usize),
    /// The part at this place is empty; 0 also where the text doesn't begin with `/`.
    #[error("Part {0} is empty.")]
    EmptyName(usize),
    /// The part at this place is `.` or `..`.
    #[error("Part {0} is a dot name.")]
    DotName(usize),
    /// The part at this place has over 255 bytes.
    #[error("Part {0} is too long.")]
    NameTooLong(usize),
    /// The path has over 1,024 bytes without its leading `/` and one `/` at its end.
    #[error("The path is too long.")]
    PathTooLong,
    /// The path has over 60 parts, the filesystem counted.
    #[error("The path is too deep.")]
    TooDeep,
    /// A byte below 32, or 127, at its place in the decoded text.
    #[error("There is a control byte at byte {0}.")]
    ControlByte(usize),
    /// The first part names no filesystem.
    #[error("The first part names no filesystem.")]
    BadFsName,
}

/// Why a target isn't read.
#[derive(Clone, Copy, Debug, PartialEq, Eq, Error)]
pub enum TargetStop {
    /// The text of the path has a fault.
    #[error("{0}")]
    Fault(PathFault),
    /// The path is readable, and an escape of the query is bad.
    #[error("There is a bad escape in the query.")]
    BadQuery,
    /// There was no memory.
    #[error("There was no memory.")]
    NoMemory,
}

impl From<AllocError> for TargetStop {
    ghost from_gives = { λ _ stop. stop ≡ NoMemory };

    fn from(_error: AllocError) -> TargetStop {
        TargetStop::NoMemory
    }
}
