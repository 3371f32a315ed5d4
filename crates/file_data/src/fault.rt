use thiserror::Error;

/// Why a piece can't be staged, or a flush isn't allowed.
#[derive(Clone, Copy, Debug, PartialEq, Eq, Error)]
pub enum DataFault {
    /// The position is below the length of the file.
    #[error("The position is below the length of the file.")]
    BelowLength,
    /// No staged piece has the byte at this position, and the flush goes above it.
    #[error("No bytes were appended at {0}.")]
    Gap(u64),
    /// The staged piece that starts at this position starts below the end of what is before it.
    #[error("The bytes that were appended at {0} overlap others.")]
    Overlap(u64),
    /// The last staged piece below the position of the flush ends above that position.
    #[error("The position is inside of appended bytes.")]
    WrongPosition,
    /// The piece would end above the most bytes that a file may have.
    #[error("The file would be too large.")]
    TooLarge,
}
