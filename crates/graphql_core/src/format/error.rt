//! Why formatting fails.
use std::alloc::AllocError;
use thiserror::Error;

/// Why formatting fails.
#[derive(Debug, PartialEq, Drop, Error)]
pub enum FormatError {
    /// The levels that are open at once take more than `u32::MAX` spaces of indentation, even if no line is at the
    /// deepest level.
    #[error("format error: indentation too wide")]
    TooWide,
    /// An allocation failed.
    #[error("format error: out of memory")]
    OutOfMemory,
}

impl From<AllocError> for FormatError {
    ghost use Rattle.std.specs.Prelude.{◌≡◌};
    ghost use Rattle.graphql_core.specs.declared.format.error.FormatError.TheVariants.{OutOfMemory};

    ghost from_gives = { λ _ e. e ≡ OutOfMemory };

    fn from(_e: AllocError) -> FormatError {
        FormatError::OutOfMemory
    }
}
