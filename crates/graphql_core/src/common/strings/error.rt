//! Why the value of a string is not returned.
use std::alloc::AllocError;
use thiserror::Error;

/// Why the value of a string is not returned.
#[derive(Debug, PartialEq, Drop, Error)]
pub enum UnquoteError {
    /// An escape that denotes no character (GraphQL, October 2021, section 2.9.4).
    #[error("bad escape in string")]
    BadEscape,
    /// An allocation failed.
    #[error("out of memory")]
    OutOfMemory,
}

impl From<AllocError> for UnquoteError {
    ghost use Rattle.std.specs.Prelude.{◌≡◌};
    ghost use Rattle.graphql_core.specs.declared.common.strings.error.UnquoteError.TheVariants.{OutOfMemory};

    ghost from_gives = { λ _ e. e ≡ OutOfMemory };

    fn from(_e: AllocError) -> UnquoteError {
        UnquoteError::OutOfMemory
    }
}
