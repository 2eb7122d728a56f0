//! The errors of a run, and the exit status.
ghost use Rattle.std.specs.Prelude.{◌≡◌, option_map};
ghost use Rattle.gql.specs.{ends_its_line, status_of};

use graphql_parser::query::{self, MinifyError};
use graphql_parser::{FormatError, schema};
use std::alloc::AllocError;
use thiserror::Error;

/// Why a run ends early.
#[derive(Debug, Drop, Error)]
pub enum RunError {
    /// A read returned an error. Nothing was written.
    #[error("gql: read failed")]
    Read,
    /// The input is not UTF-8. Nothing was written.
    #[error("gql: input is not UTF-8")]
    NotUtf8,
    /// `parse_query` or `consume_definition` returned this error. Nothing was written.
    #[error("{0}")]
    Query(query::ParseError),
    /// `parse_schema` returned this error. Nothing was written.
    #[error("{0}")]
    Schema(schema::ParseError),
    /// `minify_query` returned this error. Nothing was written.
    #[error("{0}")]
    Minify(MinifyError),
    /// Formatting returned this error. Nothing was written.
    #[error("{0}")]
    Format(FormatError),
    /// A write or the last flush failed, or a write took 0 bytes. A prefix of the output was written.
    #[error("gql: write failed")]
    Write,
    /// An allocation of the engine itself failed. Nothing was written.
    #[error("gql: out of memory")]
    OutOfMemory,
}

impl RunError {
    /// Whether the message ends with a line feed.
    pub fn ends_its_line(&self) -> bool
        ensures { result ≡ ends_its_line self.now }
    {
        match self {
            RunError::Query(error) => error.position().is_some(),
            RunError::Schema(error) => error.position().is_some(),
            _ => false,
        }
    }
}

impl From<AllocError> for RunError {
    ghost use Rattle.std.specs.Prelude.{◌≡◌};
    ghost use Rattle.gql.specs.declared.error.RunError.TheVariants.{OutOfMemory};

    ghost from_gives = { λ _ e. e ≡ OutOfMemory };

    fn from(_e: AllocError) -> RunError {
        RunError::OutOfMemory
    }
}

/// The exit status:
/// - 0: all output was written.
/// - 1: parsing, minifying or formatting returned an error.
/// - 2: a device failed, the input is not UTF-8, or an allocation of the engine failed.
/// - 2 for `None`: the arguments are invalid.
pub fn status(returned: Option<&Result<(), RunError>>) -> u8
    ensures { result ≡ status_of (option_map (λ r. r.now) returned.entry) }
{
    match returned {
        Some(Ok(())) => 0,
        Some(
            Err(
                RunError::Query(_)
                | RunError::Schema(_)
                | RunError::Minify(_)
                | RunError::Format(_),
            ),
        ) => 1,
        Some(Err(_)) | None => 2,
    }
}
