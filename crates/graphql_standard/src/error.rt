//! Errors of checking a source.
ghost use Rattle.std.specs.Prelude.{◌≡◌};
ghost use Rattle.graphql_standard.specs.Checking.{place_of};

use crate::expected::ExpectedSet;
use crate::place::Place;
use crate::terminal::Terminal;
use std::alloc::AllocError;
use std::fmt;
use thiserror::Error;

/// What the input has at its first error.
#[derive(Clone, Copy, Debug, PartialEq, Eq)]
pub enum Found {
    /// A token of this terminal, with which no document continues.
    Token(Terminal),
    /// The end of the input, where the tokens are not a document.
    EndOfInput,
    /// Characters that begin no token and no ignored text (section 2.1).
    LexicalError,
}

/// The first error of an input.
#[derive(Clone, Copy, Debug, PartialEq, Eq)]
pub struct SyntaxError {
    /// Where the error begins.
    pub place: Place,
    /// The length of the error in bytes: that of the token, 0 at the end of the input, or that of one character at a
    /// lexical error.
    pub len: usize,
    /// What is at the place.
    pub found: Found,
    /// What can come there.
    pub expected: ExpectedSet,
}

/// Why an input is not accepted.
#[derive(Clone, Copy, Debug, PartialEq, Eq, Error)]
pub enum CheckError {
    /// The input is not a document, and this is its first error.
    #[error("syntax error at {0}")]
    Syntax(SyntaxError),
    /// At this place a bracket opens while as many are open as the limit allows.
    #[error("too many open brackets at {0}")]
    TooDeep(Place),
    /// The input has more than `MAX_LENGTH` bytes.
    #[error("text too long")]
    TooLong,
    /// An allocation failed.
    #[error("out of memory")]
    OutOfMemory,
}

impl From<AllocError> for CheckError {
    ghost use Rattle.std.specs.Prelude.{◌≡◌};
    ghost use Rattle.graphql_standard.specs.declared.error.CheckError.TheVariants.{OutOfMemory};

    ghost from_gives = { λ _ e. e ≡ OutOfMemory };

    fn from(_error: AllocError) -> CheckError {
        CheckError::OutOfMemory
    }
}

impl fmt::Display for SyntaxError {
    /// Writes the place of the error.
    fn fmt<W: fmt::Write>(&self, f: &mut fmt::Formatter<W>) -> fmt::Result {
        self.place.fmt(f)
    }
}

impl CheckError {
    /// Returns the place of the error in the input. `None` for `TooLong` and `OutOfMemory`.
    pub fn place(&self) -> Option<Place>
        ensures { result ≡ place_of self.now }
    {
        match self {
            CheckError::Syntax(error) => Some(error.place),
            CheckError::TooDeep(place) => Some(*place),
            CheckError::TooLong | CheckError::OutOfMemory => None,
        }
    }
}
