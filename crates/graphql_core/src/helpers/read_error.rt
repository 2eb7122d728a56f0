//! The errors of readers.
ghost use Rattle.std.specs.Prelude.{◌≡◌};
ghost use Rattle.graphql_core.specs.declared.helpers.read_error.ReadError.TheVariants.{Memory};
ghost use Rattle.graphql_core.specs.steps.ReadErrors.{IsFaultFor};

use crate::common::{Cause, Fault};
use crate::helpers::source::TokenSource;
use std::alloc::{AllocError, AllocFailed, Global};

/// Why a reader fails. The source is at the token (or end of input) that is wrong.
#[derive(Clone, Copy, Debug)]
pub enum ReadError {
    /// An allocation failed.
    Memory,
    /// The token or end of input is not allowed there, or a lexical error is next.
    Item,
    /// The token is an integer that does not fit an `i64`.
    Integer,
    /// The token is a float whose exponent is only a sign, as in `1e+`.
    Float,
    /// The token is a string with an invalid escape.
    Escape,
    /// The token is a name that is no directive location.
    Location,
}

impl From<AllocError> for ReadError {
    ghost from_gives = { λ _ e. e ≡ Memory };

    fn from(_e: AllocError) -> ReadError {
        ReadError::Memory
    }
}

impl<T: Drop> From<AllocFailed<T>> for ReadError {
    ghost from_gives = { λ _ e. e ≡ Memory };

    fn from(_e: AllocFailed<T>) -> ReadError {
        ReadError::Memory
    }
}

/// The `Fault` for this error of a reader. `source` must be as the reader left it.
#[cold]
#[inline(never)]
pub fn fault_of<S: TokenSource>(alloc: Global, source: &S, error: ReadError) -> Fault
    ensures { IsFaultFor error (S.items source.now) result }
{
    match error {
        ReadError::Memory => Fault::out_of_memory(),
        ReadError::Item => source.fault(alloc),
        ReadError::Integer => Fault::at(Cause::IntOutOfRange, source.position()),
        ReadError::Float => Fault::at(Cause::MalformedFloat, source.position()),
        ReadError::Escape => Fault::at(Cause::BadEscape, source.position()),
        ReadError::Location => Fault::at(Cause::UnknownLocation, source.position()),
    }
}
