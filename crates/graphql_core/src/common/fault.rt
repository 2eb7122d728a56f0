//! Parse errors: a cause and a position.
ghost use Rattle.std.specs.Prelude.{◌≡◌};
ghost use Rattle.graphql_core.specs.sources.Causes.{cause_text};
ghost use Rattle.graphql_core.specs.sources.Source.{place_of};
ghost use Rattle.graphql_core.specs.sources.ParseFailures.{at, no_memory, too_long};

use crate::common::cause::Cause;
use crate::position::Pos;
use std::alloc::AllocError;
use std::fmt;
use std::marker::Model;

/// The greatest length of an input in bytes: 2 ^ 60 - 1. A longer input is rejected with `TextTooLong` before any
/// allocation.
pub const MAX_LENGTH: usize = usize::MAX / 16;

/// A parse error: the cause and the position of the first error.
#[derive(Debug, Drop)]
pub struct Fault {
    /// Why the input is rejected.
    pub cause: Cause,
    /// The position of the error, or `None` if an allocation failed.
    pub position: Option<Pos>,
}

impl Model for Fault {
    ghost use Rattle.std.specs.Prelude.{option_map};
    ghost use Rattle.graphql_core.specs.sources.Causes.{cause_text};
    ghost use Rattle.graphql_core.specs.sources.Source.{place_of};
    ghost use Rattle.graphql_core.specs.sources.ParseFailures.{ParseFailure};

    ghost Value = { ParseFailure };

    ghost view = { λ e. record { cause = cause_text e.cause; place = option_map place_of e.position } };
}

impl Fault {
    /// Returns the error with this cause at this position.
    pub fn at(cause: Cause, position: Pos) -> Self
        ensures { result ≡ at (record { cause = cause_text cause; place = place_of position }) }
    {
        Fault {
            cause,
            position: Some(position),
        }
    }

    /// Returns `OutOfMemory`, without a position.
    pub fn out_of_memory() -> Self
        ensures { result ≡ no_memory }
    {
        Fault {
            cause: Cause::OutOfMemory,
            position: None,
        }
    }

    /// Returns `TextTooLong` at 1:1.
    pub fn text_too_long() -> Self
        ensures { result ≡ too_long }
    {
        Fault::at(Cause::TextTooLong, Pos { line: 1, column: 1 })
    }
}

impl From<AllocError> for Fault {
    ghost from_gives = { λ _ e. e ≡ no_memory };

    fn from(_e: AllocError) -> Fault {
        Fault::out_of_memory()
    }
}

/// The end of a parse error's message: a line with the position and a line with the cause. Without a position it is
/// the cause alone.
impl fmt::Display for Fault {
    fn fmt<W: fmt::Write>(&self, f: &mut fmt::Formatter<W>) -> fmt::Result {
        let cause = &self.cause;
        match self.position {
            Some(position) => write!(f, "Parse error at {position}\n{cause}\n"),
            None => write!(f, "{cause}"),
        }
    }
}
