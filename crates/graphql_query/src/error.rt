//! The error of parsing a query.
ghost use Rattle.std.specs.Prelude.{◌≡◌, option_map};
ghost use Rattle.graphql_core.specs.{cause_text, place_of};

use graphql_core::common::{Cause, Fault};
use graphql_core::position::Pos;
use std::marker::Model;
use thiserror::Error;

/// Why an input is not a query document: a cause, and a position if there is one.
#[derive(Debug, Drop, Error)]
#[error("query parse error: {}", .fault)]
pub struct ParseError {
    fault: Fault,
}

impl Model for ParseError {
    ghost use Rattle.graphql_core.specs.{ParseFailure};

    ghost Value = { ParseFailure };

    ghost view = { λ e. e.fault };
}

impl ParseError {
    /// The position of the token (or of the end of the input) that is wrong: 1:1 for `TextTooLong`, `None` for
    /// `OutOfMemory`.
    pub fn position(&self) -> Option<Pos>
        ensures { option_map place_of result ≡ self.now.place }
    {
        self.fault.position
    }

    /// Why the input is rejected, or `OutOfMemory`.
    pub fn cause(&self) -> &Cause
        ensures { cause_text result.now ≡ self.now.cause }
    {
        &self.fault.cause
    }
}

impl From<Fault> for ParseError {
    ghost from_gives = { λ fault e. e ≡ fault };

    fn from(fault: Fault) -> ParseError {
        ParseError { fault }
    }
}
