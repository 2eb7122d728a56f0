//! The error of minifying.
ghost use Rattle.std.specs.Prelude.{◌≡◌, option_map};
ghost use Rattle.graphql_core.specs.{cause_text, place_of};

use graphql_core::common::{Cause, Fault};
use graphql_core::position::Pos;
use std::marker::Model;
use thiserror::Error;

/// Why a source is not minified: a cause, and a position if there is one.
#[derive(Debug, Drop, Error)]
#[error("query minify error: {}", .fault.cause)]
pub struct MinifyError {
    fault: Fault,
}

impl Model for MinifyError {
    ghost use Rattle.graphql_core.specs.{ParseFailure};

    ghost Value = { ParseFailure };

    ghost view = { λ e. e.fault };
}

impl MinifyError {
    /// The position of the invalid token: 1:1 for `TextTooLong`, `None` for `OutOfMemory`.
    pub fn position(&self) -> Option<Pos>
        ensures { option_map place_of result ≡ self.now.place }
    {
        self.fault.position
    }

    /// `BadToken`, `TooDeep`, `TextTooLong` or `OutOfMemory`.
    pub fn cause(&self) -> &Cause
        ensures { cause_text result.now ≡ self.now.cause }
    {
        &self.fault.cause
    }
}

impl From<Fault> for MinifyError {
    ghost from_gives = { λ fault e. e ≡ fault };

    fn from(fault: Fault) -> MinifyError {
        MinifyError { fault }
    }
}
