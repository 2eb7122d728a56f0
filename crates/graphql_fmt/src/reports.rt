//! What is reported of an error of a source.
ghost use Rattle.std.specs.Prelude.{◌≡◌, IfOk};
ghost use Rattle.graphql_fmt.specs.Reporting.{error_len, error_place, IsReportOf};

use crate::messages::{expected_words, found_words, inner_place, message};
use graphql_standard::{CheckError, Place};
use std::alloc::{AllocError, Global};

/// What is reported of an error of a source.
#[derive(Drop)]
pub struct ErrorReport {
    /// Where the error begins.
    pub place: Place,
    /// The length of the error in bytes.
    pub len: usize,
    /// The place inside a string or a number at which it is wrong. `None` if the error is something else.
    pub inner: Option<Place>,
    /// The message, without the place.
    pub message: String,
    /// What the source has there, in words. `None` unless it is a syntax error.
    pub found: Option<String>,
    /// What can come there, in words. Empty unless it is a syntax error.
    pub expected: Vec<&'static str>,
}

/// Returns where an error begins: its place, or the start of the source if it has none.
pub fn error_place(error: &CheckError) -> Place
    ensures { result ≡ error_place error.now }
{
    match error.place() {
        Some(place) => place,
        None => Place {
            offset: 0,
            line: 1,
            column: 1,
        },
    }
}

/// Returns the length of an error in bytes: that of a syntax error, 1 for a bracket that is one too many, otherwise 0.
pub fn error_len(error: &CheckError) -> usize
    ensures { result ≡ error_len error.now }
{
    match error {
        CheckError::Syntax(error) => error.len,
        CheckError::TooDeep(_) => 1,
        CheckError::TooLong | CheckError::OutOfMemory => 0,
    }
}

/// Returns what is reported of an error of a source. The only error is out of memory.
pub fn report(alloc: Global, source: &str, error: &CheckError) -> Result<ErrorReport, AllocError>
    ensures { IfOk result (IsReportOf error.now) }
{
    let (inner, found, expected) = match error {
        CheckError::Syntax(error) => (
            inner_place(source, error),
            Some(found_words(alloc, source, error)?),
            expected_words(alloc, &error.expected)?,
        ),
        _ => (None, None, Vec::new(alloc)),
    };
    Ok(ErrorReport {
        place: error_place(error),
        len: error_len(error),
        inner,
        message: message(alloc, source, error)?,
        found,
        expected,
    })
}
