//! Errors of inputs as JSON.

use graphql_fmt::{CheckError, ErrorReport, report};
use serde::Serialize;
use serde_json::to_string;
use std::alloc::{AllocError, Global};

/// An error of an input, for other programs.
#[derive(Drop, Serialize)]
struct Report<'a> {
    /// The name of the input.
    path: &'a str,
    /// The line, from 1.
    line: usize,
    /// The column, from 1, in characters.
    column: usize,
    /// The number of bytes before the error.
    offset: usize,
    /// The number of bytes of the error.
    length: usize,
    /// The column inside a string or a number at which it is wrong, and the number of bytes before it. `None` if the
    /// error is something else.
    inner_column: Option<usize>,
    inner_offset: Option<usize>,
    /// The message.
    message: String,
    /// What the input has there, in words. `None` unless it is a syntax error.
    found: Option<String>,
    /// What can come there, in words.
    expected: Vec<&'static str>,
}

/// Returns an error of an input as a JSON object in one line. The only error is out of memory.
pub fn to_json(
    alloc: Global,
    name: &str,
    source: &str,
    error: &CheckError,
) -> Result<String, AllocError> {
    let ErrorReport {
        place,
        len,
        inner,
        message,
        found,
        expected,
    } = report(alloc, source, error)?;
    let report = Report {
        path: name,
        line: place.line,
        column: place.column,
        offset: place.offset,
        length: len,
        inner_column: inner.map(|place| place.column),
        inner_offset: inner.map(|place| place.offset),
        message,
        found,
        expected,
    };
    to_string(alloc, &report).map_err(|_| AllocError)
}
