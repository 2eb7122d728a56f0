//! All errors of a source.
ghost use Rattle.std.specs.Prelude.{◌≤◌, ℕ, List, length, IfOk, IfSome, MatchOption};
ghost use Rattle.graphql_standard.specs.AllErrors.{GoesOn, HasErrors, IsLastError, IsPartError, IsRight};
ghost use Rattle.graphql_standard.specs.steps.Parts.{IsPart};

use crate::checker::check;
use crate::definitions::next_definition;
use crate::error::{CheckError, SyntaxError};
use crate::place::Place;
use graphql_core::common::MAX_LENGTH;
use std::alloc::{AllocError, Global};

/// A source, or its end from a definition on.
#[derive(Clone, Copy)]
struct Part<'a> {
    /// The text.
    text: &'a str,
    /// Where it begins in the source.
    start: Place,
}

/// The error of a part, with its place in the source. `None` if the part is a document.
fn part_error(
    alloc: Global,
    part: &Part<'_>,
    limit: usize,
) -> Result<Option<CheckError>, AllocError>
    requires { (source : List ℕ) × IsPart source part.now }
    ensures { IfOk result (λ found. (source : List ℕ) → IsPart source part.now
        → MatchOption found (IsRight limit part.now.text.now) (IsPartError limit source part.now.text.now)) }
{
    match check(alloc, part.text, limit) {
        Ok(()) => Ok(None),
        Err(CheckError::Syntax(error)) => {
            let place = error.place.in_source(part.start);
            Ok(Some(CheckError::Syntax(SyntaxError { place, ..error })))
        }
        Err(CheckError::TooDeep(place)) => {
            Ok(Some(CheckError::TooDeep(place.in_source(part.start))))
        }
        Err(CheckError::TooLong) => Ok(Some(CheckError::TooLong)),
        Err(CheckError::OutOfMemory) => Err(AllocError),
    }
}

/// The part of a source from the next definition after an error of a part on. `None` if there is no such definition.
fn next_part<'a>(
    alloc: Global,
    source: &'a str,
    part: &Part<'a>,
    error: &CheckError,
) -> Result<Option<Part<'a>>, AllocError>
    requires { IsPart source.now part.now }
    ensures next { IfOk result (λ next. MatchOption next (IsLastError source.now part.now.text.now error.now)
        (λ later. GoesOn source.now part.now.text.now error.now later.text.now)) }
    ensures part { IfOk result (λ next. IfSome next (λ later. IsPart source.now later)) }
{
    let Some(place) = error.place() else {
        return Ok(None);
    };
    match next_definition(alloc, source, part.text, place.offset)? {
        Some(text) => {
            let start = Place::before(part.text, text).in_source(part.start);
            Ok(Some(Part { text, start }))
        }
        None => Ok(None),
    }
}

/// Returns all errors of a source, each with its place in the source. The first is that of [`check`](crate::check). After
/// an error checking begins again at the next definition that begins a line: only tabs, spaces and commas come before
/// its keyword in the line, and after the keyword comes a token with which a document can go on. Where there is no
/// error, the source is a document in which at most `limit` brackets are open (section Document). The only error is out
/// of memory.
pub fn check_all(alloc: Global, source: &str, limit: usize) -> Result<Vec<CheckError>, AllocError>
    ensures { IfOk result (λ errors. HasErrors limit source.now source.now errors.items) }
{
    let mut errors = Vec::new(alloc);
    if source.len() > MAX_LENGTH {
        errors.push(CheckError::TooLong)?;
        return Ok(errors);
    }
    let mut next = Some(Part {
        text: source,
        start: Place::after(""),
    });
    'parts: while let Some(part) = next {
        next = match part_error(alloc, &part, limit)? {
            Some(error) => {
                errors.push(error)?;
                next_part(alloc, source, &part, &error)?
            }
            None => None,
        };
    }
    Ok(errors)
}
