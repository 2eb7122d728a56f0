//! Calls for sources that people write: they are formatted with their comments, and all their errors are found.
ghost use Rattle.std.specs.Prelude.{◌≡◌, MatchResult, string_bytes};
ghost use Rattle.graphql_c.specs.{Fails, FailsBy, source_numbers, first_errors, HasErrorList, IsFormattedSource};
ghost use Rattle.graphql_c.specs.{IsRejectedSource};

use crate::calls::text_of;
use crate::errors::errors_to_json;
use crate::failure::Failure;
use graphql_fmt::{CheckError, FormatOptions, check_source, format_comments};
use std::alloc::Global;

/// The options with `indent` spaces for each level, and lines of `width` columns.
pub fn options_of(indent: u32, width: u32) -> FormatOptions
    ensures { (result.indent ≡ indent) × (result.width ≡ width) }
{
    FormatOptions {
        indent: indent as usize,
        width: width as usize,
    }
}

/// Formats these bytes, and keeps their comments.
pub fn format_source(
    alloc: Global,
    bytes: &[u8],
    options: &FormatOptions,
) -> Result<String, Failure>
    ensures { MatchResult result (λ s. IsFormattedSource bytes.now (string_bytes s))
        (FailsBy source_numbers (IsRejectedSource bytes.now) ⊥ bytes.now) }
{
    let source = text_of(alloc, bytes)?;
    match format_comments(alloc, source, options) {
        Ok(Some(output)) => return Ok(output),
        Ok(None) => {}
        Err(_) => return Err(Failure::out_of_memory(alloc)),
    }
    match graphql_fmt::format_source(alloc, source, options) {
        Ok(output) => Ok(output),
        Err(error) => match error {
            CheckError::OutOfMemory => Err(Failure::out_of_memory(alloc)),
            _ => Err(Failure::of_source(alloc, source, &error)),
        },
    }
}

/// The first errors, at most this many; all of them if the number is 0.
fn first_errors(errors: &[CheckError], most: usize) -> &[CheckError]
    ensures { result.now ≡ first_errors most errors.now }
{
    if most == 0 {
        errors
    } else {
        errors.split_at(most.min(errors.len())).0
    }
}

/// The errors of these bytes as a JSON array, at most this many, or all of them if the number is 0.
pub fn checked(alloc: Global, bytes: &[u8], most: usize) -> Result<String, Failure>
    ensures { MatchResult result (λ s. HasErrorList most bytes.now (string_bytes s)) (Fails (λ e. ⊥) ⊥ bytes.now) }
{
    let source = text_of(alloc, bytes)?;
    let Ok(errors) = check_source(alloc, source) else {
        return Err(Failure::out_of_memory(alloc));
    };
    match errors_to_json(alloc, source, first_errors(&errors, most)) {
        Ok(json) => Ok(json),
        Err(_) => Err(Failure::out_of_memory(alloc)),
    }
}
