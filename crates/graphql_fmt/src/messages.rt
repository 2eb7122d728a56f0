//! Messages of errors.

mod brackets;
mod found;
mod hints;
mod lexical;
mod words;

use crate::format::MAX_OPEN_BRACKETS;
use crate::messages::brackets::unclosed_bracket;
use crate::messages::found::without_article;
pub use crate::messages::found::{found_words, inner_place};
use crate::messages::hints::hint_of;
pub use crate::messages::words::expected_words;
use graphql_standard::{CheckError, SyntaxError};
use std::alloc::{AllocError, Global};

/// Of more words than this, a message has none.
const MOST_WORDS: usize = 4;

/// These words, with `or` before the last one.
fn one_of(alloc: Global, words: &[&'static str]) -> Result<String, AllocError> {
    let mut text = String::new(alloc);
    for (index, word) in words.iter().enumerate() {
        let left = words.len().saturating_sub(index);
        text.push_str(match left {
            _ if index == 0 => "",
            1 => " or ",
            _ => ", ",
        })?;
        text.push_str(word)?;
    }
    Ok(text)
}

/// The message of the first error of an input, without a hint.
fn plain_message(alloc: Global, source: &str, error: &SyntaxError) -> Result<String, AllocError> {
    let found = found_words(alloc, source, error)?;
    let words = expected_words(alloc, &error.expected)?;
    if words.len() > MOST_WORDS {
        let found = without_article(&found);
        return format!(in alloc; "unexpected {found}");
    }
    let expected = one_of(alloc, &words)?;
    format!(in alloc; "expected {expected}, found {found}")
}

/// The message of the first error of an input.
fn syntax_message(alloc: Global, source: &str, error: &SyntaxError) -> Result<String, AllocError> {
    let (front, rest) = source
        .split_at_checked(error.place.offset)
        .unwrap_or((source, ""));
    let message = plain_message(alloc, source, error)?;
    if let Some(hint) = hint_of(front, rest, error) {
        return format!(in alloc; "{message}: {hint}");
    }
    match unclosed_bracket(alloc, front, error)? {
        Some(bracket) => format!(in alloc; "{message}: {bracket}"),
        None => Ok(message),
    }
}

/// Returns the message of the error of an input, without its place.
///
/// It says what was expected, if that is little, and what the input has there. Then comes a hint for a common mistake,
/// or the bracket that is not closed. The only error is out of memory.
pub fn message(alloc: Global, source: &str, error: &CheckError) -> Result<String, AllocError> {
    match error {
        CheckError::Syntax(error) => syntax_message(alloc, source, error),
        CheckError::TooDeep(_) => {
            format!(in alloc; "more than {MAX_OPEN_BRACKETS} brackets are open")
        }
        CheckError::TooLong => String::from_str(alloc, "text too long"),
        CheckError::OutOfMemory => String::from_str(alloc, "out of memory"),
    }
}
