//! What an input has at its first error, in words.

use crate::messages::lexical::{LexicalError, flaw_words};
use graphql_standard::{Found, Place, SyntaxError, Terminal};
use std::alloc::{AllocError, Global};

/// How many characters of a token are shown.
const SHOWN_LENGTH: usize = 40;

/// Returns the place inside a string or a number at which it is wrong, such as that of an invalid escape. `None` if the
/// error is something else, or is wrong from its place on.
pub fn inner_place(source: &str, error: &SyntaxError) -> Option<Place> {
    if error.found != Found::LexicalError {
        return None;
    }
    let rest = source.get(error.place.offset..)?;
    let len = rest.len().saturating_sub(LexicalError::of(rest).rest.len());
    let front = rest.get(..len)?;
    if front.is_empty() {
        return None;
    }
    Some(Place {
        offset: error.place.offset.saturating_add(len),
        line: error.place.line,
        column: error.place.column.saturating_add(front.chars().count()),
    })
}

/// What an input has where no token begins. The column of a place inside a string or a number is shown.
fn lexical_error(alloc: Global, source: &str, error: &SyntaxError) -> Result<String, AllocError> {
    let rest = source.get(error.place.offset..).unwrap_or("");
    let words = flaw_words(alloc, LexicalError::of(rest).flaw)?;
    match inner_place(source, error) {
        Some(place) => format!(in alloc; "{words} (column {})", place.column),
        None => Ok(words),
    }
}

/// A token, with its spelling if it is no string.
fn token(alloc: Global, terminal: Terminal, spelling: &str) -> Result<String, AllocError> {
    let kind = match terminal {
        Terminal::StringValue | Terminal::BlockString => {
            return String::from_str(alloc, "a string");
        }
        Terminal::IntValue | Terminal::FloatValue => "the number ",
        _ if terminal.is_name() => "the name ",
        _ => "",
    };
    let mut text = String::new(alloc);
    for character in spelling.chars().take(SHOWN_LENGTH) {
        text.push(character)?;
    }
    let more = if spelling.chars().nth(SHOWN_LENGTH).is_some() {
        "..."
    } else {
        ""
    };
    format!(in alloc; "{kind}`{text}{more}`")
}

/// Returns in words what an input has at an error: a token, the end of the input, or what is wrong where no token begins.
/// The only error is out of memory.
pub fn found_words(alloc: Global, source: &str, error: &SyntaxError) -> Result<String, AllocError> {
    let rest = source.get(error.place.offset..).unwrap_or("");
    match error.found {
        Found::Token(terminal) => token(alloc, terminal, rest.get(..error.len).unwrap_or(rest)),
        Found::EndOfInput => String::from_str(alloc, "the end of the input"),
        Found::LexicalError => lexical_error(alloc, source, error),
    }
}

/// What is found, without its article.
pub fn without_article(found: &str) -> &str {
    let rest = found.strip_prefix("the ").or(found.strip_prefix("a "));
    rest.unwrap_or(found)
}
