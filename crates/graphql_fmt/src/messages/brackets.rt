//! Brackets that are not closed.
ghost use Rattle.std.specs.Prelude.{◌≤◌, ◌/◌, length};

use graphql_core::common::MAX_LENGTH;
use graphql_standard::tokenizer::first_element;
use graphql_standard::{Found, Place, SyntaxError, Terminal, last_line};
use std::alloc::{AllocError, Global};
use std::fmt;

/// A bracket that is not closed.
#[derive(Clone, Copy)]
pub struct OpenBracket {
    /// The bracket.
    character: char,
    /// Its line, from 1.
    line: usize,
}

impl fmt::Display for OpenBracket {
    fn fmt<W: fmt::Write>(&self, f: &mut fmt::Formatter<W>) -> fmt::Result {
        write!(
            f,
            "the `{}` of line {} is not closed",
            self.character, self.line
        )
    }
}

/// A text from the innermost bracket on that is open at its end.
fn from_innermost(alloc: Global, text: &str) -> Result<Option<&str>, AllocError>
    requires { length text.now ≤ usize.MAX / 16 }
{
    let mut open = Vec::new(alloc);
    let mut rest = text;
    'elements: while let Some(element) = first_element(rest) {
        match element.text {
            "(" | "[" | "{" => open.push(rest)?,
            ")" | "]" | "}" => {
                open.pop();
            }
            _ => {}
        }
        rest = element.rest;
    }
    Ok(open.pop())
}

/// The innermost bracket that is open at the end of a text of at most `MAX_LENGTH` bytes.
fn innermost(alloc: Global, text: &str) -> Result<Option<OpenBracket>, AllocError> {
    if text.len() > MAX_LENGTH {
        return Ok(None);
    }
    let Some(rest) = from_innermost(alloc, text)? else {
        return Ok(None);
    };
    let front = text.get(..text.len().saturating_sub(rest.len()));
    let line = Place::after(front.unwrap_or("")).line;
    Ok(
        rest.chars()
            .next()
            .map(|character| OpenBracket { character, line }),
    )
}

/// Whether a token closes another bracket than this one.
fn closes_another(token: Terminal, bracket: char) -> bool {
    match token {
        Terminal::CloseParen => bracket != '(',
        Terminal::CloseBracket => bracket != '[',
        Terminal::CloseBrace => bracket != '{',
        _ => false,
    }
}

/// Whether a line begins like a definition, with a keyword and a space.
fn begins_definition(line: &str) -> bool {
    let keyword = line.split_once(' ').map_or("", |(word, _)| word);
    matches!(
        keyword,
        "query"
            | "mutation"
            | "subscription"
            | "fragment"
            | "schema"
            | "scalar"
            | "type"
            | "interface"
            | "union"
            | "enum"
            | "input"
            | "directive"
            | "extend",
    )
}

/// The innermost bracket that is open at an error, if the error shows that it should be closed. That is so at the end of
/// the input, in a line that begins like a definition, and at another closing bracket. `front` is the input before the
/// error.
pub fn unclosed_bracket(
    alloc: Global,
    front: &str,
    error: &SyntaxError,
) -> Result<Option<OpenBracket>, AllocError> {
    let token = match error.found {
        Found::EndOfInput => return innermost(alloc, front),
        Found::LexicalError => return Ok(None),
        Found::Token(token) => token,
    };
    let line = last_line(front);
    if begins_definition(line) {
        let before = front.strip_suffix(line).unwrap_or("");
        if let Some(bracket) = innermost(alloc, before)? {
            return Ok(Some(bracket));
        }
    }
    match innermost(alloc, front)? {
        Some(bracket) if closes_another(token, bracket.character) => Ok(Some(bracket)),
        _ => Ok(None),
    }
}
