//! Hints for mistakes that come from a habit.

use crate::messages::words::keyword_of;
use graphql_standard::{ExpectedSet, Found, SyntaxError, Terminal};
use std::fmt;

/// A keyword of fewer letters is not suggested: too many names are like it.
const LEAST_KEYWORD: usize = 4;

/// What probably leads out of an error.
#[derive(Clone, Copy)]
pub enum Hint {
    /// A rule of the language.
    Rule(&'static str),
    /// A keyword that was probably meant.
    Meant(&'static str),
    /// A punctuator that was probably forgotten.
    Forgotten(&'static str),
}

impl fmt::Display for Hint {
    fn fmt<W: fmt::Write>(&self, f: &mut fmt::Formatter<W>) -> fmt::Result {
        match self {
            Hint::Rule(rule) => f.write_str(rule),
            Hint::Meant(word) => write!(f, "did you mean `{word}`?"),
            Hint::Forgotten(punctuator) => write!(f, "did you forget `{punctuator}`?"),
        }
    }
}

/// Whether a character is a space or a line end of Unicode that GraphQL does not have.
fn is_foreign_space(character: char) -> bool {
    character.is_whitespace() && !character.is_ascii()
}

/// The hint for quotation marks that begin no string.
fn of_quotes(rule: &'static str, expected: &ExpectedSet) -> Option<Hint> {
    if expected.contains(Terminal::StringValue) {
        Some(Hint::Rule(rule))
    } else if expected.contains(Terminal::OtherName) {
        Some(Hint::Rule("names have no quotes"))
    } else {
        None
    }
}

/// Whether a type can end before what is expected, or the name of a field.
fn follows_type_or_name(expected: &ExpectedSet) -> bool {
    expected.contains(Terminal::Bang) || expected.contains(Terminal::Colon)
}

/// The hint for characters that begin no token.
fn of_characters(rest: &str, expected: &ExpectedSet) -> Option<Hint> {
    let rule = match rest.chars().next()? {
        '\'' => return of_quotes("strings are in double quotes", expected),
        '`' if expected.contains(Terminal::IntValue) => "strings are in double quotes",
        '`' if rest.starts_with("```") => "this looks like Markdown",
        '\u{2018}'..='\u{201F}' => {
            return of_quotes("strings are in straight double quotes", expected);
        }
        ';' => "GraphQL has no semicolons",
        '?' if follows_type_or_name(expected) => "a type without `!` can be null",
        '\u{2026}' => "a spread is three dots",
        '.' if rest.starts_with("..") => "a spread is three dots",
        '/' if rest.starts_with("//") || rest.starts_with("/*") => "comments begin with `#`",
        character if is_foreign_space(character) => "write a plain space",
        _ => return None,
    };
    Some(Hint::Rule(rule))
}

/// The hint for a string, from the input before it and after it.
fn of_string(front: &str, after: &str, expected: &ExpectedSet) -> Option<Hint> {
    if front.trim() == "{" && after.trim_start().starts_with(':') {
        Some(Hint::Rule("this looks like JSON"))
    } else if expected.contains(Terminal::OtherName) {
        Some(Hint::Rule("names have no quotes"))
    } else {
        None
    }
}

/// Whether a terminal is a closing bracket.
fn is_closer(terminal: Terminal) -> bool {
    matches!(
        terminal,
        Terminal::CloseParen | Terminal::CloseBracket | Terminal::CloseBrace,
    )
}

/// The hint for a punctuator, from the input before it and after it.
fn of_punctuator(
    punctuator: Terminal,
    front: &str,
    after: &str,
    expected: &ExpectedSet,
) -> Option<Hint> {
    let rule = match punctuator {
        Terminal::Dollar if after.starts_with('{') => "GraphQL has no `${..}`",
        Terminal::OpenBrace if front.ends_with('$') => "GraphQL has no `${..}`",
        Terminal::OpenBracket if expected.contains(Terminal::Bang) => "write a list type as `[T]`",
        Terminal::CloseParen if front.trim_end().ends_with('(') => "leave out the parentheses",
        Terminal::CloseBrace if is_empty_definition(front, expected) => "leave out the braces",
        _ if is_closer(punctuator) && expected.contains_end() => "no bracket is open",
        _ => return None,
    };
    Some(Hint::Rule(rule))
}

/// Whether a brace that closes here, after the front of an input, leaves the braces of a definition of a type empty.
fn is_empty_definition(front: &str, expected: &ExpectedSet) -> bool {
    front.trim_end().ends_with('{')
        && expected.contains(Terminal::OtherName)
        && !expected.contains(Terminal::Spread)
}

/// The punctuator that is often forgotten before a name, and can come.
fn forgotten(expected: &ExpectedSet) -> Option<Hint> {
    let punctuator = if expected.contains(Terminal::Dollar) {
        "$"
    } else if expected.contains(Terminal::Equals) {
        "="
    } else if expected.contains(Terminal::Ampersand) {
        "&"
    } else if expected.contains(Terminal::Pipe) {
        "|"
    } else {
        return None;
    };
    Some(Hint::Forgotten(punctuator))
}

/// The hint for a name.
fn of_name(terminal: Terminal, spelling: &str, expected: &ExpectedSet) -> Option<Hint> {
    if expected.contains(Terminal::OtherName) {
        None
    } else if expected.contains(Terminal::DirectiveLocation) {
        let has_small = spelling.bytes().any(|byte| byte.is_ascii_lowercase());
        let rule = "locations are in capitals, as `FIELD_DEFINITION`";
        has_small.then_some(Hint::Rule(rule))
    } else if terminal == Terminal::DirectiveLocation {
        forgotten(expected)
    } else {
        match meant_keyword(spelling, expected) {
            Some(keyword) => Some(Hint::Meant(keyword)),
            None => forgotten(expected),
        }
    }
}

/// The keyword that can come and that was probably meant by a word: that of other languages, or the first that the word
/// is like.
fn meant_keyword(word: &str, expected: &ExpectedSet) -> Option<&'static str> {
    if word == "extends" && expected.contains(Terminal::Implements) {
        return Some("implements");
    }
    for terminal in Terminal::ALL {
        if let Some(keyword) = keyword_of(terminal) {
            if expected.contains(terminal)
                && keyword.len() >= LEAST_KEYWORD
                && is_like(word, keyword)
            {
                return Some(keyword);
            }
        }
    }
    None
}

/// Whether a word is another one, except for capitals, or except for one letter that is missing, added or changed, or
/// for two letters that are exchanged.
fn is_like(word: &str, other: &str) -> bool {
    let (word, other) = after_common_front(word.as_bytes(), other.as_bytes());
    let (word, other) = before_common_back(word, other);
    match (word, other) {
        ([_], []) | ([], [_]) | ([_], [_]) => true,
        ([a, b], [c, d]) if a == d && b == c => true,
        _ => word.eq_ignore_ascii_case(other),
    }
}

/// Two texts after the bytes that they both begin with.
fn after_common_front<'a>(text: &'a [u8], other: &'a [u8]) -> (&'a [u8], &'a [u8]) {
    let common = text
        .iter()
        .zip(other.iter())
        .take_while(|(a, b)| a == b)
        .count();
    (
        text.get(common..).unwrap_or(&[]),
        other.get(common..).unwrap_or(&[]),
    )
}

/// Two texts before the bytes that they both end with.
fn before_common_back<'a>(text: &'a [u8], other: &'a [u8]) -> (&'a [u8], &'a [u8]) {
    let backs = text.iter().rev().zip(other.iter().rev());
    let common = backs.take_while(|(a, b)| a == b).count();
    (
        text.get(..text.len().saturating_sub(common)).unwrap_or(&[]),
        other
            .get(..other.len().saturating_sub(common))
            .unwrap_or(&[]),
    )
}

/// The hint for an error, from the input before it and from there on.
pub fn hint_of(front: &str, rest: &str, error: &SyntaxError) -> Option<Hint> {
    let expected = &error.expected;
    let (token, after) = rest.split_at_checked(error.len).unwrap_or((rest, ""));
    match error.found {
        Found::EndOfInput => None,
        Found::LexicalError => of_characters(rest, expected),
        Found::Token(Terminal::StringValue) => of_string(front, after, expected),
        Found::Token(terminal) if terminal.is_name() => of_name(terminal, token, expected),
        Found::Token(terminal) => of_punctuator(terminal, front, after, expected),
    }
}
