//! What is wrong where no token begins.

use graphql_standard::tokenizer::escape;
use std::alloc::{AllocError, Global};
use unicode_width::UnicodeWidthChar;

/// What is wrong where no token begins.
#[derive(Clone, Copy)]
pub enum Flaw<'a> {
    /// A string that does not end on its line.
    UnterminatedString,
    /// A block string that does not end.
    UnterminatedBlockString,
    /// A string with an invalid escape, which is spelled like this.
    InvalidEscape(&'a str),
    /// A number with a zero before its other digits.
    LeadingZero,
    /// A number without a digit after this punctuator.
    NoDigitAfter(&'static str),
    /// A number with an exponent that has no digit.
    EmptyExponent,
    /// A number with a character after it that cannot come there.
    Continued(char),
    /// A character that begins no token.
    Character(char),
}

/// An error where no token begins.
#[derive(Clone, Copy)]
pub struct LexicalError<'a> {
    /// What is wrong.
    pub flaw: Flaw<'a>,
    /// The input from there on where it is wrong: from the start, or from inside a string or a number.
    pub rest: &'a str,
}

impl<'a> LexicalError<'a> {
    /// The error at the start of an input at which no token begins.
    pub fn of(source: &'a str) -> Self {
        if source.starts_with("\"\"\"") {
            return LexicalError {
                flaw: Flaw::UnterminatedBlockString,
                rest: source,
            };
        }
        match source.chars().next() {
            Some('"') => LexicalError::of_string(source),
            Some('-' | '0'..='9') => LexicalError::of_number(source),
            first => LexicalError {
                flaw: Flaw::Character(first.unwrap_or('\0')),
                rest: source,
            },
        }
    }

    /// The error of a string in quotes.
    fn of_string(source: &'a str) -> Self {
        match invalid_escape(source) {
            Some(rest) => LexicalError {
                flaw: Flaw::InvalidEscape(escape_spelling(rest)),
                rest,
            },
            None => LexicalError {
                flaw: Flaw::UnterminatedString,
                rest: source,
            },
        }
    }

    /// The error of a number.
    fn of_number(source: &'a str) -> Self {
        let digits = source.strip_prefix('-').unwrap_or(source);
        let after = after_digits(digits);
        if after.len() == digits.len() {
            return LexicalError {
                flaw: Flaw::NoDigitAfter("-"),
                rest: digits,
            };
        }
        if digits.starts_with('0') && digits.len().saturating_sub(after.len()) > 1 {
            return LexicalError {
                flaw: Flaw::LeadingZero,
                rest: digits,
            };
        }
        match after.strip_prefix('.') {
            Some(fraction) => LexicalError::of_fraction(fraction),
            None => LexicalError::of_exponent(after),
        }
    }

    /// The error of a number in its part after the dot.
    fn of_fraction(fraction: &'a str) -> Self {
        let after = after_digits(fraction);
        if after.len() == fraction.len() {
            return LexicalError {
                flaw: Flaw::NoDigitAfter("."),
                rest: fraction,
            };
        }
        LexicalError::of_exponent(after)
    }

    /// The error of a number in its exponent, if it has one, or after it.
    fn of_exponent(source: &'a str) -> Self {
        let mut after = source;
        if let Some(exponent) = source.strip_prefix(['e', 'E']) {
            let digits = exponent.strip_prefix(['+', '-']).unwrap_or(exponent);
            after = after_digits(digits);
            if after.len() == digits.len() {
                return LexicalError {
                    flaw: Flaw::EmptyExponent,
                    rest: digits,
                };
            }
        }
        LexicalError {
            flaw: Flaw::Continued(after.chars().next().unwrap_or('\0')),
            rest: after,
        }
    }
}

/// A text after the digits at its start.
fn after_digits(text: &str) -> &str {
    text.trim_start_matches(|character: char| character.is_ascii_digit())
}

/// A string in quotes from its first invalid escape on. `None` if the line or the string ends before one.
fn invalid_escape(source: &str) -> Option<&str> {
    let mut next = 1usize;
    for (index, character) in source.char_indices() {
        if index < next {
            continue;
        }
        match character {
            '"' | '\n' | '\r' => return None,
            '\\' => {
                let rest = source.get(index..)?;
                let escaped = rest.strip_prefix('\\')?;
                if escaped.is_empty() || escaped.starts_with(['\n', '\r']) {
                    return None;
                }
                match escape(escaped) {
                    Some((_, after)) => next = source.len().saturating_sub(after.len()),
                    None => return Some(rest),
                }
            }
            _ => {}
        }
    }
    None
}

/// The spelling of the invalid escape at the start of a text: the backslash alone if what comes after it cannot be
/// shown.
fn escape_spelling(text: &str) -> &str {
    let (front, most) = if text.starts_with("\\u{") {
        (3usize, 8usize)
    } else if text.starts_with("\\u") {
        (2, 4)
    } else {
        (1, 0)
    };
    let digits = text.bytes().skip(front).take(most);
    let count = digits.take_while(|byte| byte.is_ascii_hexdigit()).count();
    let end = front.saturating_add(count);
    let has_more = match text.as_bytes().get(end).copied() {
        Some(b'}') if front == 3 => true,
        Some(byte) => front == 1 && byte.is_ascii_graphic(),
        None => false,
    };
    let end = end.saturating_add(usize::from(has_more));
    text.get(..end).unwrap_or("\\")
}

/// A character with its number, or only the number if the character cannot be shown between backticks.
fn character_words(alloc: Global, character: char) -> Result<String, AllocError> {
    let code = u32::from(character);
    match character.width() {
        Some(width) if width > 0 && character != '`' => {
            format!(in alloc; "the character `{character}` (U+{code:04X})")
        }
        _ => format!(in alloc; "the character U+{code:04X}"),
    }
}

/// What is wrong, in words.
pub fn flaw_words(alloc: Global, flaw: Flaw<'_>) -> Result<String, AllocError> {
    let words = match flaw {
        Flaw::UnterminatedString => "a string that does not end on its line",
        Flaw::UnterminatedBlockString => "a block string that does not end",
        Flaw::LeadingZero => "a number with a leading zero",
        Flaw::EmptyExponent => "a number without a digit in its exponent",
        Flaw::InvalidEscape(escape) => {
            return format!(in alloc; "a string with the invalid escape `{escape}`");
        }
        Flaw::NoDigitAfter(punctuator) => {
            return format!(in alloc; "a number without a digit after `{punctuator}`");
        }
        Flaw::Continued(character) => {
            return format!(in alloc; "a number with `{character}` after it");
        }
        Flaw::Character(character) => return character_words(alloc, character),
    };
    String::from_str(alloc, words)
}
