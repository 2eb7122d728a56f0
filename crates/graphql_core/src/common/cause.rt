//! Causes of parse errors.
use crate::tokenizer::Kind;
use std::fmt;
use thiserror::Error;

/// A character as messages show it. From U+0020 to U+007E it is itself, with a backslash before an apostrophe or a
/// backslash. Any other character is `\u{..}` with its code in lower-case hexadecimal digits.
#[derive(Clone, Copy)]
struct Quoted(char);

impl fmt::Display for Quoted {
    fn fmt<W: fmt::Write>(&self, f: &mut fmt::Formatter<W>) -> fmt::Result {
        let character = self.0;
        match character {
            '\'' => write!(f, "\\'"),
            '\\' => write!(f, "\\\\"),
            ' '..='~' => write!(f, "{character}"),
            _ => {
                let code = u32::from(character);
                write!(f, "\\u{{{code:x}}}")
            }
        }
    }
}

/// Why a token is invalid.
#[derive(Debug, PartialEq, Drop, Error)]
pub enum BadToken {
    /// A character that begins no token.
    #[error("unexpected character '{}'", Quoted(*.0))]
    Character(char),
    /// A dot that is not followed by two more.
    #[error("bare dot '.' is not supported, only \"...\"")]
    BareDot,
    /// A number that is no integer and has no `.`, `e` or `E`: its spelling, which begins with a minus sign or a digit.
    #[error("unsupported integer \"{0}\"")]
    Integer(String),
    /// A number that is no float and has a `.`, `e` or `E`: its spelling, which begins with a minus sign or a digit.
    #[error("unsupported float \"{0}\"")]
    Float(String),
    /// A string without a closing quote in the same line.
    #[error("unterminated string value")]
    UnterminatedString,
    /// A block string without its closing quotes.
    #[error("unterminated block string value")]
    UnterminatedBlockString,
}

/// Why the input is rejected. Unless a variant says otherwise, the error is at the first wrong token, or at the end
/// of input.
#[derive(Debug, PartialEq, Drop, Error)]
pub enum Cause {
    /// An invalid token.
    #[error("Unexpected {0}")]
    BadToken(BadToken),
    /// A token that the grammar does not allow after the tokens before it.
    #[error("Unexpected `{text}[{kind:?}]`")]
    UnexpectedToken {
        /// The token's kind.
        kind: Kind,
        /// The token's spelling.
        text: String,
    },
    /// The end of the input, where the grammar requires another token.
    #[error("Unexpected end of input")]
    UnexpectedEnd,
    /// An opening bracket at the depth `MAX_DEPTH`: 50 more brackets open before it than close.
    #[error("Recursion limit exceeded")]
    TooDeep,
    /// An integer that does not fit an `i64`.
    #[error("number too large")]
    IntOutOfRange,
    /// A float whose exponent is only a sign, as in `1e+`.
    #[error("invalid float literal")]
    MalformedFloat,
    /// A string with an escape that denotes no character (GraphQL, October 2021, section 2.9.4).
    #[error("Unexpected bad escape in string")]
    BadEscape,
    /// A name that is no directive location (3.13).
    #[error("invalid directive location")]
    UnknownLocation,
    /// An operation that a schema definition or an extension of the schema names twice (3.3, 3.3.2). The position is
    /// that of the keyword `schema`.
    #[error("Unexpected duplicate `{0}` operation")]
    DuplicateOperation(String),
    /// A name in a schema definition or an extension of the schema that is no operation (3.3, 3.3.2). The position is
    /// that of the keyword `schema`.
    #[error("Unexpected `{0}[Name]`")]
    UnknownOperation(String),
    /// An extension that adds nothing (3.3.2, 3.4.3), or an extension of an interface that adds only interfaces. The
    /// position is that of the keyword after `extend`.
    #[error("Unexpected empty extension")]
    EmptyExtension,
    /// An input of more than `MAX_LENGTH` bytes. The position is 1:1.
    #[error("text too long")]
    TextTooLong,
    /// An allocation failed. There is no position.
    #[error("out of memory")]
    OutOfMemory,
}
