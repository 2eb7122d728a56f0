//! Tokens and lexical errors.
ghost use Rattle.std.specs.Prelude.{◌≡◌, ◌++◌, Some, codes};
ghost use Rattle.graphql_core.specs.{kind_name};

use std::fmt;

/// The kind of a token (October 2021, section 2.1.6).
#[derive(Clone, Copy, Debug, PartialEq, Eq)]
pub enum Kind {
    /// One of `! $ & ( ) ... : = @ [ ] { | }` (section 2.1.8).
    Punctuator,
    /// ASCII letters, digits and `_`, of which the first is not a digit (section 2.1.9).
    Name,
    /// A whole number (section 2.9.1).
    IntValue,
    /// A number with a fraction or an exponent (section 2.9.2). A signed exponent can lack digits. An exponent without
    /// a sign begins with 1 to 8.
    FloatValue,
    /// A string in quotes (section 2.9.4).
    StringValue,
    /// A string in triple quotes (section 2.9.4).
    BlockString,
}

impl Kind {
    /// The name of the variant.
    fn name(self) -> &'static str
        ensures { result.now ≡ kind_name self }
    {
        match self {
            Kind::Punctuator => "Punctuator",
            Kind::Name => "Name",
            Kind::IntValue => "IntValue",
            Kind::FloatValue => "FloatValue",
            Kind::StringValue => "StringValue",
            Kind::BlockString => "BlockString",
        }
    }
}

/// A token: its kind and its spelling.
#[derive(Clone, Copy, Debug, PartialEq, Eq)]
pub struct Token<'a> {
    /// The kind.
    pub kind: Kind,
    /// The source slice of the token, with any quotes.
    pub value: &'a str,
}

/// Writes the spelling, then the kind in brackets, as in `where[Name]`.
impl fmt::Display for Token<'_> {
    ghost output = { λ t. Some (t.value.now ++ codes "[" ++ kind_name t.kind ++ codes "]") };

    ghost styled_output = { λ t spec. Some (t.value.now ++ codes "[" ++ kind_name t.kind ++ codes "]") };

    fn fmt<W: fmt::Write>(&self, f: &mut fmt::Formatter<W>) -> fmt::Result {
        f.write_str(self.value)?;
        f.write_str("[")?;
        f.write_str(self.kind.name())?;
        f.write_str("]")
    }
}

/// A lexical error. The run of `Integer` and `Float` ends before a space, LF, CR, tab, comma, `#`, or punctuator of one
/// character.
#[derive(Clone, Copy, Debug, PartialEq, Eq)]
pub enum Bad<'a> {
    /// A character that cannot begin a token.
    Character(char),
    /// A dot that is not followed by two more dots.
    BareDot,
    /// A run that begins with `-` or a digit, has no `.`, `e` or `E`, and is not a valid integer.
    Integer(&'a str),
    /// A run that begins with `-` or a digit, has a `.`, `e` or `E`, and is not a valid float.
    Float(&'a str),
    /// A string without its closing quote before LF or the end of input.
    UnterminatedString,
    /// A block string without its closing quotes.
    UnterminatedBlockString,
    /// An opening bracket at the depth `MAX_DEPTH`: 50 more brackets open before it than close.
    TooDeep,
}
