//! The terminals of the grammar.
ghost use Rattle.std.specs.Prelude.{◌≡◌, ◌<◌, ◌≤◌, length};
ghost use Rattle.graphql_core.specs.{Place};
ghost use Rattle.graphql_core.specs.declared.tokenizer.token.Kind.TheVariants as kind;
ghost use Rattle.graphql_standard.specs.Terminals.{token, IsSpellingOf, IsTokenOf};
ghost use Rattle.graphql_standard.specs.steps.Groups.{number_of, is_name};

use graphql_core::tokenizer::Kind;

/// A token as the grammar sees it (sections Punctuators, Names, Input Values and Directives). Tokens that the grammar
/// does not distinguish are of one terminal.
#[derive(Clone, Copy, Debug, PartialEq, Eq)]
pub enum Terminal {
    /// The name `query`.
    Query,
    /// The name `mutation`.
    Mutation,
    /// The name `subscription`.
    Subscription,
    /// The name `fragment`.
    Fragment,
    /// The name `on`.
    On,
    /// The name `true`.
    True,
    /// The name `false`.
    False,
    /// The name `null`.
    Null,
    /// The name `schema`.
    Schema,
    /// The name `extend`.
    Extend,
    /// The name `scalar`.
    Scalar,
    /// The name `type`.
    Type,
    /// The name `interface`.
    Interface,
    /// The name `union`.
    Union,
    /// The name `enum`.
    Enum,
    /// The name `input`.
    Input,
    /// The name `directive`.
    Directive,
    /// The name `implements`.
    Implements,
    /// The name `repeatable`.
    Repeatable,
    /// The name of a directive location, as `FIELD_DEFINITION`.
    DirectiveLocation,
    /// Any other name.
    OtherName,
    /// An integer.
    IntValue,
    /// A float.
    FloatValue,
    /// A string in quotes.
    StringValue,
    /// A string in triple quotes.
    BlockString,
    /// `!`
    Bang,
    /// `$`
    Dollar,
    /// `&`
    Ampersand,
    /// `(`
    OpenParen,
    /// `)`
    CloseParen,
    /// `...`
    Spread,
    /// `:`
    Colon,
    /// `=`
    Equals,
    /// `@`
    At,
    /// `[`
    OpenBracket,
    /// `]`
    CloseBracket,
    /// `{`
    OpenBrace,
    /// `|`
    Pipe,
    /// `}`
    CloseBrace,
}

/// How many terminals there are.
pub(crate) const TERMINALS: usize = 39;

impl Terminal {
    /// The terminals, in the order of their numbers.
    pub const ALL: [Terminal; TERMINALS] = [
        Terminal::Query,
        Terminal::Mutation,
        Terminal::Subscription,
        Terminal::Fragment,
        Terminal::On,
        Terminal::True,
        Terminal::False,
        Terminal::Null,
        Terminal::Schema,
        Terminal::Extend,
        Terminal::Scalar,
        Terminal::Type,
        Terminal::Interface,
        Terminal::Union,
        Terminal::Enum,
        Terminal::Input,
        Terminal::Directive,
        Terminal::Implements,
        Terminal::Repeatable,
        Terminal::DirectiveLocation,
        Terminal::OtherName,
        Terminal::IntValue,
        Terminal::FloatValue,
        Terminal::StringValue,
        Terminal::BlockString,
        Terminal::Bang,
        Terminal::Dollar,
        Terminal::Ampersand,
        Terminal::OpenParen,
        Terminal::CloseParen,
        Terminal::Spread,
        Terminal::Colon,
        Terminal::Equals,
        Terminal::At,
        Terminal::OpenBracket,
        Terminal::CloseBracket,
        Terminal::OpenBrace,
        Terminal::Pipe,
        Terminal::CloseBrace,
    ];

    /// Returns the number of the terminal. Names come first.
    pub(crate) fn number(self) -> u8
        ensures number { result ≡ number_of self }
        ensures below { result < 39 }
    {
        match self {
            Terminal::Query => 0,
            Terminal::Mutation => 1,
            Terminal::Subscription => 2,
            Terminal::Fragment => 3,
            Terminal::On => 4,
            Terminal::True => 5,
            Terminal::False => 6,
            Terminal::Null => 7,
            Terminal::Schema => 8,
            Terminal::Extend => 9,
            Terminal::Scalar => 10,
            Terminal::Type => 11,
            Terminal::Interface => 12,
            Terminal::Union => 13,
            Terminal::Enum => 14,
            Terminal::Input => 15,
            Terminal::Directive => 16,
            Terminal::Implements => 17,
            Terminal::Repeatable => 18,
            Terminal::DirectiveLocation => 19,
            Terminal::OtherName => 20,
            Terminal::IntValue => 21,
            Terminal::FloatValue => 22,
            Terminal::StringValue => 23,
            Terminal::BlockString => 24,
            Terminal::Bang => 25,
            Terminal::Dollar => 26,
            Terminal::Ampersand => 27,
            Terminal::OpenParen => 28,
            Terminal::CloseParen => 29,
            Terminal::Spread => 30,
            Terminal::Colon => 31,
            Terminal::Equals => 32,
            Terminal::At => 33,
            Terminal::OpenBracket => 34,
            Terminal::CloseBracket => 35,
            Terminal::OpenBrace => 36,
            Terminal::Pipe => 37,
            Terminal::CloseBrace => 38,
        }
    }

    /// Returns the terminal of the tokens of this kind with this spelling. A token of the kind `Punctuator` must have the
    /// spelling of one, or nothing is promised.
    pub fn of(kind: Kind, spelling: &str) -> Terminal
        ensures { (p : Place) → IsSpellingOf kind spelling.now → IsTokenOf result (token kind spelling.now p) }
    {
        match kind {
            Kind::Punctuator => terminal_of_punctuator(spelling),
            Kind::Name => terminal_of_name(spelling),
            Kind::IntValue => Terminal::IntValue,
            Kind::FloatValue => Terminal::FloatValue,
            Kind::StringValue => Terminal::StringValue,
            Kind::BlockString => Terminal::BlockString,
        }
    }

    /// Returns whether the tokens of the terminal are names.
    pub fn is_name(self) -> bool
        ensures { result ≡ is_name self }
    {
        self.number() <= Terminal::OtherName.number()
    }
}

/// The terminal of a punctuator.
fn terminal_of_punctuator(spelling: &str) -> Terminal
    ensures { (p : Place) → IsSpellingOf kind.Punctuator spelling.now
        → IsTokenOf result (token kind.Punctuator spelling.now p) }
{
    match spelling.as_bytes().first().copied() {
        Some(b'!') => Terminal::Bang,
        Some(b'$') => Terminal::Dollar,
        Some(b'&') => Terminal::Ampersand,
        Some(b'(') => Terminal::OpenParen,
        Some(b')') => Terminal::CloseParen,
        Some(b'.') => Terminal::Spread,
        Some(b':') => Terminal::Colon,
        Some(b'=') => Terminal::Equals,
        Some(b'@') => Terminal::At,
        Some(b'[') => Terminal::OpenBracket,
        Some(b']') => Terminal::CloseBracket,
        Some(b'{') => Terminal::OpenBrace,
        Some(b'|') => Terminal::Pipe,
        _ => Terminal::CloseBrace,
    }
}

/// The terminal of a name of three bytes or less.
fn terminal_of_three_or_less(spelling: &str) -> Terminal
    requires { length spelling.now ≤ 3 }
    ensures { (p : Place) → IsTokenOf result (token kind.Name spelling.now p) }
{
    match spelling {
        "on" => Terminal::On,
        _ => Terminal::OtherName,
    }
}

/// The terminal of a name of four bytes.
fn terminal_of_four(spelling: &str) -> Terminal
    requires { length spelling.now ≡ 4 }
    ensures { (p : Place) → IsTokenOf result (token kind.Name spelling.now p) }
{
    match spelling {
        "true" => Terminal::True,
        "null" => Terminal::Null,
        "type" => Terminal::Type,
        "enum" => Terminal::Enum,
        "ENUM" => Terminal::DirectiveLocation,
        _ => Terminal::OtherName,
    }
}

/// The terminal of a name of five bytes.
fn terminal_of_five(spelling: &str) -> Terminal
    requires { length spelling.now ≡ 5 }
    ensures { (p : Place) → IsTokenOf result (token kind.Name spelling.now p) }
{
    match spelling {
        "query" => Terminal::Query,
        "false" => Terminal::False,
        "union" => Terminal::Union,
        "input" => Terminal::Input,
        "QUERY" | "FIELD" | "UNION" => Terminal::DirectiveLocation,
        _ => Terminal::OtherName,
    }
}

/// The terminal of a name of six bytes.
fn terminal_of_six(spelling: &str) -> Terminal
    requires { length spelling.now ≡ 6 }
    ensures { (p : Place) → IsTokenOf result (token kind.Name spelling.now p) }
{
    match spelling {
        "schema" => Terminal::Schema,
        "extend" => Terminal::Extend,
        "scalar" => Terminal::Scalar,
        "SCHEMA" | "SCALAR" | "OBJECT" => Terminal::DirectiveLocation,
        _ => Terminal::OtherName,
    }
}

/// The terminal of a name of seven to ten bytes.
fn terminal_of_seven_to_ten(spelling: &str) -> Terminal
    requires { (7 ≤ length spelling.now) × (length spelling.now ≤ 10) }
    ensures { (p : Place) → IsTokenOf result (token kind.Name spelling.now p) }
{
    match spelling {
        "mutation" => Terminal::Mutation,
        "fragment" => Terminal::Fragment,
        "interface" => Terminal::Interface,
        "directive" => Terminal::Directive,
        "implements" => Terminal::Implements,
        "repeatable" => Terminal::Repeatable,
        "MUTATION" | "INTERFACE" | "ENUM_VALUE" => Terminal::DirectiveLocation,
        _ => Terminal::OtherName,
    }
}

/// The terminal of a name of eleven bytes or more.
fn terminal_of_eleven_or_more(spelling: &str) -> Terminal
    requires { 11 ≤ length spelling.now }
    ensures { (p : Place) → IsTokenOf result (token kind.Name spelling.now p) }
{
    match spelling {
        "subscription" => Terminal::Subscription,
        "SUBSCRIPTION"
        | "FRAGMENT_DEFINITION"
        | "FRAGMENT_SPREAD"
        | "INLINE_FRAGMENT"
        | "VARIABLE_DEFINITION"
        | "FIELD_DEFINITION"
        | "ARGUMENT_DEFINITION"
        | "INPUT_OBJECT"
        | "INPUT_FIELD_DEFINITION" => Terminal::DirectiveLocation,
        _ => Terminal::OtherName,
    }
}

/// The terminal of a name. The length is tested first, since most names are no keywords.
fn terminal_of_name(spelling: &str) -> Terminal
    ensures { (p : Place) → IsTokenOf result (token kind.Name spelling.now p) }
{
    match spelling.len() {
        0..=3 => terminal_of_three_or_less(spelling),
        4 => terminal_of_four(spelling),
        5 => terminal_of_five(spelling),
        6 => terminal_of_six(spelling),
        7..=10 => terminal_of_seven_to_ten(spelling),
        _ => terminal_of_eleven_or_more(spelling),
    }
}
