//! Punctuators.
ghost use Rattle.std.specs.Prelude.{◌≡◌};
ghost use Rattle.graphql_core.specs.steps.Punctuators.{first_byte, spelling_of};

/// A punctuator (GraphQL, October 2021, section 2.1.8).
#[derive(Clone, Copy, Debug)]
pub enum Punctuator {
    /// `!`
    Bang,
    /// `$`
    Dollar,
    /// `&`
    Ampersand,
    /// `(`
    OpenParen,
    /// `)`
    CloseParen,
    /// `...`
    Spread,
    /// `:`
    Colon,
    /// `=`
    Equals,
    /// `@`
    At,
    /// `[`
    OpenBracket,
    /// `]`
    CloseBracket,
    /// `{`
    OpenBrace,
    /// `|`
    Pipe,
    /// `}`
    CloseBrace,
}

impl Punctuator {
    /// The first byte of the punctuator. No other token begins with this byte.
    #[inline(always)]
    pub fn first_byte(self) -> u8
        ensures { result ≡ first_byte (spelling_of self) }
    {
        match self {
            Punctuator::Bang => b'!',
            Punctuator::Dollar => b'$',
            Punctuator::Ampersand => b'&',
            Punctuator::OpenParen => b'(',
            Punctuator::CloseParen => b')',
            Punctuator::Spread => b'.',
            Punctuator::Colon => b':',
            Punctuator::Equals => b'=',
            Punctuator::At => b'@',
            Punctuator::OpenBracket => b'[',
            Punctuator::CloseBracket => b']',
            Punctuator::OpenBrace => b'{',
            Punctuator::Pipe => b'|',
            Punctuator::CloseBrace => b'}',
        }
    }
}
