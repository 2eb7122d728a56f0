//! What a piece is, without its spelling.

use crate::pieces::{Piece, PieceKind};
use graphql_core::helpers::Punctuator;
use graphql_core::tokenizer::Kind;

/// A token without its spelling, or a comment.
#[derive(Clone, Copy, Debug)]
pub enum Symbol {
    /// A comment.
    Comment,
    /// A name.
    Name,
    /// An integer or a float.
    Number,
    /// A string in quotes.
    StringValue,
    /// A string in triple quotes.
    BlockString,
    /// A punctuator.
    Punctuator(Punctuator),
}

impl Symbol {
    /// Whether it is a comment.
    #[inline(always)]
    pub fn is_comment(self) -> bool {
        matches!(self, Symbol::Comment)
    }

    /// Whether it is an opening bracket.
    #[inline(always)]
    pub fn is_opener(self) -> bool {
        matches!(
            self,
            Symbol::Punctuator(
                Punctuator::OpenParen | Punctuator::OpenBracket | Punctuator::OpenBrace,
            )
        )
    }

    /// Whether it is a closing bracket.
    #[inline(always)]
    pub fn is_closer(self) -> bool {
        matches!(
            self,
            Symbol::Punctuator(
                Punctuator::CloseParen | Punctuator::CloseBracket | Punctuator::CloseBrace,
            )
        )
    }

    /// Whether it is `}`.
    #[inline(always)]
    pub fn is_close_brace(self) -> bool {
        matches!(self, Symbol::Punctuator(Punctuator::CloseBrace))
    }

    /// Whether it separates members: `&` or `|`.
    #[inline(always)]
    pub fn is_separator(self) -> bool {
        matches!(
            self,
            Symbol::Punctuator(Punctuator::Ampersand | Punctuator::Pipe)
        )
    }
}

/// The punctuator of this spelling.
#[inline(always)]
fn punctuator(spelling: &str) -> Punctuator {
    match spelling.as_bytes().first().copied() {
        Some(b'!') => Punctuator::Bang,
        Some(b'$') => Punctuator::Dollar,
        Some(b'&') => Punctuator::Ampersand,
        Some(b'(') => Punctuator::OpenParen,
        Some(b')') => Punctuator::CloseParen,
        Some(b':') => Punctuator::Colon,
        Some(b'=') => Punctuator::Equals,
        Some(b'@') => Punctuator::At,
        Some(b'[') => Punctuator::OpenBracket,
        Some(b']') => Punctuator::CloseBracket,
        Some(b'{') => Punctuator::OpenBrace,
        Some(b'|') => Punctuator::Pipe,
        Some(b'}') => Punctuator::CloseBrace,
        _ => Punctuator::Spread,
    }
}

/// What a piece is.
#[inline(always)]
pub fn symbol_of(piece: &Piece<'_>) -> Symbol {
    match piece.kind {
        PieceKind::Comment => Symbol::Comment,
        PieceKind::Token(Kind::Punctuator) => Symbol::Punctuator(punctuator(piece.text)),
        PieceKind::Token(Kind::Name) => Symbol::Name,
        PieceKind::Token(Kind::IntValue | Kind::FloatValue) => Symbol::Number,
        PieceKind::Token(Kind::StringValue) => Symbol::StringValue,
        PieceKind::Token(Kind::BlockString) => Symbol::BlockString,
    }
}
