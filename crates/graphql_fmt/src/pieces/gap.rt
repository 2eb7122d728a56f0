//! What comes between two pieces.
ghost use Rattle.graphql_fmt.specs.steps.Joining.{IsApart, IsApartToken, EndsLine, gap_bytes};

use crate::pieces::piece::{Piece, PieceKind};
use graphql_core::helpers::is_spaced;
use graphql_core::tokenizer::Kind;

/// What comes between two pieces.
#[derive(Clone, Copy, Debug, PartialEq, Eq)]
pub enum Gap {
    /// Nothing.
    Nothing,
    /// A space.
    Space,
    /// A comma and a space.
    Comma,
    /// A line end.
    Line {
        /// The number of spaces that the next line begins with.
        indent: u32,
        /// Whether an empty line comes before the next line.
        is_blank: bool,
    },
}

impl Gap {
    /// The number of columns that it takes, if it does not end a line.
    pub fn width(self) -> usize {
        match self {
            Gap::Nothing => 0,
            Gap::Space => 1,
            Gap::Comma => 2,
            Gap::Line { .. } => 0,
        }
    }

    /// The number of spaces that the line after it begins with, if the line before it begins with `margin` spaces.
    #[inline]
    pub fn margin_after(self, margin: usize) -> usize {
        match self {
            Gap::Line { indent, .. } => indent as usize,
            _ => margin,
        }
    }
}

/// The gap after a token of kind `before`: the chosen one, or a space if the two pieces need it.
fn after_token(before: Kind, chosen: Gap, piece: &Piece<'_>) -> Gap
    ensures { IsApartToken before (gap_bytes result) piece.now.kind piece.now.text.now }
{
    match (chosen, piece.kind) {
        (Gap::Nothing, PieceKind::Token(kind)) if is_spaced(before, kind, piece.text) => Gap::Space,
        _ => chosen,
    }
}

/// The gap after a comment: the chosen one if it ends the line, else a line end.
fn after_comment(chosen: Gap) -> Gap
    ensures { EndsLine (gap_bytes result) }
{
    match chosen {
        Gap::Line { .. } => chosen,
        _ => Gap::Line {
            indent: 0,
            is_blank: false,
        },
    }
}

/// The gap after a piece of kind `before`: the chosen one, or another if that does not keep the two pieces apart.
pub fn apart(before: PieceKind, chosen: Gap, piece: &Piece<'_>) -> Gap
    ensures { IsApart before (gap_bytes result) piece.now.kind piece.now.text.now }
{
    match before {
        PieceKind::Token(kind) => after_token(kind, chosen, piece),
        PieceKind::Comment => after_comment(chosen),
    }
}
