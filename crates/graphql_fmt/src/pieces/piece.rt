//! The tokens and the comments of an input.

use graphql_core::tokenizer::Kind;

/// What a piece is.
#[derive(Clone, Copy, Debug, PartialEq, Eq)]
pub enum PieceKind {
    /// A token of this kind.
    Token(Kind),
    /// A comment.
    Comment,
}

/// A token or a comment of an input.
#[derive(Clone, Copy)]
pub struct Piece<'a> {
    /// What it is.
    pub kind: PieceKind,
    /// Whether it is a block string that can be written with any indentation.
    pub is_indented: bool,
    /// Whether it is the first piece that begins in its line.
    pub begins_line: bool,
    /// Whether an empty line comes right before it.
    pub after_blank: bool,
    /// The number of spaces and tabs before it in the line that it begins; 0 if it begins no line.
    pub indent: usize,
    /// The spelling of a token. A comment from its `#` on, without ASCII white space at its end.
    pub text: &'a str,
}

impl<'a> Piece<'a> {
    /// Whether it is written on several lines.
    pub fn has_lines(&self) -> bool {
        self.is_indented || self.text.contains('\n')
    }
}
