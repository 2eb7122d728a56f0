//! An input as its pieces.
ghost use Rattle.std.specs.Prelude.{◌≡◌, ◌≤◌, ◌/◌, ◌++◌, length, map, List, IfOk, OnOk, MatchOption};
ghost use Rattle.graphql_standard.specs.Checking.{ChecksStandard};
ghost use Rattle.graphql_standard.specs.lexical.Elements.{IsEither};
ghost use Rattle.graphql_fmt.specs.{Kept, HasKept, IsBlockString, trimmed};
ghost use Rattle.graphql_fmt.specs.steps.Pieces.{spelled_piece, spelled_element, ArePieces, ArePiecesOf, IsSomeElement};

use crate::pieces::piece::{Piece, PieceKind};
use graphql_core::common::unquote_block_string;
use graphql_core::tokenizer::{ElementKind, Kind};
use graphql_standard::tokenizer::{Element, first_element};
use graphql_standard::{CheckError, Checker};
use std::alloc::{AllocError, Global};

/// A comment without the ASCII white space at its end.
fn trimmed(comment: &str) -> &str
    ensures { result.now ≡ trimmed comment.now }
{
    comment.trim_ascii_end()
}

/// Whether a text has a CR.
fn has_return(text: &str) -> bool {
    text.as_bytes().iter().any(|byte| *byte == b'\r')
}

/// Whether a line begins with anything except a space or a tab.
fn begins_with_text(line: &str) -> bool {
    !matches!(line.as_bytes().first().copied(), None | Some(b' ' | b'\t'))
}

/// Whether a block string of this value is written with any indentation: if some line of it begins with text. One with a
/// CR in its value is not, since many programs read a CR as a line end.
fn is_indentable_value(value: &str) -> bool {
    value.split('\n').any(begins_with_text) && !has_return(value)
}

/// Whether a block string is written with any indentation. If its value is empty, that is so if it has several lines.
fn is_indentable(alloc: Global, spelling: &str) -> Result<bool, AllocError>
    requires { IsBlockString spelling.now }
{
    let value = unquote_block_string(alloc, spelling)?;
    if value.is_empty() {
        Ok(spelling.contains('\n'))
    } else {
        Ok(is_indentable_value(&value))
    }
}

/// What comes between the last piece and the next one.
#[derive(Clone, Copy)]
struct Between {
    /// The number of line ends. A comment before them ends a line. A line of only commas counts as none.
    line_ends: usize,
    /// The number of spaces and tabs after the last line end or piece.
    spaces: usize,
    /// Whether a comma comes after the last line end or piece.
    has_comma: bool,
}

impl Between {
    /// Before the input, as if a line ended there.
    const START: Between = Between {
        line_ends: 1,
        spaces: 0,
        has_comma: false,
    };

    /// With one more character of ignored text, which comes before `rest`.
    fn extended(self, ignored: &str, rest: &str) -> Self {
        match ignored.as_bytes().first().copied() {
            Some(b' ' | b'\t') => Between {
                spaces: self.spaces.saturating_add(1),
                ..self
            },
            Some(b',') => Between {
                has_comma: true,
                ..self
            },
            // CR LF is one line end.
            Some(b'\r') if rest.as_bytes().first().copied() == Some(b'\n') => self,
            Some(b'\n' | b'\r') => self.after_line_end(),
            _ => self,
        }
    }

    /// After one more line end.
    fn after_line_end(self) -> Self {
        let is_only_commas = self.has_comma && self.line_ends > 0;
        let line_ends = if is_only_commas {
            self.line_ends
        } else {
            self.line_ends.saturating_add(1)
        };
        Between {
            line_ends,
            spaces: 0,
            has_comma: false,
        }
    }

    /// With this many more spaces.
    fn indented(self, count: usize) -> Self {
        Between {
            spaces: self.spaces.saturating_add(count),
            ..self
        }
    }

    /// The number of spaces and tabs before a piece that comes next, in the line that it begins; 0 if it begins no
    /// line.
    fn indent(self) -> usize {
        if self.line_ends > 0 { self.spaces } else { 0 }
    }

    /// After this element.
    fn after(self, element: &Element<'_>) -> Self {
        let line_ends = match element.kind {
            ElementKind::Token(_) => 0,
            ElementKind::Comment => 1,
            ElementKind::Ignored => return self.extended(element.text, element.rest),
        };
        Between {
            line_ends,
            spaces: 0,
            has_comma: false,
        }
    }
}

/// Appends the piece that an element is, if it is one.
fn push_element<'a>(
    alloc: Global,
    pieces: &mut Vec<Piece<'a>>,
    element: &Element<'a>,
    between: Between,
) -> Result<(), AllocError>
    requires element { IsSomeElement element.now.kind element.now.text.now }
    ensures spelled { OnOk result (map spelled_piece pieces.new.items
        ≡ map spelled_piece pieces.old.items ++ spelled_element element.now.kind element.now.text.now) }
    ensures pieces { OnOk result (ArePieces pieces.old.items → ArePieces pieces.new.items) }
{
    let (kind, text) = match element.kind {
        ElementKind::Token(kind) => (PieceKind::Token(kind), element.text),
        ElementKind::Comment => (PieceKind::Comment, trimmed(element.text)),
        ElementKind::Ignored => return Ok(()),
    };
    let is_indented = match kind {
        PieceKind::Token(Kind::BlockString) => is_indentable(alloc, text)?,
        _ => false,
    };
    pieces.push(Piece {
        kind,
        is_indented,
        begins_line: between.line_ends > 0,
        after_blank: between.line_ends > 1,
        indent: between.indent(),
        text,
    })?;
    Ok(())
}

/// The tokens and the comments of an input of at most `usize::MAX / 16` bytes, in order.
///
/// `None` if the input has a lexical error: part of it is an element neither of September 2025 nor of `graphql_core`.
/// Open brackets are not counted.
pub fn pieces_of<'a>(alloc: Global, source: &'a str) -> Result<Option<Vec<Piece<'a>>>, AllocError>
    requires { length source.now ≤ usize.MAX / 16 }
    ensures kept { IfOk result (λ found. MatchOption found ((ks : List Kept) → HasKept IsEither source.now ks → ⊥)
        (λ v. ArePiecesOf source.now v.items × ArePieces v.items)) }
{
    let mut pieces = Vec::new(alloc);
    let mut rest = source;
    let mut between = Between::START;
    'elements: while let Some(element) = first_element(rest) {
        push_element(alloc, &mut pieces, &element, between)?;
        between = between.after(&element);
        rest = element.rest;
    }
    if rest.is_empty() {
        Ok(Some(pieces))
    } else {
        Ok(None)
    }
}

/// The tokens and the comments of a document of September 2025 in which at most `limit` brackets are open, in order.
/// An error of the source is its first one.
pub fn checked_pieces<'a>(
    alloc: Global,
    source: &'a str,
    limit: usize,
) -> Result<Vec<Piece<'a>>, CheckError>
    ensures pieces { IfOk result (λ v. ArePiecesOf source.now v.items × ArePieces v.items) }
    ensures checks { ChecksStandard limit source.now result }
{
    let mut checker = Checker::new(alloc, source, limit)?;
    let mut pieces = Vec::new(alloc);
    let mut between = Between::START;
    'elements: while let Some(element) = checker.next_element()? {
        push_element(alloc, &mut pieces, &element, between)?;
        between = between.after(&element).indented(checker.skip_spaces());
    }
    Ok(pieces)
}
