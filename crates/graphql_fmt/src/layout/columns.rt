//! The columns of a terminal that tokens take.

use crate::layout::symbol::Symbol;
use crate::pieces::Piece;
use unicode_width::UnicodeWidthStr;

/// The columns of a line.
fn columns_of(line: &str) -> usize {
    if line.is_ascii() {
        line.len()
    } else {
        line.width()
    }
}

/// Whether a token is written on several lines.
#[inline(always)]
pub fn has_lines(symbol: Symbol, piece: &Piece<'_>) -> bool {
    matches!(symbol, Symbol::BlockString) && piece.has_lines()
}

/// The columns of a token up to its first line end.
#[inline]
pub fn columns(symbol: Symbol, piece: &Piece<'_>) -> usize {
    match symbol {
        Symbol::StringValue => columns_of(piece.text),
        Symbol::BlockString if piece.is_indented => 3,
        Symbol::BlockString => match piece.text.split_once('\n') {
            Some((line, _)) => columns_of(line),
            None => columns_of(piece.text),
        },
        _ => piece.text.len(),
    }
}

/// The columns of the last line of a token of several lines, which begins in a line with this margin.
pub fn columns_of_last_line(margin: usize, piece: &Piece<'_>) -> usize {
    if piece.is_indented {
        return margin.saturating_add(3);
    }
    match piece.text.rsplit_once('\n') {
        Some((_, line)) => columns_of(line),
        None => columns_of(piece.text),
    }
}
