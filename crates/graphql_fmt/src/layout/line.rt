//! The line that is being written.

use crate::layout::columns::{columns, columns_of_last_line, has_lines};
use crate::layout::symbol::Symbol;
use crate::pieces::{Gap, Piece};

/// The line that is being written.
#[derive(Clone, Copy)]
pub struct Line {
    /// The level of its indentation.
    pub level: usize,
    /// The spaces that it begins with.
    pub margin: usize,
    /// Its columns so far.
    pub column: usize,
}

impl Line {
    /// The first line.
    pub const FIRST: Line = Line {
        level: 0,
        margin: 0,
        column: 0,
    };

    /// Goes past a gap.
    #[inline]
    pub fn go_past_gap(&mut self, gap: Gap) {
        self.margin = gap.margin_after(self.margin);
        self.column = match gap {
            Gap::Line { .. } => self.margin,
            _ => self.column.saturating_add(gap.width()),
        };
    }

    /// Goes past a token.
    #[inline]
    pub fn go_past_token(&mut self, symbol: Symbol, piece: &Piece<'_>) {
        self.column = if has_lines(symbol, piece) {
            columns_of_last_line(self.margin, piece)
        } else {
            self.column.saturating_add(columns(symbol, piece))
        };
    }
}
