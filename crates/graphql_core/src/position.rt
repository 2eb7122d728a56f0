//! Positions in the input.
ghost use Rattle.std.specs.Prelude.{◌++◌, Some, codes};
ghost use Rattle.std.specs.Fmt.{decimal};

mod laws;

pub use laws::{are_same_position, compare_positions, default_position};
use std::fmt;

/// The position of a character. Positions are ordered by line, then by column. `Display` writes `line:column`.
#[derive(Clone, Copy, PartialEq, Eq, PartialOrd, Ord, Hash, Default)]
pub struct Pos {
    /// The line, from 1. LF ends a line. CR ends a line only at the end of a comment.
    pub line: usize,
    /// The column in characters, from 1. In ignored text a tab counts 8 columns, and CR and U+FEFF count none. A
    /// comment at the end of the input counts none, so the end has the position of its `#`.
    pub column: usize,
}

impl fmt::Debug for Pos {
    fn fmt<W: fmt::Write>(&self, f: &mut fmt::Formatter<W>) -> fmt::Result {
        let line = self.line;
        let column = self.column;
        write!(f, "Pos({line}:{column})")
    }
}

impl fmt::Display for Pos {
    ghost output = { λ p. Some (decimal p.line ++ codes ":" ++ decimal p.column) };

    fn fmt<W: fmt::Write>(&self, f: &mut fmt::Formatter<W>) -> fmt::Result {
        let line = self.line;
        let column = self.column;
        write!(f, "{line}:{column}")
    }
}
