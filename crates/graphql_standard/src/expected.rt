//! What can come next in an input.
ghost use Rattle.std.specs.Prelude.{◌≡◌};
ghost use Rattle.graphql_standard.specs.Recognizing.{contains, contains_end};

use crate::terminal::{TERMINALS, Terminal};

/// What can come next in an input: a set of terminals, and perhaps the end of the input.
#[derive(Clone, Copy, Debug, PartialEq, Eq)]
pub struct ExpectedSet {
    /// By the number of a terminal, whether it is in the set.
    pub(crate) terminals: [bool; TERMINALS],
    /// Whether the end of the input is in the set.
    pub(crate) has_end: bool,
}

impl ExpectedSet {
    /// Returns whether a token of the terminal can come next.
    pub fn contains(&self, terminal: Terminal) -> bool
        ensures { result ≡ contains self.now terminal }
    {
        self.terminals[usize::from(terminal.number())]
    }

    /// Returns whether the input can end.
    pub fn contains_end(&self) -> bool
        ensures { result ≡ contains_end self.now }
    {
        self.has_end
    }
}
