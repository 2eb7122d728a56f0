//! Empty lines between definitions.

/// The last definition, and the empty lines that are added before it and after it.
#[derive(Clone, Copy)]
pub struct Definitions {
    /// Whether the last definition is in one line so far.
    is_line: bool,
    /// Whether the definition before it is in one line.
    follows_line: bool,
    /// The gap with the empty line between these two, if the input has none there.
    added: Option<usize>,
    /// The gap with the empty line after the last definition, if the input has none there.
    added_after: Option<usize>,
}

impl Definitions {
    /// Before the first definition.
    pub const NONE: Definitions = Definitions {
        is_line: false,
        follows_line: false,
        added: None,
        added_after: None,
    };

    /// Adds an empty line after the last definition, in the gap with this index.
    pub fn add_empty_line(&mut self, gap: usize) {
        self.added_after = Some(gap);
    }

    /// Lets the last definition take several lines.
    pub fn break_line(&mut self) {
        self.is_line = false;
    }

    /// The gap with the empty line before the last definition, if that line is taken back: if the input has none there,
    /// and both definitions are in one line.
    pub fn taken_back(&self) -> Option<usize> {
        if self.is_line && self.follows_line {
            self.added
        } else {
            None
        }
    }

    /// Begins the next definition.
    pub fn begin(&mut self) {
        *self = Definitions {
            is_line: true,
            follows_line: self.is_line,
            added: self.added_after,
            added_after: None,
        };
    }
}
