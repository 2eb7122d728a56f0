//! Options of formatting.

/// How source text is formatted. By default: two spaces for each level, and lines of 80 columns.
#[derive(Clone, Copy, Debug, PartialEq, Eq)]
pub struct FormatOptions {
    /// The number of spaces for each level of indentation. A line begins with at most `u32::MAX` spaces.
    pub indent: usize,
    /// The number of terminal columns that a line can take, without a comment at its end. A longer line is broken where
    /// that is possible.
    pub width: usize,
}

impl Default for FormatOptions {
    ghost use Rattle.std.specs.Prelude.{◌≡◌};

    ghost is_default = { λ options. (options.indent ≡ 2) × (options.width ≡ 80) };

    /// The options [`FormatOptions::DEFAULT`].
    fn default() -> Self {
        Self::DEFAULT
    }
}

impl FormatOptions {
    /// Two spaces for each level, and lines of 80 columns.
    pub const DEFAULT: FormatOptions = FormatOptions {
        indent: 2,
        width: 80,
    };
}
