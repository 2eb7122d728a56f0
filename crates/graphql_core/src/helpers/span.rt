//! Spans of tokens in the input.
use crate::tokenizer::Kind;

/// The integer type of the offsets, lines and columns in a `Span`.
pub trait Width: Copy {
    ghost use Rattle.std.specs.Prelude.{◌≡◌, ◌≤◌, ℕ};

    // the value of a number of this width
    ghost number: { Self → ℕ };

    // the largest value
    ghost most: { ℕ };

    /// Converts to this width.
    fn narrow(wide: usize) -> Self
        requires { wide ≤ most }
        ensures { number result ≡ wide };

    /// Converts from this width.
    fn wide(self) -> usize
        ensures { result ≡ number self };
}

/// The minimum length in bytes of an input whose positions may not fit in four bytes: 512 MiB. A tab takes eight
/// columns.
pub const WIDE_TEXT: usize = 536870912;

/// Four bytes, for an input of less than `WIDE_TEXT` bytes.
impl Width for u32 {
    ghost use Rattle.std.specs.Prelude.{◌^◌, ◌-◌};

    ghost number = { λ n. n };

    ghost most = { 2 ^ 32 - 1 };

    #[inline(always)]
    fn narrow(wide: usize) -> u32 {
        wide as u32
    }

    #[inline(always)]
    fn wide(self) -> usize {
        self as usize
    }
}

/// Eight bytes, for any input.
impl Width for usize {
    ghost use Rattle.std.specs.Prelude.{◌^◌, ◌-◌};

    ghost number = { λ n. n };

    ghost most = { 2 ^ 64 - 1 };

    #[inline(always)]
    fn narrow(wide: usize) -> usize {
        wide
    }

    #[inline(always)]
    fn wide(self) -> usize {
        self
    }
}

/// The kind, the first byte, the offsets and the position of a token.
#[derive(Clone, Copy)]
pub struct Span<W> {
    /// The kind.
    pub kind: Kind,
    /// The first byte.
    pub front: u8,
    /// The offset of the first byte.
    pub start: W,
    /// The offset of the byte after the last.
    pub end: W,
    /// The line of the first character.
    pub line: W,
    /// The column of the first character.
    pub column: W,
}
