//! What output is written to.
ghost use Rattle.std.specs.Prelude.{◌≡◌, ℕ, List, [], ◌++◌, OnOk, string_bytes, length, take};
ghost use Rattle.std.specs.Fmt.{HasWrittenStyled, IsFlush};
ghost use Rattle.graphql_core.specs.steps.FormatterSink.{formatter_nil, formatter_more};
ghost use Rattle.graphql_core.specs.steps.StringSink.{string_nil, string_more};

use std::alloc::AllocError;
use std::fmt;

/// What output is appended to: a `String`, a `Buffer`, or the formatter of a `Display`.
pub trait Sink {
    /// Why appending fails: `AllocError` for a `String` or a `Buffer`, `fmt::Error` for a formatter.
    type Error: Drop;

    /// The second sink is the first one after these bytes were appended.
    ghost took: { Self → List ℕ → Self → Type 0 };

    /// Appends a string. It returns an error if an allocation fails or the formatter's own writer returns one. What was
    /// appended before an error is unspecified.
    fn push_str(&mut self, text: &str) -> Result<(), Self::Error>
        ensures { OnOk result (took self.old text.now self.new) };

    /// Appends `text`, with the errors of `push_str`. `from` must begin with `text`. The rest of `from` can also be
    /// read, so that a short string is one load and one store.
    fn push_start(&mut self, text: &str, from: &str) -> Result<(), Self::Error>
        requires { take (length text.now) from.now ≡ text.now }
        ensures { OnOk result (took self.old text.now self.new) }
    {
        self.push_str(text)
    }

    /// Appends two strings, with the errors of `push_str`.
    #[inline(always)]
    fn push_two(&mut self, first: &str, second: &str) -> Result<(), Self::Error>
        ensures { OnOk result (took self.old (first.now ++ second.now) self.new) }
    {
        self.push_str(first)?;
        self.push_str(second)
    }

    /// Appends three strings, with the errors of `push_str`.
    #[inline(always)]
    fn push_three(&mut self, first: &str, second: &str, third: &str) -> Result<(), Self::Error>
        ensures { OnOk result (took self.old (first.now ++ (second.now ++ third.now)) self.new) }
    {
        self.push_two(first, second)?;
        self.push_str(third)
    }

    ghost took_nil: { (s : Self) → took s [] s };

    ghost took_more: { (s : Self) (a : List ℕ) (t : Self) (b : List ℕ) (u : Self) → took s a t
        → took t b u → took s (a ++ b) u };
}

impl Sink for String {
    type Error = AllocError;

    ghost took = { λ s text t. string_bytes t ≡ string_bytes s ++ text };

    ghost took_nil = { string_nil };

    ghost took_more = { string_more };

    fn push_str(&mut self, text: &str) -> Result<(), AllocError> {
        String::push_str(self, text)
    }
}

/// Strings are written as they are, whatever options the formatter has.
impl<W: fmt::Write> Sink for fmt::Formatter<W> {
    type Error = fmt::Error;

    ghost took = { λ f text g. IsFlush f → HasWrittenStyled W.write_str_gives f text g };

    ghost took_nil = { formatter_nil W.write_str_gives };

    ghost took_more = { formatter_more W.write_str_gives };

    fn push_str(&mut self, text: &str) -> Result<(), fmt::Error> {
        self.write_str(text)
    }
}
