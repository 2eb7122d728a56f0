//! Places in a source.
ghost use Rattle.std.specs.Prelude.{◌≡◌, ◌<◌, ◌≤◌, ◌++◌, ℕ, List, length};
ghost use Rattle.graphql_standard.specs.Places.{begins_character, character_count, ends_line, line_ends};
ghost use Rattle.graphql_standard.specs.Places.{EndsWith, IsLastLine, IsPlaceAfter, IsPlaceBefore};
ghost use Rattle.graphql_standard.specs.steps.Lines.{IsAfterLast};
ghost use Rattle.graphql_standard.specs.steps.Parts.{ArePlaces, AreApart};

use std::fmt;

/// A place in a source, as editors count.
#[derive(Clone, Copy, Debug, PartialEq, Eq)]
pub struct Place {
    /// The number of bytes before the place.
    pub offset: usize,
    /// The number of the line, from 1. A line ends with LF, with CR LF, or with a CR alone (section Line Terminators).
    pub line: usize,
    /// The number of the column, from 1: one more than the number of characters before the place in its line.
    pub column: usize,
}

/// Whether a byte ends a line, after this byte. The LF of a CR LF ends no other line.
fn ends_line(previous: u8, byte: u8) -> bool
    ensures { result ≡ ends_line previous byte }
{
    byte == b'\r' || (byte == b'\n' && previous != b'\r')
}

/// The number of lines that end in a text.
fn line_ends(text: &str) -> usize
    ensures count { result ≡ line_ends text.now }
    ensures within { result ≤ length text.now }
{
    let mut count = 0usize;
    let mut previous = 0u8;
    for byte in text.as_bytes() {
        count += usize::from(ends_line(previous, *byte));
        previous = *byte;
    }
    count
}

/// The part of a text after the last one of an ASCII character.
fn after_last(text: &str, character: char) -> &str
    requires { character < 128 }
    ensures { IsAfterLast character text.now result.now }
{
    match text.rsplit_once(character) {
        Some((_, rest)) => rest,
        None => text,
    }
}

/// Returns the part of a text after its last line end: LF, CR LF, or a CR alone (section Line Terminators).
pub fn last_line(text: &str) -> &str
    ensures { IsLastLine text.now result.now }
{
    after_last(after_last(text, '\n'), '\r')
}

/// Whether a byte is the first one of a character.
fn begins_character(byte: u8) -> bool
    ensures { result ≡ begins_character byte }
{
    byte < 0x80 || byte >= 0xC0
}

/// The number of characters of a text.
fn character_count(text: &str) -> usize
    ensures { result ≡ character_count text.now }
{
    text.as_bytes()
        .iter()
        .filter(|byte| begins_character(**byte))
        .count()
}

impl Place {
    /// Returns the place after a text that begins a source.
    pub fn after(text: &str) -> Place
        ensures { IsPlaceAfter text.now result }
    {
        Place {
            offset: text.len(),
            line: line_ends(text) + 1,
            column: character_count(last_line(text)) + 1,
        }
    }

    /// Returns the place at which the rest of a source begins.
    pub(crate) fn before(source: &str, rest: &str) -> Place
        requires { EndsWith source.now rest.now }
        ensures { IsPlaceBefore source.now rest.now result }
    {
        let (front, _) = source.split_at(source.len() - rest.len());
        Place::after(front)
    }

    /// Returns the place in a source of a place in an end of it, which begins at `start`.
    pub(crate) fn in_source(self, start: Place) -> Place
        requires { (front : List ℕ) × (text : List ℕ) × ArePlaces front text start self }
        ensures { (front text : List ℕ) → ArePlaces front text start self → AreApart front text
            → IsPlaceAfter (front ++ text) result }
    {
        let column = if self.line == 1 {
            start.column - 1 + self.column
        } else {
            self.column
        };
        Place {
            offset: start.offset + self.offset,
            line: start.line - 1 + self.line,
            column,
        }
    }
}

impl fmt::Display for Place {
    /// Writes the line and the column, with a colon between them.
    fn fmt<W: fmt::Write>(&self, f: &mut fmt::Formatter<W>) -> fmt::Result {
        write!(f, "{}:{}", self.line, self.column)
    }
}
