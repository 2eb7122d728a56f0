//! Values of block strings (GraphQL, October 2021, section 2.9.4).
ghost use Rattle.std.specs.Prelude.{◌≡◌, ℕ, List, [], ◌∷◌, ◌++◌, ◌+◌, ◌^◌, ◌<◌, ◌≤◌, ◌==◌, if◌then◌else◌, true, false};
ghost use Rattle.std.specs.Prelude.{length, min, drop, slice_index_or, IfOk, OnOk, string_bytes};
ghost use Rattle.std.specs.Str.Lines.{lines};
ghost use Rattle.graphql_core.specs.steps.BlockShape as steps;
ghost use Rattle.graphql_core.specs.strings.BlockStrings as spec;

use crate::common::strings::quoted::has_no_backslash;
use crate::tokenizer::line::split_line;
use std::alloc::{AllocError, Global};

/// The delimiter at both ends of a block string.
pub const QUOTES: &str = "\"\"\"";

/// The escape of `"""` in a block string.
pub const ESCAPED_QUOTES: &str = "\\\"\"\"";

/// Whether a byte is a space or a tab.
pub fn is_white(byte: u8) -> bool
    ensures { result ≡ spec.is_white byte }
{
    byte == b' ' || byte == b'\t'
}

/// Whether a line is empty or has only spaces and tabs.
pub fn is_blank(line: &str) -> bool
    ensures { result ≡ spec.is_blank_line line.now }
{
    line.bytes().all(is_white)
}

/// The number of spaces and tabs that a line begins with.
fn indent(line: &str) -> usize
    ensures { result ≡ spec.indent line.now }
{
    line.bytes().take_while(|byte| is_white(*byte)).count()
}

/// The first line of a nonempty string, without its line end, and what follows the line end.
#[inline(always)]
fn first_line(text: &str) -> (&str, &str)
    requires { 0 < length text.now }
    ensures lines { lines text.now ≡ result.0.now ∷ lines result.1.now }
    ensures shorter { length result.1.now < length text.now }
{
    let (line, after) = split_line(text);
    match after {
        Some(rest) => (line.strip_suffix('\r').unwrap_or(line), rest),
        None => (line, ""),
    }
}

/// What the value of a block string depends on besides its lines. Indents are numbers of spaces and tabs.
#[derive(Clone, Copy)]
struct BlockShape {
    /// The least indent of the lines that are not blank, except the first line. `None` if there are none.
    indent: Option<usize>,
    /// How many blank lines come before the first line that is not blank.
    first: usize,
    /// How many lines there are up to and including the last one that is not blank.
    through: usize,
}

/// The least indent, with one more line.
#[inline(always)]
fn least_indent(before: Option<usize>, spaces: usize) -> usize
    ensures { result ≡ steps.least_indent before spaces }
{
    match before {
        Some(least) => least.min(spaces),
        None => spaces,
    }
}

/// How many blank lines come first, with one more blank line at `index`.
#[inline(always)]
fn leading_blank_lines(before: usize, index: usize) -> usize
    requires { index + 1 < 2 ^ 64 }
    ensures { result ≡ (if before == index then index + 1 else before) }
{
    if before == index { index + 1 } else { before }
}

impl BlockShape {
    /// The shape with one more line, a blank one.
    #[inline(always)]
    fn with_blank_line(self, index: usize) -> BlockShape
        requires { index + 1 < 2 ^ 64 }
        ensures { (ls : List (List ℕ)) → index < length ls → spec.is_blank_line (slice_index_or ls index []) ≡ true
            → steps.IsShape self index ls → steps.IsShape result (index + 1) ls }
    {
        BlockShape {
            indent: self.indent,
            first: leading_blank_lines(self.first, index),
            through: self.through,
        }
    }

    /// The shape with one more line, which is not blank and begins with so many spaces and tabs.
    #[inline(always)]
    fn with_text_line(self, index: usize, spaces: usize) -> BlockShape
        requires { index + 1 < 2 ^ 64 }
        ensures { (ls : List (List ℕ)) → index < length ls → spec.is_blank_line (slice_index_or ls index []) ≡ false
            → spaces ≡ spec.indent (slice_index_or ls index []) → steps.IsShape self index ls
            → steps.IsShape result (index + 1) ls }
    {
        if index == 0 {
            return BlockShape {
                indent: self.indent,
                first: self.first,
                through: 1,
            };
        }
        BlockShape {
            indent: Some(least_indent(self.indent, spaces)),
            first: self.first,
            through: index + 1,
        }
    }

    /// The shape with one more line.
    #[inline(always)]
    fn with_line(self, index: usize, line: &str) -> BlockShape
        requires { index + 1 < 2 ^ 64 }
        ensures { (ls : List (List ℕ)) → index < length ls → line.now ≡ slice_index_or ls index []
            → steps.IsShape self index ls → steps.IsShape result (index + 1) ls }
    {
        let spaces = indent(line);
        if spaces == line.len() {
            return self.with_blank_line(index);
        }
        self.with_text_line(index, spaces)
    }
}

/// The shape of the lines of a block string.
fn shape_of(content: &str) -> BlockShape
    ensures { steps.IsShape result (length (lines content.now)) (lines content.now) }
{
    let mut shape = BlockShape {
        indent: None,
        first: 0,
        through: 0,
    };
    let mut index = 0;
    let mut rest = content;
    'lines: while !rest.is_empty() {
        let (line, after) = first_line(rest);
        shape = shape.with_line(index, line);
        index += 1;
        rest = after;
    }
    shape
}

/// What follows the first lines.
fn after_lines(content: &str, count: usize) -> &str
    requires { count ≤ length (lines content.now) }
    ensures { lines result.now ≡ drop count (lines content.now) }
{
    let mut rest = content;
    let mut index = 0;
    'lines: while index < count {
        rest = first_line(rest).1;
        index += 1;
    }
    rest
}

/// A line without its first spaces and tabs, at most `width` of them.
fn unindented(line: &str, width: usize) -> &str
    ensures { result.now ≡ drop (min (spec.indent line.now) width) line.now }
{
    line.split_at(indent(line).min(width)).1
}

/// Appends a line, with `"""` for each `\"""`.
fn push_unescaped(value: &mut String, line: &str) -> Result<(), AllocError>
    ensures { OnOk result (string_bytes value.new ≡ string_bytes value.old ++ spec.unescaped line.now) }
{
    let mut rest = line;
    'escapes: while let Some((plain, after)) = rest.split_once(ESCAPED_QUOTES) {
        value.push_str(plain)?;
        value.push_str(QUOTES)?;
        rest = after;
    }
    value.push_str(rest)
}

/// Appends a line, with `"""` for each `\"""`. Most lines have no backslash.
#[inline(always)]
fn push_line(value: &mut String, line: &str) -> Result<(), AllocError>
    ensures { OnOk result (string_bytes value.new ≡ string_bytes value.old ++ spec.unescaped line.now) }
{
    if has_no_backslash(line) {
        return value.push_str(line);
    }
    push_unescaped(value, line)
}

/// The value of a block string's content, which is between the delimiters.
fn content_value(alloc: Global, content: &str) -> Result<String, AllocError>
    ensures { IfOk result (λ s. string_bytes s ≡ spec.block_value content.now) }
{
    let shape = shape_of(content);
    let (first, through) = (shape.first, shape.through);
    let width = shape.indent.unwrap_or(0);
    // The value is at most as long as the content.
    let mut value = String::with_capacity(alloc, content.len())?;
    let mut rest = after_lines(content, first);
    'lines: for index in first..through {
        let (line, after) = first_line(rest);
        if index > first {
            value.push('\n')?;
        }
        let removed = if index == 0 { 0 } else { width };
        push_line(&mut value, unindented(line, removed))?;
        rest = after;
    }
    Ok(value)
}

/// Returns the value of a block string (GraphQL, October 2021, section 2.9.4).
///
/// `text` must begin and end with three quotes, and have at least six bytes. It need not be a token: three quotes
/// between these are part of the value. An error means that an allocation failed.
pub fn unquote_block_string(alloc: Global, text: &str) -> Result<String, AllocError>
    requires { (content : List ℕ) × spec.IsInTripleQuotes text.now content }
    ensures { (content : List ℕ) → spec.IsInTripleQuotes text.now content
        → IfOk result (λ s. string_bytes s ≡ spec.block_value content) }
{
    content_value(alloc, &text[3..text.len() - 3])
}
