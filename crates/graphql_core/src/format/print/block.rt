//! Strings in block form.
ghost use Rattle.std.specs.Prelude.{◌≡◌, false, not, ◌&&◌, ◌||◌, ◌==◌, OnOk};
ghost use Rattle.std.specs.List.{list_all, list_any, flat_map};
ghost use Rattle.std.specs.Str.{chars};
ghost use Rattle.graphql_core.specs.strings.BlockStrings.{is_blank_line};
ghost use Rattle.graphql_core.specs.steps.BlockBytes.{is_block_byte};
ghost use Rattle.graphql_core.specs.layouts.ValueLayout as spec;

use crate::common::strings::{ESCAPED_QUOTES, QUOTES, is_blank, is_white};
use crate::format::Sink;
use crate::format::print::spaces::write_spaces;
use crate::tokenizer::line::split_line;
use crate::tokenizer::run::{PlainInBlock, class_prefix_len};

/// Whether a string has more than one line.
fn has_line_feed(text: &str) -> bool
    ensures { result ≡ list_any (λ b. b == 10) text.now }
{
    text.as_bytes().contains(&b'\n')
}

/// Whether a byte can be in a character that block form allows. Every other character has a byte that cannot.
fn is_block_byte(byte: u8) -> bool
    ensures { result ≡ is_block_byte byte }
{
    matches!(byte, b'\n' | b'\r' | b'\t' | b' '..=0xef)
}

/// Whether each byte passes `is_block_byte`.
fn has_block_bytes(text: &str) -> bool
    ensures { result ≡ list_all is_block_byte text.now }
{
    text.bytes()
        .fold(true, |all, byte| all & is_block_byte(byte))
}

/// Whether block form allows each character.
fn has_block_characters(text: &str) -> bool
    ensures { result ≡ list_all spec.is_block_character (chars text.now) }
{
    has_block_bytes(text)
}

/// Whether a line has anything except spaces and tabs.
fn has_text(line: &str) -> bool
    ensures { result ≡ not (is_blank_line line.now) }
{
    !is_blank(line)
}

/// Whether a line is empty or has anything except spaces and tabs.
fn is_empty_or_text(line: &str) -> bool
    ensures { result ≡ (not (is_blank_line line.now) || spec.is_empty line.now) }
{
    has_text(line) || line.is_empty()
}

/// Whether a line doesn't end in a carriage return.
fn ends_in_no_return(line: &str) -> bool
    ensures { result ≡ not (spec.ends_in_return line.now) }
{
    !line.ends_with('\r')
}

/// Whether a line begins with anything except a space or a tab.
fn begins_with_text(line: &str) -> bool
    ensures { result ≡ (not (is_blank_line line.now) && not (spec.begins_white line.now)) }
{
    match line.as_bytes().first() {
        Some(byte) => !is_white(*byte),
        None => false,
    }
}

/// Whether the first line isn't empty.
fn begins_in_a_line(text: &str) -> bool
    ensures { result ≡ not (spec.is_empty (spec.first_line (spec.lines_of text.now))) }
{
    match text.as_bytes().first() {
        Some(byte) => *byte != b'\n',
        None => false,
    }
}

/// Whether the last line isn't empty.
fn ends_in_a_line(text: &str) -> bool
    ensures { result ≡ not (spec.is_empty (spec.last_line (spec.lines_of text.now))) }
{
    match text.as_bytes().last() {
        Some(byte) => *byte != b'\n',
        None => false,
    }
}

/// Whether a line passes `is_empty_or_text` and does not end in a carriage return.
fn is_whole_line(line: &str) -> bool
    ensures { result
        ≡ ((not (is_blank_line line.now) || spec.is_empty line.now) && not (spec.ends_in_return line.now)) }
{
    is_empty_or_text(line) && ends_in_no_return(line)
}

/// Whether each line passes `is_whole_line`.
fn has_whole_lines(text: &str) -> bool
    ensures { result ≡ (list_all (λ l. not (is_blank_line l) || spec.is_empty l) (spec.lines_of text.now)
        && list_all (λ l. not (spec.ends_in_return l)) (spec.lines_of text.now)) }
{
    let mut rest = text;
    'lines: loop {
        let (line, after) = split_line(rest);
        if !is_whole_line(line) {
            return false;
        }
        match after {
            Some(lines) => rest = lines,
            None => return true,
        }
    }
}

/// Whether some line begins with anything except a space or a tab.
fn has_line_without_indent(text: &str) -> bool
    ensures { result ≡ list_any (λ l. not (is_blank_line l) && not (spec.begins_white l)) (spec.lines_of text.now) }
{
    text.split('\n').any(begins_with_text)
}

/// Whether neither the first nor the last line is empty, each line is whole, and some line has no indent.
fn has_whole_lines_around(text: &str) -> bool
    ensures { result ≡ (not (spec.is_empty (spec.first_line (spec.lines_of text.now)))
        && (not (spec.is_empty (spec.last_line (spec.lines_of text.now)))
        && ((list_all (λ l. not (is_blank_line l) || spec.is_empty l) (spec.lines_of text.now)
        && list_all (λ l. not (spec.ends_in_return l)) (spec.lines_of text.now))
        && list_any (λ l. not (is_blank_line l) && not (spec.begins_white l)) (spec.lines_of text.now)))) }
{
    begins_in_a_line(text)
        && ends_in_a_line(text)
        && has_whole_lines(text)
        && has_line_without_indent(text)
}

/// Whether a string is the value of its block form: its first and last lines are not blank, each blank line is empty,
/// no line ends in CR, and some line has no indent.
pub fn has_block_lines(text: &str) -> bool
    ensures { result ≡ spec.has_block_lines text.now }
{
    has_whole_lines_around(text)
}

/// Whether a string is written in block form.
pub fn has_block_form(text: &str) -> bool
    ensures { result ≡ spec.has_block_form text.now }
{
    has_line_feed(text) && has_block_characters(text) && has_block_lines(text)
}

/// Whether a line has a quote or a backslash. Most lines have neither.
fn may_have_quotes(line: &str) -> bool
    ensures { result ≡ false → list_any (λ b. b == 34) line.now ≡ false }
{
    class_prefix_len::<PlainInBlock>(line.as_bytes()) < line.len()
}

/// Appends a line, with a backslash before each `"""`.
fn write_escaped<S: Sink>(out: &mut S, line: &str) -> Result<(), S::Error>
    ensures { OnOk result (S.took out.old (spec.escaped_quotes line.now) out.new) }
{
    if !may_have_quotes(line) {
        return out.push_str(line);
    }
    let mut rest = line;
    'quotes: while let Some((plain, after)) = rest.split_once(QUOTES) {
        out.push_str(plain)?;
        out.push_str(ESCAPED_QUOTES)?;
        rest = after;
    }
    out.push_str(rest)
}

/// Appends a line with its margin and its LF. An empty line is its LF alone.
fn write_block_line<S: Sink>(out: &mut S, line: &str, margin: usize) -> Result<(), S::Error>
    ensures { OnOk result (S.took out.old (spec.block_line margin line.now) out.new) }
{
    if line.is_empty() {
        return out.push_str("\n");
    }
    write_spaces(out, margin)?;
    write_escaped(out, line)?;
    out.push_str("\n")
}

/// Appends the lines of a string, each indented by `inside` spaces.
fn write_block_lines<S: Sink>(out: &mut S, text: &str, inside: usize) -> Result<(), S::Error>
    ensures { OnOk result (S.took out.old (flat_map (spec.block_line inside) (spec.lines_of text.now)) out.new) }
{
    let mut rest = text;
    'lines: loop {
        let (line, after) = split_line(rest);
        write_block_line(out, line, inside)?;
        match after {
            Some(lines) => rest = lines,
            None => return Ok(()),
        }
    }
}

/// Appends a string in block form. Its lines are indented by `inside` spaces, and the closing quotes by `margin`.
pub fn write_block<S: Sink>(
    out: &mut S,
    text: &str,
    inside: usize,
    margin: usize,
) -> Result<(), S::Error>
    ensures { OnOk result (S.took out.old (spec.in_block_form inside margin text.now) out.new) }
{
    out.push_str("\"\"\"\n")?;
    write_block_lines(out, text, inside)?;
    write_spaces(out, margin)?;
    out.push_str(QUOTES)
}
