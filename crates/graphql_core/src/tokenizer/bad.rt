//! Lexical errors at the start of the input.
ghost use Rattle.std.specs.Prelude.{◌≡◌, ◌<◌, length, drop, slice_index};
ghost use Rattle.std.specs.List.{list_any};
ghost use Rattle.std.specs.Str.{chars};
ghost use Rattle.graphql_core.specs.{bad_text};
ghost use Rattle.graphql_core.specs.lexical.Items as spec;

use crate::tokenizer::number::{run_len, starts_number};
use crate::tokenizer::quoted::begins_quotes;
use crate::tokenizer::token::Bad;

/// The first character of a nonempty input.
fn first_char(text: &str) -> char
    requires { 0 < length text.now }
    ensures { result ≡ slice_index (chars text.now) 0 }
{
    text.chars().next().unwrap()
}

fn is_float_character(byte: u8) -> bool
    ensures { result ≡ spec.is_float_character byte }
{
    matches!(byte, b'.' | b'e' | b'E')
}

/// Whether a run has a `.`, `e` or `E`.
fn has_float_character(run: &[u8]) -> bool
    ensures { result ≡ list_any spec.is_float_character run.now }
{
    run.iter().any(|b| is_float_character(*b))
}

/// The lexical error of a run that is not a number.
fn bad_number(run: &str) -> Bad<'_>
    ensures { bad_text result ≡ spec.bad_number run.now }
{
    if has_float_character(run.as_bytes()) {
        Bad::Float(run)
    } else {
        Bad::Integer(run)
    }
}

/// The lexical error of a nonempty input that begins with neither a token nor ignored text.
#[cold]
#[inline(never)]
fn bad_at_start(text: &str) -> Bad<'_>
    requires { 0 < length text.now }
    ensures { bad_text result ≡ spec.cause_at (slice_index text.now 0) (drop 1 text.now) }
{
    let bytes = text.as_bytes();
    let byte = bytes[0];
    if byte == b'.' {
        Bad::BareDot
    } else if starts_number(byte) {
        bad_number(text.split_at(run_len(bytes)).0)
    } else if byte != b'"' {
        Bad::Character(first_char(text))
    } else if begins_quotes(bytes) {
        Bad::UnterminatedBlockString
    } else {
        Bad::UnterminatedString
    }
}

/// The lexical error of a nonempty input that begins with neither a token nor ignored text. The call is apart, because a
/// function clears the memory for the results of its calls when it begins.
#[inline(always)]
pub fn bad_at(text: &str) -> Bad<'_>
    requires { 0 < length text.now }
    ensures { bad_text result ≡ spec.cause_at (slice_index text.now 0) (drop 1 text.now) }
{
    bad_at_start(text)
}
