//! Values of strings in quotes (GraphQL, October 2021, section 2.9.4).
ghost use Rattle.std.specs.Prelude.{◌≡◌, ◌≢◌, ◌<◌, ℕ, List, slice_index, true, length, IfOk, IfSome, IfNone, SomeIff};
ghost use Rattle.std.specs.Prelude.{IsErrOf, string_bytes};
ghost use Rattle.std.specs.Char.{is_ascii_hexdigit};
ghost use Rattle.std.specs.List.{list_all};
ghost use Rattle.std.specs.Str.Parse.{digits_value};
ghost use Rattle.graphql_core.specs.{HasValue, HasNoStringValue, IsInQuotes, BeginsEscape, BeginsNoEscape};
ghost use Rattle.graphql_core.specs.{BeginsName, BeginsNoName};
ghost use Rattle.graphql_core.specs.declared.common.strings.error.UnquoteError.TheVariants.{BadEscape};

use crate::common::strings::error::UnquoteError;
use crate::tokenizer::run::{NoBackslash, class_prefix_len};
use std::alloc::Global;

fn are_hexadecimal(digits: &str) -> bool
    ensures { result ≡ list_all is_ascii_hexdigit digits.now }
{
    digits.bytes().all(|digit| digit.is_ascii_hexdigit())
}

/// The value of four hexadecimal digits, or `None` if one is no hexadecimal digit.
fn hexadecimal(digits: &str) -> Option<u32>
    requires { length digits.now ≡ 4 }
    ensures { SomeIff result (list_all is_ascii_hexdigit digits.now ≡ true) (digits_value 16 digits.now) }
{
    if !are_hexadecimal(digits) {
        return None;
    }
    u32::from_str_radix(digits, 16).ok()
}

/// The character whose code is in the four hexadecimal digits at the front, and the rest.
fn named_character(text: &str) -> Option<(char, &str)>
    ensures names { IfSome result (λ r. BeginsName text.now r.0 r.1.now) }
    ensures none { IfNone result (BeginsNoName text.now) }
{
    let (digits, after) = text.split_at_checked(4)?;
    let code = hexadecimal(digits)?;
    let character = char::from_u32(code)?;
    Some((character, after))
}

/// The character that an escape denotes, and the rest. `text` begins after the backslash.
fn escape(text: &str) -> Option<(char, &str)>
    ensures escapes { IfSome result (λ r. BeginsEscape text.now r.0 r.1.now) }
    ensures none { IfNone result (BeginsNoEscape text.now) }
{
    let mut characters = text.chars();
    let character = match characters.next()? {
        '"' => '"',
        '\\' => '\\',
        '/' => '/',
        'b' => '\u{8}',
        'f' => '\u{C}',
        'n' => '\n',
        'r' => '\r',
        't' => '\t',
        'u' => return named_character(characters.as_str()),
        _ => return None,
    };
    Some((character, characters.as_str()))
}

/// Whether a string has no backslash, and so no escape.
#[inline(always)]
pub fn has_no_backslash(text: &str) -> bool
    ensures { result ≡ true → (i : ℕ) → i < length text.now → slice_index text.now i ≢ 92 }
{
    class_prefix_len::<NoBackslash>(text.as_bytes()) == text.len()
}

/// Returns the value of a string in quotes (GraphQL, October 2021, section 2.9.4).
///
/// `text` must begin and end with a quote, and have at least two bytes. It need not be a token: a quote or a line end
/// between these two is part of the value. The error is `BadEscape` if an escape denotes no character, and
/// `OutOfMemory` if an allocation fails.
pub fn unquote_string(alloc: Global, text: &str) -> Result<String, UnquoteError>
    requires { (body : List ℕ) × IsInQuotes text.now body }
    ensures value { (body : List ℕ) → IsInQuotes text.now body → IfOk result (λ s. HasValue body (string_bytes s)) }
    // A string has at most one value.
    ensures only { (body v : List ℕ) → IsInQuotes text.now body → HasValue body v
        → IfOk result (λ s. v ≡ string_bytes s) }
    ensures bad_escape { (body : List ℕ) → IsInQuotes text.now body → IsErrOf result BadEscape → HasNoStringValue body }
{
    let mut rest = &text[1..text.len() - 1];
    if has_no_backslash(rest) {
        return Ok(String::from_str(alloc, rest)?);
    }
    // The value is at most as long as the content.
    let mut value = String::with_capacity(alloc, rest.len())?;
    'escapes: while let Some((plain, escaped)) = rest.split_once('\\') {
        let (character, after) = escape(escaped).ok_or(UnquoteError::BadEscape)?;
        value.push_str(plain)?;
        value.push(character)?;
        rest = after;
    }
    value.push_str(rest)?;
    Ok(value)
}
