//! Block strings that `write_block` of graphql_core is not proved for.
ghost use Rattle.std.specs.Prelude.{◌≡◌, true, string_bytes, IfOk, MatchOption};
ghost use Rattle.graphql_core.specs.{block_string_of};
ghost use Rattle.graphql_fmt.specs.{IsBlockString};
ghost use Rattle.graphql_fmt.specs.steps.Joining.{HasSameBlock};

use graphql_core::common::{MAX_LENGTH, unquote_block_string};
use graphql_core::format::print::{write_block, write_spaces};
use graphql_core::tokenizer::{ElementKind, Kind};
use graphql_standard::tokenizer::first_element;
use std::alloc::{AllocError, Global};

/// Whether the whole text is a block string.
fn is_block_string(text: &str) -> bool
    ensures { result ≡ true → IsBlockString text.now }
{
    if text.len() > MAX_LENGTH {
        return false;
    }
    match first_element(text) {
        Some(element) => match element.kind {
            ElementKind::Token(Kind::BlockString) => element.rest.is_empty(),
            _ => false,
        },
        None => false,
    }
}

/// Whether two block strings have the same value.
fn have_same_value(alloc: Global, first: &str, second: &str) -> Result<bool, AllocError>
    requires first { IsBlockString first.now }
    requires second { IsBlockString second.now }
    ensures { IfOk result (λ b. b ≡ true → block_string_of first.now ≡ block_string_of second.now) }
{
    let first = unquote_block_string(alloc, first)?;
    let second = unquote_block_string(alloc, second)?;
    Ok(first == second)
}

/// This text, if it is a block string of the same value as `spelling`.
fn if_same_value(alloc: Global, text: String, spelling: &str) -> Result<Option<String>, AllocError>
    requires { IsBlockString spelling.now }
    ensures { IfOk result (λ found. MatchOption found (Unit {0})
        (λ text. HasSameBlock spelling.now (string_bytes text))) }
{
    if is_block_string(&text) && have_same_value(alloc, &text, spelling)? {
        Ok(Some(text))
    } else {
        Ok(None)
    }
}

/// The block string with LF in place of each CR LF; `None` if it has none, or if its value would be another.
pub fn with_line_feeds(alloc: Global, spelling: &str) -> Result<Option<String>, AllocError>
    requires { IsBlockString spelling.now }
    ensures { IfOk result (λ found. MatchOption found (Unit {0})
        (λ text. HasSameBlock spelling.now (string_bytes text))) }
{
    if !spelling.contains("\r\n") {
        return Ok(None);
    }
    let text = spelling.replace(alloc, "\r\n", "\n")?;
    if_same_value(alloc, text, spelling)
}

/// A block string of this value, each line with `margin` spaces. An empty value has no line.
fn block_with_margin(alloc: Global, value: &str, margin: usize) -> Result<String, AllocError> {
    let mut text = String::new(alloc);
    if value.is_empty() {
        text.push_str("\"\"\"\n")?;
        write_spaces(&mut text, margin)?;
        text.push_str("\"\"\"")?;
    } else {
        write_block(&mut text, value, margin, margin)?;
    }
    Ok(text)
}

/// The block string, which has this value, with `margin` spaces before each line; `None` if its value would be another.
pub fn with_margin(
    alloc: Global,
    spelling: &str,
    value: &str,
    margin: usize,
) -> Result<Option<String>, AllocError>
    requires { IsBlockString spelling.now }
    ensures { IfOk result (λ found. MatchOption found (Unit {0})
        (λ text. HasSameBlock spelling.now (string_bytes text))) }
{
    let text = block_with_margin(alloc, value, margin)?;
    if_same_value(alloc, text, spelling)
}
