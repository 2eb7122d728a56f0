//! What each call does with its bytes.
ghost use Rattle.std.specs.Prelude.{◌≡◌, ◌<◌, ◌≤◌, ◌++◌, ℕ, List, length, take, string_bytes, Ok, Some, None};
ghost use Rattle.std.specs.Prelude.{IfOk, IfSome, MatchResult, IsErrAnd};
ghost use Rattle.std.specs.Str.{IsUtf8};
ghost use Rattle.graphql_core.specs.{IsDocumentOf, max_length, out_of_memory};
ghost use Rattle.graphql_query.specs.{queries, IsMinifyErrorOf};
ghost use Rattle.graphql_query.specs.Tree as query;
ghost use Rattle.graphql_schema.specs.{schemas};
ghost use Rattle.graphql_schema.specs.Views as schema;
ghost use Rattle.graphql_c.specs.{Fails, HasNumbers, alone, layout_status, layout_in, status_of, IsAllowed, IsFormattedQuery};
ghost use Rattle.graphql_c.specs.{IsFormattedSchema, IsQueryChecked, IsSchemaChecked, IsQueryJson, IsSchemaJson};
ghost use Rattle.graphql_c.specs.{IsMinifiedInput, HasNoQuery, HasNoSchema, HasNoFirst, IsQueryTooWide};
ghost use Rattle.graphql_c.specs.{IsSchemaTooWide, EndsAt, EndsWithin};

use crate::failure::Failure;
use graphql_core::common::Cause;
use graphql_core::format::{FormatError, Style};
use graphql_json::{query_to_json, schema_to_json};
use graphql_query::{Document as QueryDocument, consume_definition, minify_query, parse_query};
use graphql_schema::{Document as SchemaDocument, parse_schema};
use std::alloc::{AllocError, Global};
use std::str;

/// The length in bytes of the first prefix of the input that is searched for a definition.
const FIRST_LENGTH: usize = 4096;

/// The style with `indent` spaces for each level. If `multiline` is true, each argument, list item and object field has
/// a line.
pub fn style_in(indent: u32, multiline: bool) -> Style
    ensures { result ≡ layout_in indent multiline }
{
    let mut style = Style::default();
    style.indent(indent).multiline_arguments(multiline);
    style
}

/// The bytes as a string, if they are UTF-8.
pub fn text_of(alloc: Global, bytes: &[u8]) -> Result<&str, Failure>
    ensures { MatchResult result (λ text. (text.now ≡ bytes.now) × IsUtf8 bytes.now) (Fails (λ e. ⊥) ⊥ bytes.now) }
{
    match str::from_utf8(bytes) {
        Ok(text) => Ok(text),
        Err(_) => Err(Failure::not_utf8(alloc)),
    }
}

/// The formatted document, or the failure to format it.
fn output_of(alloc: Global, made: Result<String, FormatError>) -> Result<String, Failure>
    ensures { MatchResult made (λ s. result ≡ Ok s) (λ e. IsErrAnd result (HasNumbers (alone (layout_status e)))) }
{
    match made {
        Ok(output) => Ok(output),
        Err(error) => Err(Failure::no_layout(alloc, &error)),
    }
}

/// The JSON of a document, or the failure to write it.
fn json_of(alloc: Global, made: Result<String, AllocError>) -> Result<String, Failure>
    ensures { MatchResult made (λ s. result ≡ Ok s) (λ e. IsErrAnd result (HasNumbers (alone (status_of out_of_memory)))) }
{
    match made {
        Ok(json) => Ok(json),
        Err(_) => Err(Failure::out_of_memory(alloc)),
    }
}

/// Parses these bytes as a query document.
fn query_of(alloc: Global, bytes: &[u8]) -> Result<QueryDocument<'_, &str>, Failure>
    ensures { MatchResult result
        (λ d. IsAllowed bytes.now × IsDocumentOf queries bytes.now (query.document_view (λ name. name.now) d))
        (Fails (HasNoQuery bytes.now) ⊥ bytes.now) }
{
    match parse_query(alloc, text_of(alloc, bytes)?) {
        Ok(document) => Ok(document),
        Err(error) => Err(Failure::rejected(alloc, error.cause(), error.position(), &error)),
    }
}

/// Parses these bytes as a schema document.
fn schema_of(alloc: Global, bytes: &[u8]) -> Result<SchemaDocument<'_, &str>, Failure>
    ensures { MatchResult result
        (λ d. IsAllowed bytes.now × IsDocumentOf schemas bytes.now (schema.document_view (λ name. name.now) d))
        (Fails (HasNoSchema bytes.now) ⊥ bytes.now) }
{
    match parse_schema(alloc, text_of(alloc, bytes)?) {
        Ok(document) => Ok(document),
        Err(error) => Err(Failure::rejected(alloc, error.cause(), error.position(), &error)),
    }
}

/// Parses these bytes as a query document, and formats it without comments.
pub fn normalize_query(alloc: Global, bytes: &[u8], style: &Style) -> Result<String, Failure>
    ensures { MatchResult result (λ s. IsFormattedQuery style.now bytes.now (string_bytes s))
        (Fails (HasNoQuery bytes.now) (IsQueryTooWide style.now bytes.now) bytes.now) }
{
    let document = query_of(alloc, bytes)?;
    output_of(alloc, document.format(alloc, style))
}

/// Parses these bytes as a schema document, and formats it without comments.
pub fn normalize_schema(alloc: Global, bytes: &[u8], style: &Style) -> Result<String, Failure>
    ensures { MatchResult result (λ s. IsFormattedSchema style.now bytes.now (string_bytes s))
        (Fails (HasNoSchema bytes.now) (IsSchemaTooWide style.now bytes.now) bytes.now) }
{
    let document = schema_of(alloc, bytes)?;
    output_of(alloc, document.format(alloc, style))
}

/// Parses these bytes as a query document. The output is empty.
pub fn query_checked(alloc: Global, bytes: &[u8]) -> Result<String, Failure>
    ensures { MatchResult result (λ s. IsQueryChecked bytes.now (string_bytes s))
        (Fails (HasNoQuery bytes.now) ⊥ bytes.now) }
{
    query_of(alloc, bytes)?;
    Ok(String::new(alloc))
}

/// Parses these bytes as a schema document. The output is empty.
pub fn schema_checked(alloc: Global, bytes: &[u8]) -> Result<String, Failure>
    ensures { MatchResult result (λ s. IsSchemaChecked bytes.now (string_bytes s))
        (Fails (HasNoSchema bytes.now) ⊥ bytes.now) }
{
    schema_of(alloc, bytes)?;
    Ok(String::new(alloc))
}

/// Parses these bytes as a query document, and writes it as JSON.
pub fn query_as_json(alloc: Global, bytes: &[u8]) -> Result<String, Failure>
    ensures { MatchResult result (λ s. IsQueryJson bytes.now (string_bytes s))
        (Fails (HasNoQuery bytes.now) ⊥ bytes.now) }
{
    let document = query_of(alloc, bytes)?;
    json_of(alloc, query_to_json(alloc, &document))
}

/// Parses these bytes as a schema document, and writes it as JSON.
pub fn schema_as_json(alloc: Global, bytes: &[u8]) -> Result<String, Failure>
    ensures { MatchResult result (λ s. IsSchemaJson bytes.now (string_bytes s))
        (Fails (HasNoSchema bytes.now) ⊥ bytes.now) }
{
    let document = schema_of(alloc, bytes)?;
    json_of(alloc, schema_to_json(alloc, &document))
}

/// The tokens of these bytes, with a space only between two that are not punctuators, and between a number and `...`.
pub fn minified(alloc: Global, bytes: &[u8]) -> Result<String, Failure>
    ensures { MatchResult result (λ s. IsMinifiedInput bytes.now (string_bytes s))
        (Fails (IsMinifyErrorOf bytes.now) ⊥ bytes.now) }
{
    let Ok(source) = String::from_str(alloc, text_of(alloc, bytes)?) else {
        return Err(Failure::out_of_memory(alloc));
    };
    match minify_query(alloc, source) {
        Ok(output) => Ok(output),
        Err(error) => Err(Failure::rejected(alloc, error.cause(), error.position(), &error)),
    }
}

/// The longest prefix of these bytes that is UTF-8.
fn valid_front(bytes: &[u8]) -> &str
    ensures front { result.now ≡ take (length result.now) bytes.now }
    ensures longest { (front more : List ℕ) → bytes.now ≡ front ++ more → IsUtf8 front
        → length front ≤ length result.now }
{
    match str::from_utf8(bytes) {
        Ok(text) => text,
        Err(error) => unsafe { str::from_utf8_unchecked(bytes.split_at(error.valid_up_to()).0) },
    }
}

/// The offset of the rest in every source that begins with this prefix: after the first definition and the ignored
/// tokens behind it. `None` if the offset may depend on what follows the prefix. An error means that an allocation
/// failed.
fn end_within(alloc: Global, front: &str) -> Result<Option<usize>, Failure>
    ensures sound { MatchResult result (λ end. IfSome end (λ n. (more : List ℕ) → EndsAt (front.now ++ more) n))
        (HasNumbers (alone (status_of out_of_memory))) }
    ensures complete { (n : ℕ) → length front.now ≤ max_length → EndsAt front.now n → n < length front.now
        → IfOk result (λ end. end ≡ Some n) }
{
    match consume_definition::<&str>(alloc, front) {
        Ok((_, rest)) if rest.is_empty() => Ok(None),
        Ok((_, rest)) => Ok(Some(front.len() - rest.len())),
        Err(error) => match error.cause() {
            Cause::OutOfMemory => Err(Failure::out_of_memory(alloc)),
            _ => Ok(None),
        },
    }
}

/// The offset of the rest of a source, after its first definition and the ignored tokens behind it.
fn end_of(alloc: Global, text: &str) -> Result<usize, Failure>
    ensures sound { MatchResult result (EndsAt text.now) (Fails (HasNoFirst text.now) ⊥ text.now) }
    ensures complete { (n : ℕ) → length text.now ≤ max_length → EndsAt text.now n
        → MatchResult result (λ end. end ≡ n) (HasNumbers (alone (status_of out_of_memory))) }
{
    match consume_definition::<&str>(alloc, text) {
        Ok(first) => Ok(text.len() - first.1.len()),
        Err(error) => Err(Failure::rejected(alloc, error.cause(), error.position(), &error)),
    }
}

/// The offset of the rest of these bytes, after their first definition and the ignored tokens behind it. Prefixes of
/// 4,096 bytes, 8,192 and so on are tried. So the time grows with the offset, and with the length only after an error.
pub fn first_end(alloc: Global, bytes: &[u8]) -> Result<usize, Failure>
    ensures sound { MatchResult result (EndsAt bytes.now) (Fails (HasNoFirst bytes.now) ⊥ bytes.now) }
    ensures shown { (n : ℕ) → length bytes.now ≤ max_length → EndsWithin bytes.now n
        → MatchResult result (λ end. end ≡ n) (HasNumbers (alone (status_of out_of_memory))) }
{
    let mut length = FIRST_LENGTH;
    'fronts: while length < bytes.len() {
        if let Some(end) = end_within(alloc, valid_front(bytes.split_at(length).0))? {
            return Ok(end);
        }
        length = length.saturating_mul(2);
    }
    match str::from_utf8(bytes) {
        Ok(text) => end_of(alloc, text),
        Err(_) => match end_within(alloc, valid_front(bytes))? {
            Some(end) => Ok(end),
            None => Err(Failure::not_utf8(alloc)),
        },
    }
}
