//! The library for C: each function takes bytes and writes bytes. `include/graphql_proved.h` declares the functions,
//! and `docs/FROM_C.md` shows how to call them.
//!
//! In C a `Global` is no parameter, and a slice is two: a pointer, which must never be null, and a length. The header
//! has a function for each whose name here ends in `_nonnull`. It also takes null pointers with a length of 0.
#![tactic(auto)]

ghost use Rattle.std.specs.Prelude.{◌≡◌, ◌≢◌, ◌⊎◌, ◌*◌, ◌≤◌, ℕ, length};
ghost use Rattle.graphql_core.specs.{max_length, out_of_memory};
ghost use Rattle.graphql_query.specs.{IsMinifyErrorOf};
ghost use Rattle.graphql_c.specs.{ReturnsBy, source_numbers, IsFormattedSource, IsRejectedSource, HasErrorList};
ghost use Rattle.graphql_c.specs.{Returns, Writes, Finds, layout_in, IsFormattedQuery, IsFormattedSchema};
ghost use Rattle.graphql_c.specs.{IsQueryChecked};
ghost use Rattle.graphql_c.specs.{IsSchemaChecked, IsQueryJson, IsSchemaJson, IsMinifiedInput, HasNoQuery, HasNoSchema};
ghost use Rattle.graphql_c.specs.{HasNoFirst, IsQueryTooWide, IsSchemaTooWide, EndsAt, EndsWithin, for_offset};
ghost use Rattle.graphql_c.specs.{status_of, status_name, status_too_short, with_zeros};

mod call_result;
mod calls;
mod errors;
mod failure;
mod names;
mod sources;
mod status;

pub use call_result::CallResult;
use call_result::{of_offset, of_output};
pub use names::{StatusName, Version};
use std::alloc::Global;

/// Formats a source into `out`, and keeps its comments, with `indent` spaces for each level. The source is a document of
/// the specification of September 2025 with at most 1,000 open brackets, or a document that `check_query` or
/// `check_schema` accepts, or has no token. Lines have at most `width` columns where they can be broken.
#[unsafe(no_mangle)]
pub extern "C" fn graphql_proved_format_source_nonnull(
    alloc: Global,
    text: &[u8],
    indent: u32,
    width: u32,
    out: &mut [u8],
) -> CallResult
    ensures { ReturnsBy source_numbers (Writes (IsFormattedSource text.now)) (IsRejectedSource text.now) ⊥ text.now
        out.old out.new result }
{
    let options = sources::options_of(indent, width);
    of_output(out, sources::format_source(alloc, text, &options))
}

/// Writes the errors of a source into `out` as a JSON array, at most `max_errors`, or all of them for 0. It is empty for
/// a source that `format_source` formats.
#[unsafe(no_mangle)]
pub extern "C" fn graphql_proved_check_nonnull(
    alloc: Global,
    text: &[u8],
    max_errors: usize,
    out: &mut [u8],
) -> CallResult
    ensures { Returns (Writes (HasErrorList max_errors text.now)) (λ e. ⊥) ⊥ text.now out.old out.new result }
{
    of_output(out, sources::checked(alloc, text, max_errors))
}

/// Formats a query document (October 2021, section 2.2) into `out`, without its comments, with `indent` spaces for each level. If `multiline`
/// is true, each argument, list item and object field has a separate line.
#[unsafe(no_mangle)]
pub extern "C" fn graphql_proved_normalize_query_nonnull(
    alloc: Global,
    text: &[u8],
    indent: u32,
    multiline: bool,
    out: &mut [u8],
) -> CallResult
    ensures { Returns (Writes (IsFormattedQuery (layout_in indent multiline) text.now)) (HasNoQuery text.now)
        (IsQueryTooWide (layout_in indent multiline) text.now) text.now out.old out.new result }
{
    let style = calls::style_in(indent, multiline);
    of_output(out, calls::normalize_query(alloc, text, &style))
}

/// Formats a schema document (section 3) into `out`, without its comments, with `indent` spaces for each level. If `multiline` is true, each
/// argument, list item and object field has a separate line.
#[unsafe(no_mangle)]
pub extern "C" fn graphql_proved_normalize_schema_nonnull(
    alloc: Global,
    text: &[u8],
    indent: u32,
    multiline: bool,
    out: &mut [u8],
) -> CallResult
    ensures { Returns (Writes (IsFormattedSchema (layout_in indent multiline) text.now)) (HasNoSchema text.now)
        (IsSchemaTooWide (layout_in indent multiline) text.now) text.now out.old out.new result }
{
    let style = calls::style_in(indent, multiline);
    of_output(out, calls::normalize_schema(alloc, text, &style))
}

/// Writes the tokens of the input into `out`, with a space only between two that are not punctuators, and between a
/// number and `...`.
#[unsafe(no_mangle)]
pub extern "C" fn graphql_proved_minify_nonnull(
    alloc: Global,
    text: &[u8],
    out: &mut [u8],
) -> CallResult
    ensures returned { Returns (Writes (IsMinifiedInput text.now)) (IsMinifyErrorOf text.now) ⊥ text.now
        out.old out.new result }

    // A buffer of twice the length of the input is never too short.
    ensures enough { 2 * length text.now ≤ length out.old → result.status ≢ status_too_short }
{
    of_output(out, calls::minified(alloc, text))
}

/// Finds the end of the first definition (section 2.2) and of the ignored tokens behind it. The rest can be any bytes.
#[unsafe(no_mangle)]
pub extern "C" fn graphql_proved_first_definition_nonnull(
    alloc: Global,
    text: &[u8],
    out: &mut [u8],
) -> CallResult
    ensures returned { Returns (Finds (EndsAt text.now)) (HasNoFirst text.now) ⊥ text.now out.old out.new result }

    // If some prefix of the input is UTF-8 and has a rest, the result is where this rest begins, whatever follows the
    // prefix, or the call returns out of memory.
    ensures shown { (n : ℕ) → length text.now ≤ max_length → EndsWithin text.now n
        → (result ≡ for_offset n) ⊎ (result.status ≡ status_of out_of_memory) }
{
    of_offset(out, calls::first_end(alloc, text))
}

/// Checks that the input is a query document (section 2.2). Nothing is written into `out` except a message.
#[unsafe(no_mangle)]
pub extern "C" fn graphql_proved_check_query_nonnull(
    alloc: Global,
    text: &[u8],
    out: &mut [u8],
) -> CallResult
    ensures { Returns (Writes (IsQueryChecked text.now)) (HasNoQuery text.now) ⊥ text.now out.old out.new result }
{
    of_output(out, calls::query_checked(alloc, text))
}

/// Checks that the input is a schema document (section 3). Nothing is written into `out` except a message.
#[unsafe(no_mangle)]
pub extern "C" fn graphql_proved_check_schema_nonnull(
    alloc: Global,
    text: &[u8],
    out: &mut [u8],
) -> CallResult
    ensures { Returns (Writes (IsSchemaChecked text.now)) (HasNoSchema text.now) ⊥ text.now out.old out.new result }
{
    of_output(out, calls::schema_checked(alloc, text))
}

/// Writes a query document (section 2.2) into `out` as JSON, in the form of the AST of graphql-js.
#[unsafe(no_mangle)]
pub extern "C" fn graphql_proved_query_to_json_nonnull(
    alloc: Global,
    text: &[u8],
    out: &mut [u8],
) -> CallResult
    ensures { Returns (Writes (IsQueryJson text.now)) (HasNoQuery text.now) ⊥ text.now out.old out.new result }
{
    of_output(out, calls::query_as_json(alloc, text))
}

/// Writes a schema document (section 3) into `out` as JSON, in the form of the AST of graphql-js.
#[unsafe(no_mangle)]
pub extern "C" fn graphql_proved_schema_to_json_nonnull(
    alloc: Global,
    text: &[u8],
    out: &mut [u8],
) -> CallResult
    ensures { Returns (Writes (IsSchemaJson text.now)) (HasNoSchema text.now) ⊥ text.now out.old out.new result }
{
    of_output(out, calls::schema_as_json(alloc, text))
}

/// The name of the status with this number, as the header has it after `GRAPHQL_PROVED_`, with zero bytes behind it.
/// Only zero bytes if no status has this number.
#[unsafe(no_mangle)]
pub extern "C" fn graphql_proved_status_name(status: u32) -> StatusName
    ensures { result.text ≡ with_zeros (status_name status) }
{
    names::status_name(status)
}

/// The version of the library.
#[unsafe(no_mangle)]
pub extern "C" fn graphql_proved_version() -> Version
    ensures { result ≡ record { major = 0; minor = 1; patch = 0 } }
{
    Version {
        major: 0,
        minor: 1,
        patch: 0,
    }
}
