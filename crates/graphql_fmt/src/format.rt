//! The calls of the library.
ghost use Rattle.std.specs.Prelude.{◌≡◌, ◌≢◌, false, ◌≤◌, ◌/◌, ◌↔◌, ◌⊎◌, List, ℕ, length, IfOk, IfErr, IfSome};
ghost use Rattle.std.specs.Prelude.{IsTrue, MatchOption, string_bytes};
ghost use Rattle.graphql_core.specs.{cause_text, max_length, no_memory};
ghost use Rattle.graphql_query.specs.{queries};
ghost use Rattle.graphql_schema.specs.{schemas};
ghost use Rattle.graphql_standard.specs.declared.error.CheckError.TheVariants.{OutOfMemory};
ghost use Rattle.graphql_fmt.specs.{HasNoToken, KeepsAll, AcceptsDocuments, HasSameDocuments, IsTidy, ParsesTo};
ghost use Rattle.graphql_fmt.specs.{IsParsedDocument, IsStandardDocument, HasSourceErrors};
ghost use Rattle.graphql_fmt.specs.steps.Pieces.{ArePieces, ArePiecesOf};

use crate::layout::gaps;
use crate::options::FormatOptions;
use crate::pieces::{Piece, checked_pieces, joined, pieces_of};
use graphql_core::common::{Cause, MAX_LENGTH};
use graphql_core::tokenizer::Tokens;
use graphql_parser::{parse_query, parse_schema};
use graphql_standard::{CheckError, check, check_all};
use std::alloc::{AllocError, Global};

/// How many brackets can be open in a document of September 2025 that [`format_source`] accepts.
pub const MAX_OPEN_BRACKETS: usize = 1000;

/// Whether an allocation failed.
fn is_out_of_memory(cause: &Cause) -> bool
    ensures { result ≡ false → cause_text cause.now ≢ no_memory.cause }
{
    matches!(cause, Cause::OutOfMemory)
}

/// Whether `parse_query` accepts the source.
fn is_query(alloc: Global, source: &str) -> Result<bool, AllocError>
    ensures { IfOk result (λ is. IsTrue is ↔ (length source.now ≤ max_length) × ParsesTo queries source.now) }
{
    match parse_query::<&str>(alloc, source) {
        Ok(_document) => Ok(true),
        Err(error) if is_out_of_memory(error.cause()) => Err(AllocError),
        Err(_) => Ok(false),
    }
}

/// Whether `parse_schema` accepts the source.
fn is_schema(alloc: Global, source: &str) -> Result<bool, AllocError>
    ensures { IfOk result (λ is. IsTrue is ↔ (length source.now ≤ max_length) × ParsesTo schemas source.now) }
{
    match parse_schema::<&str>(alloc, source) {
        Ok(_document) => Ok(true),
        Err(error) if is_out_of_memory(error.cause()) => Err(AllocError),
        Err(_) => Ok(false),
    }
}

/// Whether a parser of `graphql_parser` accepts the source.
fn is_parsed(alloc: Global, source: &str) -> Result<bool, AllocError>
    ensures { IfOk result (λ is. IsTrue is ↔ (length source.now ≤ max_length) × IsParsedDocument source.now) }
{
    if is_query(alloc, source)? {
        return Ok(true);
    }
    is_schema(alloc, source)
}

/// The pieces of a document of `graphql_parser`. The error is this one if the source is no such document, or out of
/// memory.
fn parsed_pieces<'a>(
    alloc: Global,
    source: &'a str,
    error: CheckError,
) -> Result<Vec<Piece<'a>>, CheckError>
    ensures pieces { IfOk result (λ v. ArePiecesOf source.now v.items × ArePieces v.items) }
    ensures parsed { IfOk result (λ v. (length source.now ≤ max_length) × IsParsedDocument source.now) }
    ensures error { IfErr result (λ e. (e ≡ OutOfMemory)
        ⊎ ((e ≡ error) × (length source.now ≤ max_length → IsParsedDocument source.now → ⊥))) }
{
    if !is_parsed(alloc, source)? {
        return Err(error);
    }
    match pieces_of(alloc, source)? {
        Some(pieces) => Ok(pieces),
        // The input has been parsed, so it has no lexical error.
        None => unreachable!(),
    }
}

/// The pieces of a document.
fn document_pieces<'a>(alloc: Global, source: &'a str) -> Result<Vec<Piece<'a>>, CheckError>
    ensures pieces { IfOk result (λ v. ArePiecesOf source.now v.items × ArePieces v.items) }
    ensures accepts { AcceptsDocuments source.now result }
{
    match checked_pieces(alloc, source, MAX_OPEN_BRACKETS) {
        Err(CheckError::Syntax(error)) => parsed_pieces(alloc, source, CheckError::Syntax(error)),
        Err(CheckError::TooDeep(at)) => parsed_pieces(alloc, source, CheckError::TooDeep(at)),
        result => result,
    }
}

/// The pieces, written with gaps between them.
fn written(
    alloc: Global,
    options: &FormatOptions,
    pieces: &[Piece<'_>],
) -> Result<String, AllocError>
    requires { ArePieces pieces.now }
    ensures { IfOk result (λ text. (source : List ℕ) → ArePiecesOf source pieces.now
        → KeepsAll source (string_bytes text) × IsTidy (string_bytes text)) }
{
    let gaps = gaps(alloc, options, pieces)?;
    joined(alloc, pieces, &gaps)
}

/// Formats source text, and keeps its comments.
///
/// The input is a document of the GraphQL specification of September 2025 in which at most [`MAX_OPEN_BRACKETS`] brackets
/// are open. Documents that `parse_query` or `parse_schema` accepts are formatted too. `Syntax` is the first error of
/// any other input by this specification, and `TooDeep` a bracket that is one too many. `TooLong` means that the input
/// has more than `MAX_LENGTH` bytes, and `OutOfMemory` that an allocation failed.
pub fn format_source(
    alloc: Global,
    source: &str,
    options: &FormatOptions,
) -> Result<String, CheckError>
    // The output has the tokens and the comments of the input, in the same order, and no others: by the lexical grammar
    // of `graphql_core`, by that of September 2025, and by both together. Block strings are compared by value.
    ensures kept { IfOk result (λ output. KeepsAll source.now (string_bytes output)) }

    // The output begins with the first of them, and ends with one line feed. Between two of them it has nothing, a
    // space, a comma and a space, or a line feed, at most one empty line, and spaces.
    ensures tidy { IfOk result (λ output. IsTidy (string_bytes output)) }

    // Documents are formatted, and nothing else. Each field of `AcceptsDocuments` in `specs/Formatting.antt` is a
    // promise.
    ensures accepts { AcceptsDocuments source.now result }

    // The output has the parse trees of the input in the grammar of September 2025, and the documents that `parse_query`
    // and `parse_schema` return for the input.
    ensures same_document { IfOk result (λ output. HasSameDocuments source.now (string_bytes output)) }
{
    let pieces = document_pieces(alloc, source)?;
    let text = written(alloc, options, &pieces)?;
    Ok(text)
}

/// Whether an input has no token and no lexical error.
fn has_no_token(source: &str) -> bool
    requires { length source.now ≤ usize.MAX / 16 }
    ensures { IsTrue result ↔ HasNoToken source.now }
{
    matches!(Tokens::new(source).next_token(), Ok(None))
}

/// Formats source text that has no token, and keeps its comments. Such an input is no document, so [`format_source`]
/// rejects it.
///
/// `None` if the input has a token or a lexical error, or more than `MAX_LENGTH` bytes. An error means that an
/// allocation failed.
pub fn format_comments(
    alloc: Global,
    source: &str,
    options: &FormatOptions,
) -> Result<Option<String>, AllocError>
    // The output has the comments of the input, in the same order, and no token.
    ensures kept { IfOk result (λ found. MatchOption found
        (length source.now ≤ max_length → HasNoToken source.now → ⊥)
        (λ output. (length source.now ≤ max_length) × HasNoToken source.now
        × KeepsAll source.now (string_bytes output))) }

    // The output is empty, or it begins with a comment, and ends with one line feed. Only such gaps come between two
    // comments as between those of a document.
    ensures tidy { IfOk result (λ found. IfSome found (λ output. IsTidy (string_bytes output))) }
{
    if source.len() > MAX_LENGTH || !has_no_token(source) {
        return Ok(None);
    }
    match pieces_of(alloc, source)? {
        Some(pieces) => Ok(Some(written(alloc, options, &pieces)?)),
        // The input has no lexical error.
        None => unreachable!(),
    }
}

/// The errors of a source of at most `MAX_LENGTH` bytes that is no document of September 2025.
fn errors_unless_accepted(alloc: Global, source: &str) -> Result<Vec<CheckError>, AllocError>
    requires length { length source.now ≤ max_length }
    requires not_standard { IsStandardDocument source.now → ⊥ }
    ensures { IfOk result (λ errors. HasSourceErrors source.now errors.items) }
{
    if has_no_token(source) || is_parsed(alloc, source)? {
        return Ok(Vec::new(alloc));
    }
    check_all(alloc, source, MAX_OPEN_BRACKETS)
}

/// Returns the errors of a source: none, if [`format_source`] or [`format_comments`] accepts it. Otherwise its first error
/// by the specification of September 2025, and those after it. After an error checking begins again at the next
/// definition that begins a line. The only error of the call is out of memory.
pub fn check_source(alloc: Global, source: &str) -> Result<Vec<CheckError>, AllocError>
    ensures { IfOk result (λ errors. HasSourceErrors source.now errors.items) }
{
    match check(alloc, source, MAX_OPEN_BRACKETS) {
        Ok(()) => Ok(Vec::new(alloc)),
        Err(CheckError::OutOfMemory) => Err(AllocError),
        Err(CheckError::TooLong) => {
            let mut errors = Vec::new(alloc);
            errors.push(CheckError::TooLong)?;
            Ok(errors)
        }
        Err(_) => errors_unless_accepted(alloc, source),
    }
}
