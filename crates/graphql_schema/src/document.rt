//! Parsing whole documents.
ghost use Rattle.std.specs.Prelude.{◌≤◌, ◌≤ℤ◌, pos, length, IfOk};
ghost use Rattle.graphql_core.specs.{depth_of, next_place, max_length};
ghost use Rattle.graphql_core.specs.{ReturnsUnlessOutOfMemory, ParsesDocument, ParsesStream};
ghost use Rattle.graphql_schema.specs.{DocumentTree, document_view, IsPrintable, schemas, IsDocumentOf_0_4_1};
ghost use Rattle.graphql_schema.specs.{HasNoNewParts};

use crate::error::ParseError;
use crate::read::definitions;
use crate::tree::Document;
use graphql_core::common::read::document::{ReadDocument, parse, parse_from};
use graphql_core::common::read::node_error::NodeError;
use graphql_core::common::{Fault, Names, Text};
use graphql_core::helpers::{TokenSource, fault_of};
use graphql_core::tokenizer::TokenStream;
use std::alloc::Global;

impl<N: Names> ReadDocument<N> for Document<N> {
    ghost Tree = { DocumentTree };

    ghost language = { schemas };

    ghost view = { document_view N.bytes };

    fn read<S: TokenSource<Names = N>>(alloc: Global, source: &mut S) -> Result<Self, Fault> {
        let definitions = match definitions(alloc, source) {
            Ok(definitions) => definitions,
            Err(NodeError::Stopped(error)) => return Err(fault_of(alloc, source, error)),
            Err(NodeError::RejectedNode(node)) => return Err(node.fault()),
        };
        if source.is_at_end() {
            Ok(Document { definitions })
        } else {
            Err(source.fault(alloc))
        }
    }
}

/// Parses the source as a schema document (October 2021, section 3).
///
/// `TextTooLong` at 1:1 means more than `usize::MAX / 16` bytes, and is tested first. `OutOfMemory` means that an
/// allocation failed. Every other error describes the first token (or the end of the input) that is wrong. `BadToken`
/// means an invalid token, and `TooDeep` the 51st bracket that is open at once. `UnexpectedToken` and `UnexpectedEnd`
/// mean that no document can continue with the token, or end there. `IntOutOfRange`, `MalformedFloat` and `BadEscape`
/// mean an integer outside `i64`, a float whose exponent is only a sign (`1e+`), and an escape without a character.
/// `UnknownLocation` means a name that is not a directive location. `UnknownOperation` means an operation other than
/// `query`, `mutation` and `subscription`. `DuplicateOperation` means an operation that appears twice in the braces.
/// `EmptyExtension` means an extension that adds nothing, or an extension of an interface that adds only interfaces.
/// The last three are errors of the last token of a definition, and their position is that of the keyword `schema`, or
/// of the keyword after `extend`.
pub fn parse_schema<'a, S: Text<'a>>(
    alloc: Global,
    source: &'a str,
) -> Result<Document<S>, ParseError>
    // Parsing is sound, complete and unambiguous, and every error is the first error. Each field of `ParsesDocument` in
    // `specs/documents/Parsing.antt` of graphql_core is a promise.
    ensures parses { ParsesDocument schemas (document_view S.Names.bytes) source.now result }

    // Every input of at most `MAX_LENGTH` bytes that is valid in version 0.4.1 parses as it did there, or the call
    // returns `OutOfMemory`. The document has no part that was added since.
    ensures earlier { (d : DocumentTree) → length source.now ≤ max_length → IsDocumentOf_0_4_1 source.now d
        → HasNoNewParts d × ReturnsUnlessOutOfMemory (document_view S.Names.bytes) d result }

    // Every parsed document is printable.
    ensures printable { IfOk result (λ d. IsPrintable (document_view S.Names.bytes d)) }
{
    Ok(parse::<S, Document<S>>(alloc, source)?)
}

/// Parses the rest of a stream as a schema document, from its next token. The tokens before that one must not close
/// more brackets than they open.
///
/// The stream tokenizes each token at most once. After a document the stream is at its end. After an error only the
/// bound on its `cuts` is specified. The errors are those of `parse_schema`, except `TextTooLong`.
pub fn parse_schema_from<'a, S: Text<'a>>(
    alloc: Global,
    stream: &mut TokenStream<'a>,
) -> Result<Document<S>, ParseError>
    requires { pos 0 ≤ℤ depth_of (next_place stream.old.items) }
    // Parsing is sound, complete and unambiguous, every error is the first error, and no token is tokenized
    // twice. Each field of `ParsesStream` in `specs/documents/Parsing.antt` of graphql_core is a promise.
    ensures parses { ParsesStream schemas (document_view S.Names.bytes) stream.old stream.new result }
    // Every parsed document is printable.
    ensures printable { IfOk result (λ d. IsPrintable (document_view S.Names.bytes d)) }
{
    Ok(parse_from::<S, Document<S>>(alloc, stream)?)
}
