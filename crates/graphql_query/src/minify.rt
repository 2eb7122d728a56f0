//! Minifying: the tokens of a source, with a space between two tokens that are not punctuators, and between a number
//! and `...`.
ghost use Rattle.std.specs.Prelude.{◌<◌, ◌≤◌, ℕ, List, length, IfOk, IfErr, IsErrOf, string_bytes};
ghost use Rattle.graphql_core.specs.{HasTokens, HasItems, Item, split, IsMinified, max_length, too_long};
ghost use Rattle.graphql_core.specs.{ReturnsUnlessOutOfMemory};
ghost use Rattle.graphql_query.specs.{IsDocumentOf, ParsesBackTo, DocumentTree, IsMinifyErrorOf};

mod error;

pub use error::MinifyError;
use graphql_core::common::{Fault, MAX_LENGTH};
use graphql_core::helpers::minified;
use std::alloc::Global;

/// Returns the tokens of the source, joined. One space separates two tokens that are both not punctuators, and a number
/// from a following `...`.
///
/// `TextTooLong` at 1:1 means more than `usize::MAX / 16` bytes, and is tested first. `OutOfMemory` means that an
/// allocation failed. `BadToken` means an invalid token, and `TooDeep` an opening bracket before which 50 more brackets
/// open than close.
// Never inlined, since the time of its loop depends on where its code is placed.
#[inline(never)]
pub fn minify_query(alloc: Global, source: String) -> Result<String, MinifyError>
    // The output is the tokens of the source, with the spaces that separate them.
    ensures minified { IfOk result (λ text. IsMinified (string_bytes source) (string_bytes text)) }

    // The output has the tokens of the source, ignoring positions. Minifying is idempotent.
    ensures tokens { (items : List Item) → HasItems (string_bytes source) items
        → IfOk result (λ text. HasTokens (string_bytes text) (split items).tokens) }
    ensures again { IfOk result (λ text. IsMinified (string_bytes text) (string_bytes text)) }

    // The source and the output parse to the same document, ignoring positions, or both are no document.
    ensures document { IfOk result
        (λ text. (d : DocumentTree) → IsDocumentOf (string_bytes source) d → ParsesBackTo (string_bytes text) d) }
    ensures no_other { IfOk result
        (λ text. (d : DocumentTree) → IsDocumentOf (string_bytes text) d → ParsesBackTo (string_bytes source) d) }

    // Every source of at most `MAX_LENGTH` bytes without a lexical error is minified, or the call returns
    // `OutOfMemory`.
    ensures complete { (text : List ℕ) → length (string_bytes source) ≤ max_length
        → IsMinified (string_bytes source) text → ReturnsUnlessOutOfMemory string_bytes text result }

    // An error is the lexical error of the source, `TextTooLong` or `OutOfMemory`. A source that is too long is
    // rejected before any allocation.
    ensures first_error { IfErr result (IsMinifyErrorOf (string_bytes source)) }
    ensures too_long { max_length < length (string_bytes source) → IsErrOf result too_long }
{
    if source.len() > MAX_LENGTH {
        return Err(MinifyError::from(Fault::text_too_long()));
    }
    let text = minified(alloc, &source)?;
    Ok(text)
}
