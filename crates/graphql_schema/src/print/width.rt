//! Whether a document is too wide. In most styles no document is, and its levels are not counted.
ghost use Rattle.std.specs.Prelude.{◌↔◌, IsTrue};
ghost use Rattle.graphql_schema.specs.{IsTooWide, DocumentTree, document_view};

use crate::tree::Document;
use graphql_core::common::Names;
use graphql_core::format::Style;
use graphql_core::format::print::{Pretty, is_too_wide};

/// The most levels that a document opens at once if arguments are on one line: a block, and a block string in it.
const MOST_LEVELS: usize = 2;

/// Whether no document is too wide in a style. Returns `false` for a style with multi-line arguments.
fn is_never_too_wide(style: &Style) -> bool
    ensures { IsTrue result → (d : DocumentTree) → IsTooWide style.now d → ⊥ }
{
    if style.has_multiline_arguments() {
        return false;
    }
    !is_too_wide(MOST_LEVELS, style)
}

/// Whether a document is too wide in a style. Its levels are counted only if some document can be too wide.
pub fn is_document_too_wide<N: Names>(document: &Document<N>, style: &Style) -> bool
    ensures { IsTrue result ↔ IsTooWide style.now (document_view N.bytes document.now) }
{
    if is_never_too_wide(style) {
        return false;
    }
    is_too_wide(document.levels(style), style)
}
