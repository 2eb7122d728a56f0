//! Formatting queries.
mod definition;
mod display;
mod levels;
mod operation;
mod selection;
mod width;

ghost use Rattle.std.specs.Prelude.{◌≡◌, ◌↔◌, IfOk, OnOk, IsErrOf, string_bytes};
ghost use Rattle.graphql_query.specs.{ParsesBackTo, IsPrintable, IsWellFormedDocument, DocumentTree, document_view};
ghost use Rattle.graphql_query.specs.{erase};
ghost use Rattle.graphql_query.specs.{layout, IsTooWide};

use crate::print::width::is_document_too_wide;
use crate::tree::Document;
use graphql_core::common::Names;
use graphql_core::format::print::Pretty;
use graphql_core::format::{Buffer, FormatError, Style};
use std::alloc::Global;

impl<N: Names> Document<N> {
    /// Returns the document formatted in a style.
    ///
    /// `TooWide` means that the levels open at once take more than `u32::MAX` spaces. It is decided before any
    /// allocation. `OutOfMemory` means that an allocation failed.
    pub fn format(&self, alloc: Global, style: &Style) -> Result<String, FormatError>
        ensures text { IfOk result (λ text. string_bytes text ≡ layout style.now (document_view N.bytes self.now)) }
        // The output of a printable document parses back to it, ignoring positions.
        ensures parses_back { IfOk result (λ text. IsPrintable (document_view N.bytes self.now)
            → ParsesBackTo (string_bytes text) (document_view N.bytes self.now)) }
        // If this document is printable, each printable one with this output in this style is equal to it, ignoring
        // positions. The values of the other one must satisfy the invariants of their types.
        ensures one_document { IfOk result (λ text. IsPrintable (document_view N.bytes self.now)
            → (e : DocumentTree) → IsPrintable e → IsWellFormedDocument e → layout style.now e ≡ string_bytes text
            → erase e ≡ erase (document_view N.bytes self.now)) }
        // The values satisfy the invariants of their types, which theorems about formatted documents require.
        ensures well_formed { OnOk result (IsWellFormedDocument (document_view N.bytes self.now)) }
        ensures too_wide { IsErrOf result FormatError.TooWide ↔ IsTooWide style.now (document_view N.bytes self.now) }
    {
        if is_document_too_wide(self, style) {
            return Err(FormatError::TooWide);
        }
        let mut text = Buffer::new(alloc);
        self.write(&mut text, style, 0)?;
        Ok(text.into_string())
    }
}
