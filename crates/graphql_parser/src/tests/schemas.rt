//! Schemas: the callers that docs/CALLING.md and docs/MIGRATING.md show.
ghost use Rattle.std.specs.Prelude.{IfOk, Err, ◌≡◌, ◌<◌, ◌⊎◌, length, string_bytes};
ghost use Rattle.graphql_core.specs.{ParseFailure, no_memory, max_length};
ghost use Rattle.graphql_schema.specs.{layout, IsTooWide, IsPrintable, erase, document_view};

use crate::common::Names;
use crate::schema::{Definition, Document, ObjectType, ParseError, parse_schema};
use crate::tests::page::Page;
use crate::{FormatError, Style};
use std::alloc::{AllocError, Global};

/// How many types a schema document defines.
fn count_types(alloc: Global, source: &str) -> Result<usize, ParseError> {
    let document: Document<'_, &str> = parse_schema(alloc, source)?;
    let mut count = 0usize;
    for definition in document.definitions.iter() {
        if let Definition::TypeDefinition(_) = definition {
            count = count.saturating_add(1);
        }
    }
    Ok(count)
}

/// An object type `A` that implements `B`.
fn implementer(alloc: Global) -> Result<ObjectType<'static, String>, AllocError> {
    let mut kind = ObjectType::new(alloc, String::from_str(alloc, "A")?);
    kind.implements_interfaces
        .push(String::from_str(alloc, "B")?)?;
    Ok(kind)
}

/// Why a schema is not read again.
#[derive(Debug, Drop)]
enum Lost {
    Format(FormatError),
    Parse(ParseError),
}

/// A schema formatted and parsed: the same but for positions, unless an allocation fails, or it is too wide or its text
/// too long.
fn formatted_and_parsed<N: Names>(
    alloc: Global,
    document: &Document<'_, N>,
    style: &Style,
) -> Result<Document<'static, String>, Lost>
    requires { IsPrintable (document_view N.bytes document.now) }
    ensures same { IfOk result
        (λ d. erase (document_view string_bytes d) ≡ erase (document_view N.bytes document.now)) }
    ensures formatted { (e : FormatError) → result ≡ Err (Lost.Format e)
        → (e ≡ FormatError.OutOfMemory) ⊎ IsTooWide style.now (document_view N.bytes document.now) }
    ensures parsed { (e : ParseFailure) → result ≡ Err (Lost.Parse e)
        → (e ≡ no_memory) ⊎ (max_length < length (layout style.now (document_view N.bytes document.now))) }
{
    let text = document.format(alloc, style).map_err(Lost::Format)?;
    parse_schema::<String>(alloc, &text).map_err(Lost::Parse)
}

/// A schema that was formatted and parsed, as it is shown.
fn shown_again(alloc: Global, source: &str, style: &Style) -> Option<String> {
    let document: Document<'_, &str> = parse_schema(alloc, source).ok()?;
    let again = formatted_and_parsed(alloc, &document, style).ok()?;
    again.to_string(alloc).ok()
}

/// The type of `implementer`, as it is shown.
fn shown_implementer(alloc: Global) -> Option<String> {
    let kind = implementer(alloc).ok()?;
    kind.to_string(alloc).ok()
}

#[test]
fn schemas_come_back_and_types_are_built(rt: HostRuntime) {
    let source = "type A implements B { \"c\" d(e: F = 1): [G!] } scalar H";
    let mut style = Style::default();
    style.indent(4);
    let mut page = Page::new(rt.alloc());
    page.add(shown_again(rt.alloc(), source, &style));
    page.add(shown_implementer(rt.alloc()));
    assert_eq!(rt;
        page.text(),
        "type A implements B {
  \"c\"
  d(e: F = 1): [G!]
}

scalar H

type A implements B

"
    );
}

#[test]
fn types_are_counted(rt: HostRuntime) {
    let count = count_types(rt.alloc(), "type A scalar H directive @a on FIELD");
    assert_eq!(rt; count.ok(), Some(2));
}
