//! Documents that are formatted, minified, parsed again, compared or hashed, as docs/CALLING.md and docs/MIGRATING.md
//! show it.
ghost use Rattle.std.specs.Prelude.{IfOk, IfSome, Err, ◌≡◌, ◌<◌, ◌⊎◌, length, string_bytes};
ghost use Rattle.graphql_core.specs.{ParseFailure, no_memory, max_length, too_long};
ghost use Rattle.graphql_query.specs.{DocumentTree, document_view, erase, IsDocumentOf, ParsesBackTo, layout};
ghost use Rattle.graphql_query.specs.{IsTooWide, IsPrintable};

use crate::common::Names;
use crate::query::{Document, MinifyError, ParseError, minify_query, parse_query};
use crate::tests::names::with_borrowed_names;
use crate::tests::page::Page;
use crate::{FormatError, Style};
use std::alloc::Global;
use std::hash::{DefaultHasher, Hasher};

/// Whether two printable documents are equal, ignoring positions; `None` if one cannot be formatted.
fn are_equal<N: Names>(
    alloc: Global,
    one: &Document<'_, N>,
    other: &Document<'_, N>,
) -> Option<bool> {
    let style = Style::default();
    let one = one.format(alloc, &style).ok()?;
    let other = other.format(alloc, &style).ok()?;
    Some(one == other)
}

/// The formatted source; `None` if it cannot be parsed or formatted.
fn formatted_source(alloc: Global, source: &str, style: &Style) -> Option<String>
    ensures { IfSome result
        (λ text. (d : DocumentTree) × IsDocumentOf source.now d × (string_bytes text ≡ layout style.now d)) }
{
    let document: Document<'_, &str> = parse_query(alloc, source).ok()?;
    document.format(alloc, style).ok()
}

/// The minified source; `None` if it has a lexical error or is too long, or if an allocation fails.
fn minified(alloc: Global, source: &str) -> Option<String> {
    let source = String::from_str(alloc, source).ok()?;
    minify_query(alloc, source).ok()
}

/// A hash of the minified source; `None` if it cannot be minified.
fn hash_of(alloc: Global, source: &str) -> Option<u64> {
    let text = minified(alloc, source)?;
    let mut hasher = DefaultHasher::new();
    hasher.write(text.as_bytes());
    Some(hasher.finish())
}

/// Why a document does not parse back.
#[derive(Debug, Drop)]
enum Lost {
    Format(FormatError),
    Minify(MinifyError),
    Parse(ParseError),
}

/// A document formatted and parsed: the same, ignoring positions. It fails only if the document is too wide, the output
/// is too long, or an allocation fails.
fn formatted_and_parsed<N: Names>(
    alloc: Global,
    document: &Document<'_, N>,
    style: &Style,
) -> Result<Document<'static, String>, Lost>
    requires { IsPrintable (document_view N.bytes document.now) }
    ensures same { IfOk result
        (λ d. erase (document_view string_bytes d) ≡ erase (document_view N.bytes document.now)) }
    ensures formatted { (e : FormatError) → result ≡ Err (Lost.Format e)
        → (e ≡ FormatError.OutOfMemory) ⊎ IsTooWide style.now (document_view N.bytes document.now) }
    ensures parsed { (e : ParseFailure) → result ≡ Err (Lost.Parse e)
        → (e ≡ no_memory) ⊎ (max_length < length (layout style.now (document_view N.bytes document.now))) }
    ensures minified { (e : ParseFailure) → result ≡ Err (Lost.Minify e) → ⊥ }
{
    let text = document.format(alloc, style).map_err(Lost::Format)?;
    parse_query::<String>(alloc, &text).map_err(Lost::Parse)
}

/// A source minified and parsed: its own document, ignoring positions. For a valid source it fails only if the source
/// or the output is too long, or an allocation fails.
fn minified_and_parsed(alloc: Global, source: String) -> Result<Document<'static, String>, Lost>
    ensures same { (d : DocumentTree) → IsDocumentOf (string_bytes source) d
        → IfOk result (λ e. erase (document_view string_bytes e) ≡ erase d) }
    ensures no_other { IfOk result (λ d. ParsesBackTo (string_bytes source) (document_view string_bytes d)) }
    ensures parsed { (d : DocumentTree) (e : ParseFailure) → IsDocumentOf (string_bytes source) d
        → result ≡ Err (Lost.Parse e) → (e ≡ no_memory) ⊎ (e ≡ too_long) }
{
    let text = minify_query(alloc, source).map_err(Lost::Minify)?;
    parse_query::<String>(alloc, &text).map_err(Lost::Parse)
}

/// Four spaces for each level, and a line for each argument, list item and object field.
fn wide() -> Style {
    let mut style = Style::default();
    style.indent(4).multiline_arguments(true);
    style
}

/// A document that was formatted and parsed, as it is shown.
fn shown_after_formatting(alloc: Global, source: &str) -> Option<String> {
    let document: Document<'_, &str> = parse_query(alloc, source).ok()?;
    let again = formatted_and_parsed(alloc, &document, &wide()).ok()?;
    again.to_string(alloc).ok()
}

/// A document that was minified and parsed, as it is shown.
fn shown_after_minifying(alloc: Global, source: &str) -> Option<String> {
    let source = String::from_str(alloc, source).ok()?;
    let again = minified_and_parsed(alloc, source).ok()?;
    again.to_string(alloc).ok()
}

#[test]
fn outputs_are_parsed_again(rt: HostRuntime) {
    let alloc = rt.alloc();
    let mut page = Page::new(alloc);
    page.add(formatted_source(alloc, "{ a(b: 1) }", &wide()));
    page.add(formatted_source(alloc, "{ a( }", &wide()));
    page.add(minified(alloc, "{ a ( b : 1 ) }"));
    page.add(minified(alloc, "{ a; }"));
    page.add(shown_after_formatting(alloc, "query Q($a: Int = 1) { b(c: $a) }"));
    page.add(shown_after_minifying(alloc, "query Q ( $a : Int = 1 ) { b ( c : $a ) } # d"));
    assert_eq!(rt;
        page.text(),
        "{
    a(
        b: 1
    )
}

none
{a(b:1)}
none
query Q($a: Int = 1) {
  b(c: $a)
}

query Q($a: Int = 1) {
  b(c: $a)
}

"
    );
}

/// Whether two sources have equal documents, ignoring positions.
fn have_equal_documents(alloc: Global, one: &str, other: &str) -> Option<bool> {
    let one = with_borrowed_names(alloc, one).ok()?;
    let other = with_borrowed_names(alloc, other).ok()?;
    are_equal(alloc, &one, &other)
}

#[test]
fn documents_are_compared(rt: HostRuntime) {
    for (one, other, wanted) in [
        ("{ a(b: 1, c: 2) }", "\n{a(b:1 c:2)} # d", true),
        ("{ a(o: {b: 1, c: 2}) }", "{ a(o: {c: 2, b: 1}) }", true),
        (r#"{ a(b: "A") }"#, r#"{ a(b: "\u0041") }"#, true),
        ("{ a(b: 1, c: 2) }", "{ a(c: 2, b: 1) }", false),
        ("{ a b }", "{ b a }", false),
        ("{ a }", "query { a }", false),
        ("{ a(b: 1.0) }", "{ a(b: 1.00) }", false),
    ] {
        assert_eq!(rt;
            have_equal_documents(rt.alloc(), one, other),
            Some(wanted),
            "{one}"
        );
    }
}

#[test]
fn hashes_are_those_of_tokens(rt: HostRuntime) {
    // SipHash-1-3 with the key 0, computed elsewhere, of `{a}` and of `{a b}`.
    for (source, hash) in [
        ("{ a } # b", Some(0x2815_ff8f_f0d4_f224)),
        ("{ a, b }", Some(0x4ecc_7418_e0d4_18f5)),
        ("{ a; }", None),
    ] {
        assert_eq!(rt; hash_of(rt.alloc(), source), hash, "{source}");
    }
}
