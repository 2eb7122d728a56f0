//! Names that are borrowed, copied or of a custom text type, as docs/CALLING.md and docs/MIGRATING.md show them.
ghost use Rattle.std.specs.Prelude.{string_bytes, refl};
ghost use Rattle.std.proofs.Common.{rules};

use crate::common::{Names, Text};
use crate::query::{Definition, Document, OperationDefinition, ParseError, Selection, parse_query};
use crate::tests::page::Page;
use std::alloc::{AllocError, Global};
use std::borrow::CowStr;

/// A name that owns its spelling.
#[derive(Clone, Debug, Drop, Eq, Ord, PartialEq, PartialOrd)]
pub struct Label {
    text: String,
}

/// A text type with such names.
#[derive(Drop)]
pub struct Owned;

impl Names for Owned {
    type Value = Label;

    ghost bytes = { λ v. string_bytes v.text };

    ghost eq_by_bytes = { λ x y. refl };

    ghost cmp_by_bytes = { λ x y. refl };

    ghost clone_keeps = { Prim.search rules };

    fn view<'v>(value: &'v Label) -> &'v str {
        value.text.as_str()
    }
}

impl<'a> Text<'a> for Owned {
    fn make(alloc: Global, text: &'a str) -> Result<Label, AllocError> {
        let text = String::from_str(alloc, text)?;
        Ok(Label { text })
    }
}

/// A document with borrowed names, with the lifetime of the source.
pub fn with_borrowed_names<'a>(
    alloc: Global,
    source: &'a str,
) -> Result<Document<'a, &'a str>, ParseError> {
    parse_query::<&'a str>(alloc, source)
}

/// How many definitions a document has, with borrowed names.
fn count(alloc: Global, source: &str) -> Result<usize, ParseError> {
    let document: Document<'_, &str> = parse_query(alloc, source)?;
    Ok(document.definitions.len())
}

/// A document with copied names, which outlives its source.
pub fn with_copied_names(
    alloc: Global,
    source: &str,
) -> Result<Document<'static, String>, ParseError> {
    parse_query::<String>(alloc, source)
}

/// A document with names of a custom text type, which outlives its source.
pub fn with_owned_names(
    alloc: Global,
    source: &str,
) -> Result<Document<'static, Owned>, ParseError> {
    parse_query::<Owned>(alloc, source)
}

/// The name of the first selection, if it is a field, of a document that begins with `{`.
fn first_name<'a, 'd, T: Text<'a>>(document: &'d Document<'a, T>) -> Option<&'d str> {
    let Definition::Operation(OperationDefinition::SelectionSet(set)) = document
        .definitions
        .first()?
    else {
        return None;
    };
    match set.items.first()? {
        Selection::Field(field) => Some(T::view(&field.name)),
        _ => None,
    }
}

/// The first name of a document whose names are borrowed.
fn borrowed_name(alloc: Global, source: &str) -> Option<String> {
    let document = with_borrowed_names(alloc, source).ok()?;
    String::from_str(alloc, first_name::<&str>(&document)?).ok()
}

/// The first name of a document that outlives its source.
fn copied_name(alloc: Global, source: &str) -> Option<String> {
    let text = String::from_str(alloc, source).ok()?;
    let document = with_copied_names(alloc, &text).ok()?;
    drop(text);
    String::from_str(alloc, first_name::<String>(&document)?).ok()
}

/// The same with names of the custom text type, and the whole document.
fn owned_name(alloc: Global, source: &str) -> Option<String> {
    let text = String::from_str(alloc, source).ok()?;
    let document = with_owned_names(alloc, &text).ok()?;
    drop(text);
    let name = first_name::<Owned>(&document)?;
    format!(in alloc; "{name} in\n{document}").ok()
}

#[test]
fn names_are_borrowed_or_copied(rt: HostRuntime) {
    let alloc = rt.alloc();
    let source = "{ hero } { b }";
    let mut page = Page::new(alloc);
    page.add(borrowed_name(alloc, source));
    page.add(copied_name(alloc, source));
    page.add(owned_name(alloc, source));
    page.debug(&count(alloc, source).ok());
    assert_eq!(rt;
        page.text(),
        "hero
hero
hero in
{
  hero
}

{
  b
}

Some(2)
"
    );
}

/// A name that is made at a text type, as the type views it.
fn viewed<'a, T: Text<'a>>(alloc: Global, text: &'a str) -> Option<String> {
    let name = T::make(alloc, text).ok()?;
    String::from_str(alloc, T::view(&name)).ok()
}

#[test]
fn names_are_made_and_viewed(rt: HostRuntime) {
    let alloc = rt.alloc();
    let mut page = Page::new(alloc);
    page.add(viewed::<&str>(alloc, "a"));
    page.add(viewed::<String>(alloc, "b"));
    page.add(viewed::<Owned>(alloc, "c"));
    page.add(viewed::<CowStr>(alloc, "d"));
    assert_eq!(rt; page.text(), "a\nb\nc\nd\n");
    let borrowed = <CowStr as Text>::make(alloc, "d");
    assert!(rt; matches!(borrowed, Ok(CowStr::Borrowed("d"))));
}
