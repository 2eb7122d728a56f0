//! A tree that a caller builds, as docs/CALLING.md shows.
use crate::Pos;
use crate::query::{Definition, Document, Field, OperationDefinition, Selection, SelectionSet};
use crate::tests::page::Page;
use std::alloc::{AllocError, Global};

/// A selection set with these selections.
fn set_of<'a>(items: Vec<Selection<'a, &'a str>>) -> SelectionSet<'a, &'a str> {
    SelectionSet {
        span: (Pos::default(), Pos::default()),
        items,
    }
}

/// A field with a name and selections. Without selections it has no braces.
fn field_of<'a>(
    alloc: Global,
    name: &'a str,
    selections: Vec<Selection<'a, &'a str>>,
) -> Selection<'a, &'a str> {
    Selection::Field(Field {
        position: Pos::default(),
        alias: None,
        name,
        arguments: Vec::new(alloc),
        directives: Vec::new(alloc),
        selection_set: set_of(selections),
    })
}

/// The document of `{ OUTER { INNER } }`.
fn nested<'a>(
    alloc: Global,
    outer: &'a str,
    inner: &'a str,
) -> Result<Document<'a, &'a str>, AllocError> {
    let inner = field_of(alloc, inner, Vec::new(alloc));
    let outer = field_of(alloc, outer, vec![in alloc; inner]?);
    let set = set_of(vec![in alloc; outer]?);
    let operation = Definition::Operation(OperationDefinition::SelectionSet(set));
    Ok(Document {
        definitions: vec![in alloc; operation]?,
    })
}

/// That document, formatted.
fn shown_nested(alloc: Global, outer: &str, inner: &str) -> Option<String> {
    let document = nested(alloc, outer, inner).ok()?;
    document.to_string(alloc).ok()
}

#[test]
fn built_documents_are_formatted(rt: HostRuntime) {
    let mut page = Page::new(rt.alloc());
    page.add(shown_nested(rt.alloc(), "hero", "name"));
    assert_eq!(rt; page.text(), "{\n  hero {\n    name\n  }\n}\n\n");
}
