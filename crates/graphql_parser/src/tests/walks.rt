//! Walks through trees, as docs/CALLING.md and docs/MIGRATING.md show them.
use crate::common::{Names, Text};
use crate::query::{
    Definition, Document, Field, OperationDefinition, Selection, SelectionSet, Value,
};
use crate::tests::names::{with_borrowed_names, with_copied_names, with_owned_names};
use crate::tests::page::Page;
use std::alloc::{AllocError, Global};

/// The name of an operation, if it has one.
fn operation_name<'d, N: Names>(operation: &'d OperationDefinition<'_, N>) -> Option<&'d str> {
    match operation {
        OperationDefinition::SelectionSet(_) => None,
        OperationDefinition::Query(query) => Some(N::view(query.name.as_ref()?)),
        OperationDefinition::Mutation(mutation) => Some(N::view(mutation.name.as_ref()?)),
        OperationDefinition::Subscription(subscription) => {
            Some(N::view(subscription.name.as_ref()?))
        }
    }
}

/// The names of a document's operations, in order.
fn operation_names<'d, N: Names>(
    alloc: Global,
    document: &'d Document<'_, N>,
) -> Result<Vec<&'d str>, AllocError> {
    let mut names = Vec::new(alloc);
    'definitions: for definition in document.definitions.iter() {
        if let Definition::Operation(operation) = definition {
            if let Some(name) = operation_name(operation) {
                names.push(name)?;
            }
        }
    }
    Ok(names)
}

/// The first field of a document that begins with a set of selections.
pub fn first_field<'a, 'd, T: Text<'a>>(document: &'d Document<'a, T>) -> Option<&'d Field<'a, T>> {
    match document.definitions.first()? {
        Definition::Operation(OperationDefinition::SelectionSet(set)) => match set.items.first()? {
            Selection::Field(field) => Some(field),
            _ => None,
        },
        _ => None,
    }
}

/// The value of the first argument of that field.
pub fn first_argument<'a, 'd, T: Text<'a>>(
    document: &'d Document<'a, T>,
) -> Option<&'d Value<'a, T>> {
    let (_, value) = first_field(document)?.arguments.first()?;
    Some(value)
}

/// The name of a field's first argument and its value, if that is an integer.
fn first_number<'a, 'd, T: Text<'a>>(field: &'d Field<'a, T>) -> Option<(&'d str, i64)> {
    let (name, value) = field.arguments.first()?;
    match value {
        Value::Int(number) => Some((T::view(name), number.as_i64()?)),
        _ => None,
    }
}

/// Appends the names of all fields in a selection set, and in the sets inside it.
#[cycle(walk)]
fn push_fields<'d, N: Names>(
    set: &'d SelectionSet<'_, N>,
    names: &mut Vec<&'d str>,
) -> Result<(), AllocError> {
    'selections: for selection in set.items.iter() {
        push_selected(selection, names)?;
    }
    Ok(())
}

/// Appends the names of all fields in one selection.
#[cycle(walk)]
fn push_selected<'d, N: Names>(
    selection: &'d Selection<'_, N>,
    names: &mut Vec<&'d str>,
) -> Result<(), AllocError> {
    match selection {
        Selection::Field(field) => {
            names.push(N::view(&field.name))?;
            push_fields(&field.selection_set, names)
        }
        Selection::InlineFragment(fragment) => push_fields(&fragment.selection_set, names),
        Selection::FragmentSpread(_) => Ok(()),
    }
}

/// The selection set of an operation of any kind.
fn selected<'d, N: Names>(operation: &'d OperationDefinition<'_, N>) -> &'d SelectionSet<'d, N> {
    match operation {
        OperationDefinition::SelectionSet(set) => set,
        OperationDefinition::Query(query) => &query.selection_set,
        OperationDefinition::Mutation(mutation) => &mutation.selection_set,
        OperationDefinition::Subscription(subscription) => &subscription.selection_set,
    }
}

/// The names of all fields in a document's operations and fragments, in order.
fn fields<'a, 'd, T: Text<'a>>(
    alloc: Global,
    document: &'d Document<'a, T>,
) -> Result<Vec<&'d str>, AllocError> {
    let mut names = Vec::new(alloc);
    'definitions: for definition in document.definitions.iter() {
        match definition {
            Definition::Operation(operation) => push_fields(selected(operation), &mut names)?,
            Definition::Fragment(fragment) => push_fields(&fragment.selection_set, &mut names)?,
        }
    }
    Ok(names)
}

/// A copy of a field's first argument value, with owned names; `None` if there is none, or if an allocation fails.
pub fn first_value<'a, T: Text<'a>>(
    alloc: Global,
    field: &Field<'a, T>,
) -> Option<Value<'static, String>> {
    let (_, value) = field.arguments.first()?;
    value.into_static(alloc).ok()
}

/// A document in the default style.
fn shown(alloc: Global, document: &Document<'_, &str>) -> Result<String, AllocError> {
    format!(in alloc; "{document}")
}

/// A copy of a document.
fn copied<'a>(document: &Document<'a, &'a str>) -> Result<Document<'a, &'a str>, AllocError> {
    document.clone()
}

/// The names of a document's operations.
fn shown_operations(alloc: Global, source: &str) -> Option<String> {
    let document = with_copied_names(alloc, source).ok()?;
    let names = operation_names(alloc, &document).ok()?;
    format!(in alloc; "{names:?}").ok()
}

/// The names of all fields in a document.
fn shown_fields(alloc: Global, source: &str) -> Option<String> {
    let document = with_owned_names(alloc, source).ok()?;
    let names = fields(alloc, &document).ok()?;
    format!(in alloc; "{names:?}").ok()
}

/// The first argument of a document's first field, and the whole document.
fn shown_number(alloc: Global, source: &str) -> Option<String> {
    let document = with_borrowed_names(alloc, source).ok()?;
    let (name, number) = first_number(first_field(&document)?)?;
    let text = shown(alloc, &document).ok()?;
    format!(in alloc; "{name} {number} in\n{text}").ok()
}

/// A document with a value that was made static, if it is still equal to a copy.
fn shown_unchanged(alloc: Global, source: &str) -> Option<String> {
    let document = with_borrowed_names(alloc, source).ok()?;
    let copy = copied(&document).ok()?;
    first_value(alloc, first_field(&document)?)?;
    if document == copy {
        shown(alloc, &document).ok()
    } else {
        None
    }
}

#[test]
fn trees_are_walked(rt: HostRuntime) {
    let alloc = rt.alloc();
    let operations =
        "query A { a } query { b } { c } mutation B { d } fragment F on T { e } subscription C { f }";
    let nested =
        "query { a { b ... { c } ...F } } mutation { d } subscription { e } { f } fragment F on T { g }";
    let mut page = Page::new(alloc);
    page.add(shown_operations(alloc, operations));
    page.add(shown_fields(alloc, nested));
    page.add(shown_number(
        alloc,
        "{ hero(id: 7) } fragment F on T { a } fragment G on T { a }",
    ));
    page.add(shown_unchanged(alloc, "{ a(o: {b: 1, a: 2, b: 3}) }"));
    assert_eq!(rt;
        page.text(),
        "[\"A\", \"B\", \"C\"]
[\"a\", \"b\", \"c\", \"d\", \"e\", \"f\", \"g\"]
id 7 in
{
  hero(id: 7)
}

fragment F on T {
  a
}

fragment G on T {
  a
}

{
  a(o: {a: 2, b: 3})
}

"
    );
}
