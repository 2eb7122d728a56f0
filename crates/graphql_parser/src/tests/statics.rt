//! Values that are made static, and names that are borrowed.
use crate::query::{
    Definition, Directive, Document, OperationDefinition, Query, Selection, SelectionSet, Type,
    TypeCondition, Value, parse_query,
};
use crate::tests::names::with_borrowed_names;
use crate::tests::page::Page;
use crate::tests::sources::QUERY;
use crate::tests::walks::{first_argument, first_field, first_value};
use std::alloc::Global;
use std::borrow::CowStr;

/// The value of the first argument of an input's first field. It outlives the input, whose copy is dropped here.
fn value_of(alloc: Global, source: &str) -> Option<Value<'static, String>> {
    let text = String::from_str(alloc, source).ok()?;
    let document = with_borrowed_names(alloc, &text).ok()?;
    first_value(alloc, first_field(&document)?)
}

/// That value, as it is shown.
fn shown_value(alloc: Global, source: &str) -> Option<String> {
    value_of(alloc, source)?.to_string(alloc).ok()
}

/// Whether that value is the one in another input, whose names are copied.
fn have_equal_values(alloc: Global, source: &str, other: &str) -> Option<bool> {
    let value = value_of(alloc, source)?;
    let document = parse_query::<String>(alloc, other).ok()?;
    Some(first_argument(&document)? == &value)
}

#[test]
fn values_outlive_the_text(rt: HostRuntime) {
    let source = "{ a(o: {b: 1, a: 2, b: 3}) }";
    let mut page = Page::new(rt.alloc());
    page.add(shown_value(rt.alloc(), source));
    page.debug(&have_equal_values(rt.alloc(), source, "{ f(o: {b: 3, a: 2}) }"));
    assert_eq!(rt; page.text(), "{a: 2, b: 3}\nSome(true)\n");
}

/// Whether a name is borrowed, and is this one.
fn is_borrowed(name: &CowStr<'_>, text: &str) -> bool {
    match name {
        CowStr::Borrowed(borrowed) => *borrowed == text,
        CowStr::Owned(_) => false,
    }
}

/// Whether the name in a type is borrowed, and is this one.
fn is_borrowed_in_type(var_type: &Type<'_, CowStr<'_>>, text: &str) -> bool {
    match var_type {
        Type::NamedType(name) => is_borrowed(name, text),
        Type::ListType(inner) => is_borrowed_in_type(inner, text),
        Type::NonNullType(inner) => is_borrowed_in_type(inner, text),
    }
}

/// Whether the names in `@d(x: $a)` are borrowed.
fn is_borrowed_in_directive(directive: &Directive<'_, CowStr<'_>>) -> bool {
    match directive.arguments.first() {
        Some((name, Value::Variable(variable))) => {
            is_borrowed(&directive.name, "d")
                && is_borrowed(name, "x")
                && is_borrowed(variable, "a")
        }
        _ => false,
    }
}

/// Whether the name of the first field in `{ f }` is borrowed.
fn is_borrowed_in_first(set: &SelectionSet<'_, CowStr<'_>>) -> bool {
    match set.items.first() {
        Some(Selection::Field(field)) => is_borrowed(&field.name, "f"),
        _ => false,
    }
}

/// Whether the names of `b: c`, `... on T @e { f }` and `...G` are borrowed.
fn is_borrowed_in_selection(selection: &Selection<'_, CowStr<'_>>) -> bool {
    match selection {
        Selection::Field(field) => match &field.alias {
            Some(alias) => is_borrowed(alias, "b") && is_borrowed(&field.name, "c"),
            None => false,
        },
        Selection::InlineFragment(inline) => match (
            &inline.type_condition,
            inline.directives.first(),
        ) {
            (Some(TypeCondition::On(name)), Some(directive)) => {
                is_borrowed(name, "T")
                    && is_borrowed(&directive.name, "e")
                    && is_borrowed_in_first(&inline.selection_set)
            }
            _ => false,
        },
        Selection::FragmentSpread(spread) => is_borrowed(&spread.fragment_name, "G"),
    }
}

/// Whether the names in `QUERY` are borrowed.
fn is_borrowed_in_query(query: &Query<'_, CowStr<'_>>) -> Option<bool> {
    let variable = query.variable_definitions.first()?;
    let mut are_borrowed = is_borrowed(query.name.as_ref()?, "Q")
        && is_borrowed(&variable.name, "a")
        && is_borrowed_in_type(&variable.var_type, "Int")
        && is_borrowed_in_directive(query.directives.first()?);
    for selection in query.selection_set.items.iter() {
        are_borrowed &= is_borrowed_in_selection(selection);
    }
    Some(are_borrowed && query.selection_set.items.len() == 3)
}

/// Whether the names of the first definition are borrowed.
fn are_names_borrowed(alloc: Global, source: &str) -> Option<bool> {
    let document: Document<'_, CowStr<'_>> = parse_query(alloc, source).ok()?;
    match document.definitions.first()? {
        Definition::Operation(OperationDefinition::Query(query)) => is_borrowed_in_query(query),
        Definition::Fragment(fragment) => Some(is_borrowed(&fragment.name, "F")),
        _ => None,
    }
}

#[test]
fn names_that_may_be_owned_are_borrowed(rt: HostRuntime) {
    for source in [QUERY, "fragment F on T { a }"] {
        assert_eq!(rt;
            are_names_borrowed(rt.alloc(), source),
            Some(true),
            "{source}"
        );
    }
}
