//! Values that no input has, at each text type, and a writer that fails.
use crate::common::Text;
use crate::query::Value;
use crate::tests::names::{Owned, with_borrowed_names};
use crate::tests::page::Page;
use crate::tests::walks::first_argument;
use std::alloc::Global;
use std::borrow::CowStr;
use std::fmt;
use std::fmt::Write;

/// Whether both values are shown as `true`.
fn are_shown_as_true<'a, T: Text<'a>>(
    alloc: Global,
    one: &Value<'a, T>,
    other: &Value<'a, T>,
) -> bool {
    let mut page = Page::new(alloc);
    page.show(one);
    page.show(other);
    page.text() == "true\ntrue\n"
}

/// Whether the enum value `true` equals its clone, but not the boolean, which is shown as the same.
fn is_enum<'a, T: Text<'a>>(alloc: Global) -> Option<bool> {
    let value: Value<'a, T> = Value::Enum(T::make(alloc, "true").ok()?);
    let copy = value.clone().ok()?;
    let boolean: Value<'a, T> = Value::Boolean(true);
    let are_distinct = copy == value && copy != boolean;
    Some(are_distinct && are_shown_as_true(alloc, &copy, &boolean))
}

#[test]
fn enum_values_are_no_booleans(rt: HostRuntime) {
    let alloc = rt.alloc();
    let are_enums = [
        is_enum::<&str>(alloc),
        is_enum::<String>(alloc),
        is_enum::<CowStr>(alloc),
        is_enum::<Owned>(alloc),
    ];
    assert_eq!(rt; are_enums, [Some(true); 4]);
}

/// A writer that accepts this many texts.
#[derive(Drop)]
struct Narrow {
    limit: usize,
}

impl fmt::Write for Narrow {
    fn write_str(&mut self, _text: &str) -> fmt::Result {
        if self.limit == 0 {
            return Err(fmt::Error);
        }
        self.limit -= 1;
        Ok(())
    }
}

/// Whether `Display` fails wherever the writer fails, and only there; `None` if a hundred texts are too few.
fn are_failures_handed_on(value: &Value<'_, &str>) -> Option<bool> {
    let mut enough = Narrow { limit: 100 };
    enough.write(value).ok()?;
    let mut all_fail = true;
    for limit in 0..100_usize.abs_diff(enough.limit) {
        let mut narrow = Narrow { limit };
        all_fail &= narrow.write(value).is_err();
    }
    Some(all_fail)
}

/// The same of the first argument of an input.
fn are_failures_of_argument_handed_on(alloc: Global, source: &str) -> Option<bool> {
    let document = with_borrowed_names(alloc, source).ok()?;
    are_failures_handed_on(first_argument(&document)?)
}

#[test]
fn failures_are_handed_on(rt: HostRuntime) {
    let source =
        "{ a(b: [$name 0 -1.50e+3 \"\" true null NAME [true \"a \\\"b\\\"\"] {a: -3 b: true}]) }";
    assert_eq!(rt;
        are_failures_of_argument_handed_on(rt.alloc(), source),
        Some(true)
    );
}
