//! The values of literals, as docs/CALLING.md and docs/MIGRATING.md show them.
use crate::common::{
    FloatLiteral, Number, Text, UnquoteError, unquote_block_string, unquote_string,
};
use crate::query::Value;
use crate::tests::page::Page;
use std::alloc::{AllocError, Global};

/// The value of a string literal with `body` between its quotes.
pub fn unquoted(alloc: Global, body: &str) -> Result<String, UnquoteError> {
    let text = format!(in alloc; "\"{body}\"")?;
    unquote_string(alloc, text.as_str())
}

/// The value of a block string with `content` between its quotes.
pub fn unindented(alloc: Global, content: &str) -> Result<String, AllocError> {
    let text = format!(in alloc; "\"\"\"{content}\"\"\"")?;
    unquote_block_string(alloc, text.as_str())
}

/// A float with this spelling, or an integer if the string is no float literal.
fn float_or<'a, T: Text<'a>>(text: String, number: i32) -> Value<'a, T> {
    match FloatLiteral::new(text) {
        Ok(literal) => Value::Float(literal),
        Err(_) => Value::Int(Number::from(number)),
    }
}

/// The `f64` that is closest to a float.
fn rounded<'a, T: Text<'a>>(value: &Value<'a, T>) -> Option<f64> {
    match value {
        Value::Float(literal) => literal.as_str().parse::<f64>().ok(),
        _ => None,
    }
}

/// The value that `float_or` makes of a text and 3.
fn float_or_three(alloc: Global, text: &str) -> Option<Value<'static, &'static str>> {
    Some(float_or(String::from_str(alloc, text).ok()?, 3))
}

/// That value, as it is shown, and the `f64` that is closest to it.
fn shown_float(alloc: Global, text: &str) -> Option<String> {
    let value = float_or_three(alloc, text)?;
    let closest = rounded(&value);
    format!(in alloc; "{value} {closest:?}").ok()
}

#[test]
fn literals_have_values(rt: HostRuntime) {
    let alloc = rt.alloc();
    let mut page = Page::new(alloc);
    page.add(shown_float(alloc, "1.5"));
    page.add(shown_float(alloc, "1e9"));
    page.add(unquoted(alloc, r"\u00e9\n").ok());
    page.add(unindented(alloc, "\n  x\n y").ok());
    page.debug(&unquoted(alloc, r"\q").err());
    assert_eq!(rt;
        page.text(),
        "1.5 Some(1.5)\n3 None\né\n\n x\ny\nSome(BadEscape)\n"
    );
    assert!(rt; float_or_three(alloc, "1e9") == Some(Value::Int(Number::from(3))));
}
