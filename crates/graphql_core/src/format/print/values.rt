//! Values.
ghost use Rattle.std.specs.Prelude.{◌+◌, ◌*◌, ◌^◌, ◌<◌, OnOk};
ghost use Rattle.graphql_core.specs.{text_of, object, list, IsWellFormed, AreWellFormed, value_view, items_view};
ghost use Rattle.graphql_core.specs.{members_view, value_layout, value_levels};

use crate::common::Names;
use crate::common::tree::Value;
use crate::format::print::enclosed::{inside, write_before_part, write_closer, write_label};
use crate::format::print::integers::write_integer;
use crate::format::print::strings::write_string;
use crate::format::{Sink, Style};
use std::collections::BTreeMap;

/// Appends a value. A closing bracket on a separate line is indented by `margin` spaces.
#[cycle(value)]
pub fn write_value<S: Sink, N: Names>(
    out: &mut S,
    value: &Value<N>,
    style: &Style,
    margin: usize,
) -> Result<(), S::Error>
    requires { margin + value_levels style.now (value_view N.bytes value.now) * style.now.indent < 2 ^ 32 }
    ensures text { OnOk result
        (S.took out.old (text_of (value_layout style.now margin (value_view N.bytes value.now))) out.new) }
    ensures well_formed { OnOk result (IsWellFormed (value_view N.bytes value.now)) }
{
    match value {
        Value::Variable(name) => out.push_two("$", N::view(name)),
        Value::Int(number) => write_integer(out, number.as_i64().unwrap()),
        Value::Float(literal) => out.push_str(literal.as_str()),
        Value::String(text) => write_string(out, text.as_str(), style, margin),
        Value::Boolean(is_true) => out.push_str(if *is_true { "true" } else { "false" }),
        Value::Null => out.push_str("null"),
        Value::Enum(name) => out.push_str(N::view(name)),
        Value::List(items) => write_list(out, items, style, margin),
        Value::Object(members) => write_object(out, members, style, margin),
    }
}

/// Appends the items of a list in brackets.
#[cycle(value)]
fn write_list<S: Sink, N: Names>(
    out: &mut S,
    items: &[Value<N>],
    style: &Style,
    margin: usize,
) -> Result<(), S::Error>
    requires { margin + value_levels style.now (list (items_view N.bytes items.now)) * style.now.indent < 2 ^ 32 }
    ensures text { OnOk result
        (S.took out.old (text_of (value_layout style.now margin (list (items_view N.bytes items.now)))) out.new) }
    ensures well_formed { OnOk result (AreWellFormed (items_view N.bytes items.now)) }
{
    out.push_str("[")?;
    let indented = inside(style, margin);
    let mut is_later = false;
    'items: for item in items {
        write_before_part(out, style, indented, is_later)?;
        write_value(out, item, style, indented)?;
        is_later = true;
    }
    write_closer(out, style, margin, "]")
}

/// Appends the fields of an object in braces.
#[cycle(value)]
fn write_object<S: Sink, N: Names>(
    out: &mut S,
    members: &BTreeMap<N::Value, Value<N>>,
    style: &Style,
    margin: usize,
) -> Result<(), S::Error>
    requires { margin + value_levels style.now (object (members_view N.bytes members.now.entries)) * style.now.indent
        < 2 ^ 32 }
    ensures text { OnOk result (S.took out.old
        (text_of (value_layout style.now margin (object (members_view N.bytes members.now.entries)))) out.new) }
    ensures well_formed { OnOk result (IsWellFormed (object (members_view N.bytes members.now.entries))) }
{
    out.push_str("{")?;
    let indented = inside(style, margin);
    let mut is_later = false;
    'members: for (name, member) in members.iter() {
        write_before_part(out, style, indented, is_later)?;
        write_label(out, N::view(name))?;
        write_value(out, member, style, indented)?;
        is_later = true;
    }
    write_closer(out, style, margin, "}")
}
