//! Values, types, arguments and directives.
ghost use Rattle.std.specs.Prelude.{codes, OnOk};
ghost use Rattle.graphql_core.specs.{signed_decimal, value_view, type_view, arguments_view, directive_view};
ghost use Rattle.graphql_core.specs.{directives_view};
ghost use Rattle.graphql_core.specs.values.Values.{null};
ghost use Rattle.graphql_core.specs.values.ValueViews.{items_view, members_view};
ghost use Rattle.graphql_json.specs.steps.Pieces.{Appends};
ghost use Rattle.graphql_json.specs.{json_text, later, pair_json, valued_json, list_json, object_json, value_json};
ghost use Rattle.graphql_json.specs.{items_json, fields_json, type_json, arguments_json, directive_json};
ghost use Rattle.graphql_json.specs.{directives_json};
ghost use Rattle.graphql_json.specs.Json as json;

use crate::json::{
    close_node, open_node, write_boolean, write_label, write_position, write_separator, write_text,
};
use crate::node::{Node, write_name, write_named, write_nodes, write_valued};
use graphql_core::common::Names;
use graphql_core::common::tree::{Directive, Type, Value};
use graphql_core::format::Buffer;
use std::alloc::AllocError;
use std::collections::BTreeMap;

/// Appends the node of an integer, whose value is a string.
fn write_int(out: &mut Buffer, value: i64) -> Result<(), AllocError>
    ensures { OnOk result
        (Appends out.old (json_text (valued_json (codes "IntValue") (json.string (signed_decimal value)))) out.new) }
{
    let mut digits = itoa::Buffer::new();
    write_valued(out, "IntValue", digits.format(value))
}

/// Appends the node of a boolean.
fn write_boolean_value(out: &mut Buffer, value: bool) -> Result<(), AllocError>
    ensures { OnOk result
        (Appends out.old (json_text (valued_json (codes "BooleanValue") (json.boolean value))) out.new) }
{
    open_node(out, "BooleanValue")?;
    write_boolean(out, "value", value)?;
    close_node(out)
}

/// Appends the node of `null`.
fn write_null(out: &mut Buffer) -> Result<(), AllocError>
    ensures { OnOk result (Appends out.old (json_text (value_json null)) out.new) }
{
    open_node(out, "NullValue")?;
    close_node(out)
}

/// Appends the node of a value.
#[cycle(value)]
fn write_value<N: Names>(out: &mut Buffer, value: &Value<N>) -> Result<(), AllocError>
    ensures { OnOk result (Appends out.old (json_text (value_json (value_view N.bytes value.now))) out.new) }
{
    match value {
        Value::Variable(name) => write_named(out, "Variable", N::view(name)),
        Value::Int(number) => write_int(out, number.as_i64().unwrap()),
        Value::Float(literal) => write_valued(out, "FloatValue", literal.as_str()),
        Value::String(text) => write_valued(out, "StringValue", text.as_str()),
        Value::Boolean(is_true) => write_boolean_value(out, *is_true),
        Value::Null => write_null(out),
        Value::Enum(name) => write_valued(out, "EnumValue", N::view(name)),
        Value::List(items) => write_list(out, items),
        Value::Object(members) => write_object(out, members),
    }
}

/// Appends the node of a list.
#[cycle(value)]
fn write_list<N: Names>(out: &mut Buffer, items: &[Value<N>]) -> Result<(), AllocError>
    ensures { OnOk result
        (Appends out.old (json_text (list_json (items_json (items_view N.bytes items.now)))) out.new) }
{
    open_node(out, "ListValue")?;
    write_label(out, "values")?;
    write_items(out, items)?;
    close_node(out)
}

/// Appends the list of the items of a list.
#[cycle(value)]
fn write_items<N: Names>(out: &mut Buffer, items: &[Value<N>]) -> Result<(), AllocError>
    ensures { OnOk result
        (Appends out.old (json_text (json.array (items_json (items_view N.bytes items.now)))) out.new) }
{
    write_text(out, "[")?;
    let mut is_later = false;
    'items: for item in items {
        write_separator(out, is_later)?;
        write_value(out, item)?;
        is_later = true;
    }
    write_text(out, "]")
}

/// Appends the node of an object.
#[cycle(value)]
fn write_object<N: Names>(
    out: &mut Buffer,
    members: &BTreeMap<N::Value, Value<N>>,
) -> Result<(), AllocError>
    ensures { OnOk result
        (Appends out.old (json_text (object_json (fields_json (members_view N.bytes members.now.entries)))) out.new) }
{
    open_node(out, "ObjectValue")?;
    write_label(out, "fields")?;
    write_fields(out, members)?;
    close_node(out)
}

/// Appends the list of the fields of an object.
#[cycle(value)]
fn write_fields<N: Names>(
    out: &mut Buffer,
    members: &BTreeMap<N::Value, Value<N>>,
) -> Result<(), AllocError>
    ensures { OnOk result
        (Appends out.old (json_text (json.array (fields_json (members_view N.bytes members.now.entries)))) out.new) }
{
    write_text(out, "[")?;
    let mut is_later = false;
    'members: for (name, member) in members.iter() {
        write_separator(out, is_later)?;
        write_pair(out, "ObjectField", N::view(name), member)?;
        is_later = true;
    }
    write_text(out, "]")
}

/// Appends the node of an argument or of a field of an object.
#[cycle(value)]
fn write_pair<N: Names>(
    out: &mut Buffer,
    kind: &str,
    name: &str,
    value: &Value<N>,
) -> Result<(), AllocError>
    ensures { OnOk result (Appends out.old
        (json_text (pair_json kind.now name.now (value_json (value_view N.bytes value.now)))) out.new) }
{
    open_node(out, kind)?;
    write_name(out, "name", name)?;
    write_label(out, "value")?;
    write_value(out, value)?;
    close_node(out)
}

impl<N: Names> Node for Value<N> {
    ghost as_json = { λ v. value_json (value_view N.bytes v) };

    fn write(&self, out: &mut Buffer) -> Result<(), AllocError> {
        write_value(out, self)
    }
}

/// Appends the node of a type.
fn write_type<N: Names>(out: &mut Buffer, declared: &Type<N>) -> Result<(), AllocError>
    ensures { OnOk result (Appends out.old (json_text (type_json (type_view N.bytes declared.now))) out.new) }
{
    match declared {
        Type::NamedType(name) => write_named(out, "NamedType", N::view(name)),
        Type::ListType(inner) => {
            open_node(out, "ListType")?;
            write_label(out, "type")?;
            write_type(out, &**inner)?;
            close_node(out)
        }
        Type::NonNullType(inner) => {
            open_node(out, "NonNullType")?;
            write_label(out, "type")?;
            write_type(out, &**inner)?;
            close_node(out)
        }
    }
}

impl<N: Names> Node for Type<N> {
    ghost as_json = { λ t. type_json (type_view N.bytes t) };

    fn write(&self, out: &mut Buffer) -> Result<(), AllocError> {
        write_type(out, self)
    }
}

/// Appends the member that has arguments.
pub fn write_arguments<N: Names>(
    out: &mut Buffer,
    arguments: &[(N::Value, Value<N>)],
) -> Result<(), AllocError>
    ensures { OnOk result (Appends out.old (later (arguments_json (arguments_view N.bytes arguments.now))) out.new) }
{
    write_label(out, "arguments")?;
    write_text(out, "[")?;
    let mut is_later = false;
    'arguments: for argument in arguments {
        write_separator(out, is_later)?;
        write_pair(out, "Argument", N::view(&argument.0), &argument.1)?;
        is_later = true;
    }
    write_text(out, "]")
}

impl<N: Names> Node for Directive<N> {
    ghost as_json = { λ d. directive_json (directive_view N.bytes d) };

    fn write(&self, out: &mut Buffer) -> Result<(), AllocError> {
        open_node(out, "Directive")?;
        write_position(out, &self.position)?;
        write_name(out, "name", N::view(&self.name))?;
        write_arguments(out, &self.arguments)?;
        close_node(out)
    }
}

/// Appends the member that has directives.
pub fn write_directives<N: Names>(
    out: &mut Buffer,
    directives: &[Directive<N>],
) -> Result<(), AllocError>
    ensures { OnOk result (Appends out.old (later (directives_json (directives_view N.bytes directives.now))) out.new) }
{
    write_nodes(out, "directives", directives)
}
