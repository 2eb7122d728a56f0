//! The parts of definitions: descriptions, names of types, fields, input values and values of enums.
ghost use Rattle.std.specs.Prelude.{◌++◌, codes, OnOk, map, option_map, string_bytes};
ghost use Rattle.graphql_core.specs.{place_of};
ghost use Rattle.graphql_schema.specs.Views.{input_value_view, field_view, enum_value_view};
ghost use Rattle.graphql_json.specs.steps.Pieces.{Appends};
ghost use Rattle.graphql_json.specs.Nodes.{one, located};
ghost use Rattle.graphql_json.specs.Values.{name_json};
ghost use Rattle.graphql_json.specs.Schema.{described, input_value_json, field_json, enum_value_json, named_types_json};
ghost use Rattle.graphql_json.specs.steps.{later, opening};

use crate::json::{
    close_node, open_node, write_label, write_position, write_separator, write_text,
};
use crate::node::{
    Node, write_name, write_named, write_node, write_nodes, write_optional_node, write_string_value,
};
use crate::values::write_directives;
use graphql_core::common::Names;
use graphql_core::format::Buffer;
use graphql_core::position::Pos;
use graphql_schema::tree::{EnumValue, Field, InputValue};
use std::alloc::AllocError;

/// Appends the member that has a description, or nothing without one.
pub fn write_description(out: &mut Buffer, description: &Option<String>) -> Result<(), AllocError>
    ensures { OnOk result (Appends out.old (later (described (option_map string_bytes description.now))) out.new) }
{
    match description {
        Some(text) => write_string_value(out, "description", text.as_str()),
        None => Ok(()),
    }
}

/// Begins a node with its kind and its position.
pub fn open_at(out: &mut Buffer, kind: &str, position: &Pos) -> Result<(), AllocError>
    ensures { OnOk result (Appends out.old (opening kind.now ++ later (located (place_of position.now))) out.new) }
{
    open_node(out, kind)?;
    write_position(out, position)
}

/// Begins a node with its kind, its position, its description and its name.
pub fn open_described(
    out: &mut Buffer,
    kind: &str,
    position: &Pos,
    description: &Option<String>,
    name: &str,
) -> Result<(), AllocError>
    ensures { OnOk result (Appends out.old (opening kind.now
        ++ later (located (place_of position.now) ++ (described (option_map string_bytes description.now)
        ++ one (codes "name") (name_json name.now)))) out.new) }
{
    open_at(out, kind, position)?;
    write_description(out, description)?;
    write_name(out, "name", name)
}

/// Appends a member that is a list of types, by their names.
pub fn write_named_types<N: Names>(
    out: &mut Buffer,
    label: &str,
    names: &[N::Value],
) -> Result<(), AllocError>
    ensures { OnOk result (Appends out.old (later (named_types_json label.now (map N.bytes names.now))) out.new) }
{
    write_label(out, label)?;
    write_text(out, "[")?;
    let mut is_later = false;
    'names: for name in names {
        write_separator(out, is_later)?;
        write_named(out, "NamedType", N::view(name))?;
        is_later = true;
    }
    write_text(out, "]")
}

impl<N: Names> Node for InputValue<N> {
    ghost as_json = { λ v. input_value_json (input_value_view N.bytes v) };

    fn write(&self, out: &mut Buffer) -> Result<(), AllocError> {
        open_definition!(out, "InputValueDefinition", self)?;
        write_node(out, "type", &self.value_type)?;
        write_optional_node(out, "defaultValue", &self.default_value)?;
        write_directives(out, &self.directives)?;
        close_node(out)
    }
}

impl<N: Names> Node for Field<N> {
    ghost as_json = { λ f. field_json (field_view N.bytes f) };

    fn write(&self, out: &mut Buffer) -> Result<(), AllocError> {
        open_definition!(out, "FieldDefinition", self)?;
        write_nodes(out, "arguments", &self.arguments)?;
        write_node(out, "type", &self.field_type)?;
        write_directives(out, &self.directives)?;
        close_node(out)
    }
}

impl<N: Names> Node for EnumValue<N> {
    ghost as_json = { λ v. enum_value_json (enum_value_view N.bytes v) };

    fn write(&self, out: &mut Buffer) -> Result<(), AllocError> {
        open_definition!(out, "EnumValueDefinition", self)?;
        write_directives(out, &self.directives)?;
        close_node(out)
    }
}
