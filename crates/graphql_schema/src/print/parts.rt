//! Formatting the parts of types and of their extensions.
ghost use Rattle.std.specs.Prelude.{◌≡◌, ◌++◌, ◌*◌, ◌+◌, ◌^◌, ◌<◌, OnOk, codes, map};
ghost use Rattle.graphql_core.specs.{text_of, most, most_enclosed};
ghost use Rattle.std.specs.List.{AllByRecursion, flat_map};
ghost use Rattle.graphql_schema.specs.WellFormed.{AreWellFormedParts, IsWellFormedInputValue};
ghost use Rattle.graphql_schema.specs.Layout.{keyword, interfaces, parts_layout, parts_levels, block_layout};
ghost use Rattle.graphql_schema.specs.Layout.{input_field_layout, input_value_levels};
ghost use Rattle.graphql_schema.specs.Views.{input_value_view};
ghost use Rattle.graphql_schema.specs.steps.Body.{parts_seen};

use crate::print::block::{levels_in_block, write_block};
use crate::print::names::write_members;
use crate::tree::{EnumValue, Field, InputValue};
use graphql_core::common::Names;
use graphql_core::format::print::{Pretty, write_spaces};
use graphql_core::format::{Sink, Style};

/// The parts of a type, by its kind.
#[derive(Drop)]
pub enum Parts<'a, N: Names> {
    Scalar,
    /// The names of the implemented interfaces, and the fields.
    Object(&'a [N::Value], &'a [Field<N>]),
    /// The names of the implemented interfaces, and the fields.
    Interface(&'a [N::Value], &'a [Field<N>]),
    /// The names of the member types.
    Union(&'a [N::Value]),
    Enum(&'a [EnumValue<N>]),
    InputObject(&'a [InputValue<N>]),
}

impl<'a, N: Names> Parts<'a, N> {
    /// The keyword of the kind, and a space.
    pub fn keyword(&self) -> &'static str
        ensures { result.now ≡ keyword (parts_seen N.bytes self.now) ++ codes " " }
    {
        match self {
            Parts::Scalar => "scalar ",
            Parts::Object(_, _) => "type ",
            Parts::Interface(_, _) => "interface ",
            Parts::Union(_) => "union ",
            Parts::Enum(_) => "enum ",
            Parts::InputObject(_) => "input ",
        }
    }

    /// The interfaces; empty for a kind that cannot have them.
    pub fn interfaces(&self) -> &'a [N::Value]
        ensures { map N.bytes result.now ≡ interfaces (parts_seen N.bytes self.now) }
    {
        match self {
            Parts::Object(interfaces, _) | Parts::Interface(interfaces, _) => interfaces,
            _ => &[],
        }
    }
}

/// Appends the fields of an input object, each at the margin and with a line end.
fn write_input_fields<S: Sink, N: Names>(
    out: &mut S,
    fields: &[InputValue<N>],
    style: &Style,
    margin: usize,
) -> Result<(), S::Error>
    requires { margin
        + most (input_value_levels style.now) (map (input_value_view N.bytes) fields.now) * style.now.indent < 2 ^ 32 }
    ensures text { OnOk result (S.took out.old (text_of
        (flat_map (input_field_layout style.now margin) (map (input_value_view N.bytes) fields.now))) out.new) }
    ensures well_formed { OnOk result
        (AllByRecursion IsWellFormedInputValue (map (input_value_view N.bytes) fields.now)) }
{
    'fields: for field in fields {
        write_spaces(out, margin)?;
        field.write(out, style, margin)?;
        out.push_str("\n")?;
    }
    Ok(())
}

/// Appends the fields of an input object in braces. Without fields it only ends the line.
fn write_input_block<S: Sink, N: Names>(
    out: &mut S,
    fields: &[InputValue<N>],
    style: &Style,
) -> Result<(), S::Error>
    requires { most_enclosed (input_value_levels style.now) (map (input_value_view N.bytes) fields.now)
        * style.now.indent < 2 ^ 32 }
    ensures text { OnOk result (S.took out.old (text_of
        (block_layout 0 (input_field_layout style.now style.now.indent) (map (input_value_view N.bytes) fields.now)))
        out.new) }
    ensures well_formed { OnOk result
        (AllByRecursion IsWellFormedInputValue (map (input_value_view N.bytes) fields.now)) }
{
    if fields.is_empty() {
        return out.push_str("\n");
    }
    out.push_str(" {\n")?;
    write_input_fields(out, fields, style, style.indentation() as usize)?;
    out.push_str("}\n")
}

/// The parts except the interfaces, which come before the directives.
impl<'a, N: Names> Pretty for Parts<'a, N> {
    ghost lines = { λ style _ p. parts_layout style (parts_seen N.bytes p) };

    ghost opens = { λ style p. parts_levels style (parts_seen N.bytes p) };

    ghost well_formed = { λ p. AreWellFormedParts (parts_seen N.bytes p) };

    fn levels(&self, style: &Style) -> usize {
        match self {
            Parts::Scalar | Parts::Union(_) => 0,
            Parts::Object(_, fields) | Parts::Interface(_, fields) => levels_in_block(
                fields, style,
            ),
            Parts::Enum(values) => levels_in_block(values, style),
            Parts::InputObject(fields) => levels_in_block(fields, style),
        }
    }

    fn write<S: Sink>(&self, out: &mut S, style: &Style, _margin: usize) -> Result<(), S::Error> {
        match self {
            Parts::Scalar => out.push_str("\n"),
            Parts::Object(_, fields) | Parts::Interface(_, fields) => {
                write_block(out, fields, style, 0)
            }
            Parts::Union(types) => {
                write_members::<S, N>(out, types)?;
                out.push_str("\n")
            }
            Parts::Enum(values) => write_block(out, values, style, 0),
            Parts::InputObject(fields) => write_input_block(out, fields, style),
        }
    }
}
