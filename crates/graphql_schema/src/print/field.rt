//! Formatting fields, arguments, and the values of enums.
ghost use Rattle.std.specs.Prelude.{◌+◌, ◌*◌, ◌^◌, ◌<◌, OnOk, map};
ghost use Rattle.graphql_core.specs.{text_of, most};
ghost use Rattle.std.specs.List.{AllByRecursion};
ghost use Rattle.graphql_schema.specs.{IsWellFormedInputValue, IsWellFormedField, IsWellFormedEnumValue};
ghost use Rattle.graphql_schema.specs.{arguments_layout};
ghost use Rattle.graphql_schema.specs.{input_value_layout, field_layout, enum_value_layout, input_value_levels};
ghost use Rattle.graphql_schema.specs.{field_levels, enum_value_levels, input_value_view, field_view, enum_value_view};

use crate::print::description::{
    levels_in_description, write_description, write_inline_description,
};
use crate::tree::{EnumValue, Field, InputValue};
use graphql_core::common::Names;
use graphql_core::format::print::{
    Pretty, levels_in_default, levels_in_directives, levels_in_each, write_default,
    write_directives, write_joined, write_spaces, write_type,
};
use graphql_core::format::{Sink, Style};

/// An argument, or a field of an input object, without the end of its line.
impl<N: Names> Pretty for InputValue<N> {
    ghost lines = { λ style margin v. input_value_layout style margin (input_value_view N.bytes v) };

    ghost opens = { λ style v. input_value_levels style (input_value_view N.bytes v) };

    ghost well_formed = { λ v. IsWellFormedInputValue (input_value_view N.bytes v) };

    fn levels(&self, style: &Style) -> usize {
        let default_value = levels_in_default(&self.default_value, style);
        levels_in_description(&self.description)
            .max(default_value)
            .max(levels_in_directives(&self.directives, style))
    }

    fn write<S: Sink>(&self, out: &mut S, style: &Style, margin: usize) -> Result<(), S::Error> {
        write_inline_description(out, &self.description, style, margin)?;
        out.push_str(N::view(&self.name))?;
        out.push_str(": ")?;
        write_type(out, &self.value_type)?;
        write_default(out, &self.default_value, style, margin)?;
        write_directives(out, &self.directives, style, margin)
    }
}

/// Appends arguments in parentheses, joined by `, ` in every style. Without arguments it appends nothing.
pub fn write_arguments<S: Sink, N: Names>(
    out: &mut S,
    arguments: &[InputValue<N>],
    style: &Style,
    margin: usize,
) -> Result<(), S::Error>
    requires { margin
        + most (input_value_levels style.now) (map (input_value_view N.bytes) arguments.now) * style.now.indent
        < 2 ^ 32 }
    ensures text { OnOk result (S.took out.old
        (text_of (arguments_layout style.now margin (map (input_value_view N.bytes) arguments.now))) out.new) }
    ensures well_formed { OnOk result
        (AllByRecursion IsWellFormedInputValue (map (input_value_view N.bytes) arguments.now)) }
{
    if arguments.is_empty() {
        return Ok(());
    }
    out.push_str("(")?;
    write_joined(out, ", ", arguments, style, margin)?;
    out.push_str(")")
}

impl<N: Names> Pretty for Field<N> {
    ghost lines = { λ style margin f. field_layout style margin (field_view N.bytes f) };

    ghost opens = { λ style f. field_levels style (field_view N.bytes f) };

    ghost well_formed = { λ f. IsWellFormedField (field_view N.bytes f) };

    fn levels(&self, style: &Style) -> usize {
        let arguments = levels_in_each(&self.arguments, style);
        levels_in_description(&self.description)
            .max(arguments)
            .max(levels_in_directives(&self.directives, style))
    }

    fn write<S: Sink>(&self, out: &mut S, style: &Style, margin: usize) -> Result<(), S::Error> {
        write_description(out, &self.description, style, margin)?;
        write_spaces(out, margin)?;
        out.push_str(N::view(&self.name))?;
        write_arguments(out, &self.arguments, style, margin)?;
        out.push_str(": ")?;
        write_type(out, &self.field_type)?;
        write_directives(out, &self.directives, style, margin)?;
        out.push_str("\n")
    }
}

impl<N: Names> Pretty for EnumValue<N> {
    ghost lines = { λ style margin v. enum_value_layout style margin (enum_value_view N.bytes v) };

    ghost opens = { λ style v. enum_value_levels style (enum_value_view N.bytes v) };

    ghost well_formed = { λ v. IsWellFormedEnumValue (enum_value_view N.bytes v) };

    fn levels(&self, style: &Style) -> usize {
        levels_in_description(&self.description).max(levels_in_directives(&self.directives, style))
    }

    fn write<S: Sink>(&self, out: &mut S, style: &Style, margin: usize) -> Result<(), S::Error> {
        write_spaces(out, margin)?;
        write_inline_description(out, &self.description, style, margin)?;
        out.push_str(N::view(&self.name))?;
        write_directives(out, &self.directives, style, margin)?;
        out.push_str("\n")
    }
}
