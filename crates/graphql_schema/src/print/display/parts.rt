//! `Display` of extensions, directives and parts of types: in the default style, and an error if that is too wide.
ghost use Rattle.std.specs.Prelude.{Some};
ghost use Rattle.graphql_core.specs.{text_of, default_style, Displays};
ghost use Rattle.graphql_schema.specs.{field_layout, input_value_layout, shown, field_levels, input_value_levels};
ghost use Rattle.graphql_schema.specs.{definition_layout, definition_levels, schema_extension, directive};
ghost use Rattle.graphql_schema.specs.{field_view, input_value_view};
ghost use Rattle.graphql_schema.specs.{directive_definition_view, type_extension_view, scalar_extension_view};
ghost use Rattle.graphql_schema.specs.{object_extension_view, interface_extension_view, union_extension_view};
ghost use Rattle.graphql_schema.specs.{enum_extension_view, input_extension_view, schema_extension_view};

use crate::tree::{
    DirectiveDefinition, EnumTypeExtension, Field, InputObjectTypeExtension, InputValue,
    InterfaceTypeExtension, ObjectTypeExtension, ScalarTypeExtension, SchemaExtension,
    TypeExtension, UnionTypeExtension,
};
use graphql_core::common::Names;
use graphql_core::format::print::fmt_in_default_style;
use std::fmt;

impl<N: Names> fmt::Display for Field<N> {
    ghost output = { λ t. Some (text_of (field_layout default_style 0 (field_view N.bytes t))) };

    ghost styled_output = { λ t _. Some (text_of (field_layout default_style 0 (field_view N.bytes t))) };

    fn fmt<W: fmt::Write>(&self, f: &mut fmt::Formatter<W>) -> fmt::Result
        ensures { Displays W.write_str_gives f.old result (λ s. field_layout s 0) field_levels
            (field_view N.bytes self.now) f.new }
    {
        fmt_in_default_style(self, f)
    }
}

impl<N: Names> fmt::Display for InputValue<N> {
    ghost output = { λ t. Some (text_of (input_value_layout default_style 0 (input_value_view N.bytes t))) };

    ghost styled_output = { λ t _. Some (text_of (input_value_layout default_style 0 (input_value_view N.bytes t))) };

    fn fmt<W: fmt::Write>(&self, f: &mut fmt::Formatter<W>) -> fmt::Result
        ensures { Displays W.write_str_gives f.old result (λ s. input_value_layout s 0) input_value_levels
            (input_value_view N.bytes self.now) f.new }
    {
        fmt_in_default_style(self, f)
    }
}

impl<N: Names> fmt::Display for TypeExtension<N> {
    ghost output = { λ t. shown (type_extension_view N.bytes t) };

    ghost styled_output = { λ t _. shown (type_extension_view N.bytes t) };

    fn fmt<W: fmt::Write>(&self, f: &mut fmt::Formatter<W>) -> fmt::Result
        ensures { Displays W.write_str_gives f.old result definition_layout definition_levels
            (type_extension_view N.bytes self.now) f.new }
    {
        fmt_in_default_style(&self.outline(), f)
    }
}

impl<N: Names> fmt::Display for ScalarTypeExtension<N> {
    ghost output = { λ t. shown (scalar_extension_view N.bytes t) };

    ghost styled_output = { λ t _. shown (scalar_extension_view N.bytes t) };

    fn fmt<W: fmt::Write>(&self, f: &mut fmt::Formatter<W>) -> fmt::Result
        ensures { Displays W.write_str_gives f.old result definition_layout definition_levels
            (scalar_extension_view N.bytes self.now) f.new }
    {
        fmt_in_default_style(&self.outline(), f)
    }
}

impl<N: Names> fmt::Display for ObjectTypeExtension<N> {
    ghost output = { λ t. shown (object_extension_view N.bytes t) };

    ghost styled_output = { λ t _. shown (object_extension_view N.bytes t) };

    fn fmt<W: fmt::Write>(&self, f: &mut fmt::Formatter<W>) -> fmt::Result
        ensures { Displays W.write_str_gives f.old result definition_layout definition_levels
            (object_extension_view N.bytes self.now) f.new }
    {
        fmt_in_default_style(&self.outline(), f)
    }
}

impl<N: Names> fmt::Display for InterfaceTypeExtension<N> {
    ghost output = { λ t. shown (interface_extension_view N.bytes t) };

    ghost styled_output = { λ t _. shown (interface_extension_view N.bytes t) };

    fn fmt<W: fmt::Write>(&self, f: &mut fmt::Formatter<W>) -> fmt::Result
        ensures { Displays W.write_str_gives f.old result definition_layout definition_levels
            (interface_extension_view N.bytes self.now) f.new }
    {
        fmt_in_default_style(&self.outline(), f)
    }
}

impl<N: Names> fmt::Display for UnionTypeExtension<N> {
    ghost output = { λ t. shown (union_extension_view N.bytes t) };

    ghost styled_output = { λ t _. shown (union_extension_view N.bytes t) };

    fn fmt<W: fmt::Write>(&self, f: &mut fmt::Formatter<W>) -> fmt::Result
        ensures { Displays W.write_str_gives f.old result definition_layout definition_levels
            (union_extension_view N.bytes self.now) f.new }
    {
        fmt_in_default_style(&self.outline(), f)
    }
}

impl<N: Names> fmt::Display for EnumTypeExtension<N> {
    ghost output = { λ t. shown (enum_extension_view N.bytes t) };

    ghost styled_output = { λ t _. shown (enum_extension_view N.bytes t) };

    fn fmt<W: fmt::Write>(&self, f: &mut fmt::Formatter<W>) -> fmt::Result
        ensures { Displays W.write_str_gives f.old result definition_layout definition_levels
            (enum_extension_view N.bytes self.now) f.new }
    {
        fmt_in_default_style(&self.outline(), f)
    }
}

impl<N: Names> fmt::Display for InputObjectTypeExtension<N> {
    ghost output = { λ t. shown (input_extension_view N.bytes t) };

    ghost styled_output = { λ t _. shown (input_extension_view N.bytes t) };

    fn fmt<W: fmt::Write>(&self, f: &mut fmt::Formatter<W>) -> fmt::Result
        ensures { Displays W.write_str_gives f.old result definition_layout definition_levels
            (input_extension_view N.bytes self.now) f.new }
    {
        fmt_in_default_style(&self.outline(), f)
    }
}

impl<N: Names> fmt::Display for DirectiveDefinition<N> {
    ghost output = { λ t. shown (directive (directive_definition_view N.bytes t)) };

    ghost styled_output = { λ t _. shown (directive (directive_definition_view N.bytes t)) };

    fn fmt<W: fmt::Write>(&self, f: &mut fmt::Formatter<W>) -> fmt::Result
        ensures { Displays W.write_str_gives f.old result definition_layout definition_levels
            (directive (directive_definition_view N.bytes self.now)) f.new }
    {
        fmt_in_default_style(self, f)
    }
}

impl<N: Names> fmt::Display for SchemaExtension<N> {
    ghost output = { λ t. shown (schema_extension (schema_extension_view N.bytes t)) };

    ghost styled_output = { λ t _. shown (schema_extension (schema_extension_view N.bytes t)) };

    fn fmt<W: fmt::Write>(&self, f: &mut fmt::Formatter<W>) -> fmt::Result
        ensures { Displays W.write_str_gives f.old result definition_layout definition_levels
            (schema_extension (schema_extension_view N.bytes self.now)) f.new }
    {
        fmt_in_default_style(self, f)
    }
}
