//! `Display` of documents, definitions and types: in the default style, and an error if that is too wide.
ghost use Rattle.std.specs.Prelude.{Some};
ghost use Rattle.graphql_core.specs.{default_style, Displays};
ghost use Rattle.graphql_schema.specs.{layout, shown, levels, document_layout, definition_layout, definition_levels};
ghost use Rattle.graphql_schema.specs.{document_view, definition_view};
ghost use Rattle.graphql_schema.specs.{schema_definition_view, type_definition_view, scalar_view, object_view};
ghost use Rattle.graphql_schema.specs.{interface_view, union_view, enum_view, input_view};

mod parts;

use crate::tree::{
    Definition, Document, EnumType, InputObjectType, InterfaceType, ObjectType, ScalarType,
    SchemaDefinition, TypeDefinition, UnionType,
};
use graphql_core::common::Names;
use graphql_core::format::Style;
use graphql_core::format::print::{Pretty, fmt_in_default_style};
use std::fmt;

impl<N: Names> fmt::Display for Document<N> {
    ghost output = { λ t. Some (layout default_style (document_view N.bytes t)) };

    ghost styled_output = { λ t _. Some (layout default_style (document_view N.bytes t)) };

    fn fmt<W: fmt::Write>(&self, f: &mut fmt::Formatter<W>) -> fmt::Result
        ensures { Displays W.write_str_gives f.old result document_layout levels
            (document_view N.bytes self.now) f.new }
    {
        // No document is too wide in this style.
        let style = Style::default();
        self.write(f, &style, 0)
    }
}

impl<N: Names> fmt::Display for Definition<N> {
    ghost output = { λ t. shown (definition_view N.bytes t) };

    ghost styled_output = { λ t _. shown (definition_view N.bytes t) };

    fn fmt<W: fmt::Write>(&self, f: &mut fmt::Formatter<W>) -> fmt::Result
        ensures { Displays W.write_str_gives f.old result definition_layout definition_levels
            (definition_view N.bytes self.now) f.new }
    {
        fmt_in_default_style(self, f)
    }
}

impl<N: Names> fmt::Display for SchemaDefinition<N> {
    ghost output = { λ t. shown (schema_definition_view N.bytes t) };

    ghost styled_output = { λ t _. shown (schema_definition_view N.bytes t) };

    fn fmt<W: fmt::Write>(&self, f: &mut fmt::Formatter<W>) -> fmt::Result
        ensures { Displays W.write_str_gives f.old result definition_layout definition_levels
            (schema_definition_view N.bytes self.now) f.new }
    {
        fmt_in_default_style(self, f)
    }
}

impl<N: Names> fmt::Display for TypeDefinition<N> {
    ghost output = { λ t. shown (type_definition_view N.bytes t) };

    ghost styled_output = { λ t _. shown (type_definition_view N.bytes t) };

    fn fmt<W: fmt::Write>(&self, f: &mut fmt::Formatter<W>) -> fmt::Result
        ensures { Displays W.write_str_gives f.old result definition_layout definition_levels
            (type_definition_view N.bytes self.now) f.new }
    {
        fmt_in_default_style(&self.outline(), f)
    }
}

impl<N: Names> fmt::Display for ScalarType<N> {
    ghost output = { λ t. shown (scalar_view N.bytes t) };

    ghost styled_output = { λ t _. shown (scalar_view N.bytes t) };

    fn fmt<W: fmt::Write>(&self, f: &mut fmt::Formatter<W>) -> fmt::Result
        ensures { Displays W.write_str_gives f.old result definition_layout definition_levels
            (scalar_view N.bytes self.now) f.new }
    {
        fmt_in_default_style(&self.outline(), f)
    }
}

impl<N: Names> fmt::Display for ObjectType<N> {
    ghost output = { λ t. shown (object_view N.bytes t) };

    ghost styled_output = { λ t _. shown (object_view N.bytes t) };

    fn fmt<W: fmt::Write>(&self, f: &mut fmt::Formatter<W>) -> fmt::Result
        ensures { Displays W.write_str_gives f.old result definition_layout definition_levels
            (object_view N.bytes self.now) f.new }
    {
        fmt_in_default_style(&self.outline(), f)
    }
}

impl<N: Names> fmt::Display for InterfaceType<N> {
    ghost output = { λ t. shown (interface_view N.bytes t) };

    ghost styled_output = { λ t _. shown (interface_view N.bytes t) };

    fn fmt<W: fmt::Write>(&self, f: &mut fmt::Formatter<W>) -> fmt::Result
        ensures { Displays W.write_str_gives f.old result definition_layout definition_levels
            (interface_view N.bytes self.now) f.new }
    {
        fmt_in_default_style(&self.outline(), f)
    }
}

impl<N: Names> fmt::Display for UnionType<N> {
    ghost output = { λ t. shown (union_view N.bytes t) };

    ghost styled_output = { λ t _. shown (union_view N.bytes t) };

    fn fmt<W: fmt::Write>(&self, f: &mut fmt::Formatter<W>) -> fmt::Result
        ensures { Displays W.write_str_gives f.old result definition_layout definition_levels
            (union_view N.bytes self.now) f.new }
    {
        fmt_in_default_style(&self.outline(), f)
    }
}

impl<N: Names> fmt::Display for EnumType<N> {
    ghost output = { λ t. shown (enum_view N.bytes t) };

    ghost styled_output = { λ t _. shown (enum_view N.bytes t) };

    fn fmt<W: fmt::Write>(&self, f: &mut fmt::Formatter<W>) -> fmt::Result
        ensures { Displays W.write_str_gives f.old result definition_layout definition_levels
            (enum_view N.bytes self.now) f.new }
    {
        fmt_in_default_style(&self.outline(), f)
    }
}

impl<N: Names> fmt::Display for InputObjectType<N> {
    ghost output = { λ t. shown (input_view N.bytes t) };

    ghost styled_output = { λ t _. shown (input_view N.bytes t) };

    fn fmt<W: fmt::Write>(&self, f: &mut fmt::Formatter<W>) -> fmt::Result
        ensures { Displays W.write_str_gives f.old result definition_layout definition_levels
            (input_view N.bytes self.now) f.new }
    {
        fmt_in_default_style(&self.outline(), f)
    }
}
