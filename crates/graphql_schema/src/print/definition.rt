//! Formatting directive definitions, definitions and documents.
ghost use Rattle.graphql_schema.specs.{IsWellFormedDefinition, IsWellFormedDocument, definition_layout};
ghost use Rattle.graphql_schema.specs.{document_layout};
ghost use Rattle.graphql_schema.specs.{definition_levels, levels, directive, directive_definition_view};
ghost use Rattle.graphql_schema.specs.{definition_view, document_view};

use crate::print::description::{levels_in_description, write_description};
use crate::print::field::write_arguments;
use crate::print::names::{write_locations, write_repeatable};
use crate::tree::{Definition, DirectiveDefinition, Document};
use graphql_core::common::Names;
use graphql_core::format::print::{Pretty, levels_in_each, write_joined};
use graphql_core::format::{Sink, Style};

impl<N: Names> Pretty for DirectiveDefinition<N> {
    ghost lines = { λ style _ d. definition_layout style (directive (directive_definition_view N.bytes d)) };

    ghost opens = { λ style d. definition_levels style (directive (directive_definition_view N.bytes d)) };

    ghost well_formed = { λ d. IsWellFormedDefinition (directive (directive_definition_view N.bytes d)) };

    fn levels(&self, style: &Style) -> usize {
        levels_in_description(&self.description).max(levels_in_each(&self.arguments, style))
    }

    fn write<S: Sink>(&self, out: &mut S, style: &Style, _margin: usize) -> Result<(), S::Error> {
        write_description(out, &self.description, style, 0)?;
        out.push_str("directive @")?;
        out.push_str(N::view(&self.name))?;
        write_arguments(out, &self.arguments, style, 0)?;
        write_repeatable(out, self.repeatable)?;
        write_locations(out, &self.locations)?;
        out.push_str("\n")
    }
}

impl<N: Names> Pretty for Definition<N> {
    ghost lines = { λ style _ d. definition_layout style (definition_view N.bytes d) };

    ghost opens = { λ style d. definition_levels style (definition_view N.bytes d) };

    ghost well_formed = { λ d. IsWellFormedDefinition (definition_view N.bytes d) };

    fn levels(&self, style: &Style) -> usize {
        match self {
            Definition::SchemaDefinition(schema) => schema.levels(style),
            Definition::TypeDefinition(definition) => definition.outline().levels(style),
            Definition::TypeExtension(extension) => extension.outline().levels(style),
            Definition::SchemaExtension(extension) => extension.levels(style),
            Definition::DirectiveDefinition(directive) => directive.levels(style),
        }
    }

    fn write<S: Sink>(&self, out: &mut S, style: &Style, margin: usize) -> Result<(), S::Error> {
        match self {
            Definition::SchemaDefinition(schema) => schema.write(out, style, margin),
            Definition::TypeDefinition(definition) => {
                definition.outline().write(out, style, margin)
            }
            Definition::TypeExtension(extension) => {
                extension.outline().write(out, style, margin)
            }
            Definition::SchemaExtension(extension) => extension.write(out, style, margin),
            Definition::DirectiveDefinition(directive) => directive.write(out, style, margin),
        }
    }
}

/// A document: its definitions, separated by empty lines.
impl<N: Names> Pretty for Document<N> {
    ghost lines = { λ style _ d. document_layout style (document_view N.bytes d) };

    ghost opens = { λ style d. levels style (document_view N.bytes d) };

    ghost well_formed = { λ d. IsWellFormedDocument (document_view N.bytes d) };

    fn levels(&self, style: &Style) -> usize {
        levels_in_each(&self.definitions, style)
    }

    fn write<S: Sink>(&self, out: &mut S, style: &Style, _margin: usize) -> Result<(), S::Error> {
        write_joined(out, "\n", &self.definitions, style, 0)
    }
}
