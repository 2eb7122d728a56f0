//! Formatting schema definitions and extensions of the schema.
ghost use Rattle.std.specs.Prelude.{◌≡◌, OnOk, option_map};
ghost use Rattle.graphql_core.specs.{text_of};
ghost use Rattle.graphql_schema.specs.{IsWellFormedDefinition, root_layout, roots_layout, definition_layout};
ghost use Rattle.graphql_schema.specs.{definition_levels, schema_extension, has_operation, schema_definition_view};
ghost use Rattle.graphql_schema.specs.{schema_extension_view};

use crate::print::description::{levels_in_description, write_description};
use crate::tree::{SchemaDefinition, SchemaExtension};
use graphql_core::common::Names;
use graphql_core::format::print::{Pretty, levels_in_directives, write_directives, write_spaces};
use graphql_core::format::{Sink, Style};

/// Appends the line of an operation, if the operation has a type.
fn write_root<S: Sink, N: Names>(
    out: &mut S,
    word: &str,
    name: &Option<N::Value>,
    margin: usize,
) -> Result<(), S::Error>
    ensures { OnOk result
        (S.took out.old (text_of (root_layout margin word.now (option_map N.bytes name.now))) out.new) }
{
    let Some(name) = name else {
        return Ok(());
    };
    write_spaces(out, margin)?;
    out.push_str(word)?;
    out.push_str(": ")?;
    out.push_str(N::view(name))?;
    out.push_str("\n")
}

/// Appends the lines of the operations, in braces.
fn write_roots<S: Sink, N: Names>(
    out: &mut S,
    query: &Option<N::Value>,
    mutation: &Option<N::Value>,
    subscription: &Option<N::Value>,
    style: &Style,
) -> Result<(), S::Error>
    ensures { OnOk result (S.took out.old
        (text_of (roots_layout style.now (option_map N.bytes query.now) (option_map N.bytes mutation.now)
        (option_map N.bytes subscription.now))) out.new) }
{
    out.push_str(" {\n")?;
    let inside = style.indentation() as usize;
    write_root::<S, N>(out, "query", query, inside)?;
    write_root::<S, N>(out, "mutation", mutation, inside)?;
    write_root::<S, N>(out, "subscription", subscription, inside)?;
    out.push_str("}\n")
}

impl<N: Names> Pretty for SchemaDefinition<N> {
    ghost lines = { λ style _ s. definition_layout style (schema_definition_view N.bytes s) };

    ghost opens = { λ style s. definition_levels style (schema_definition_view N.bytes s) };

    ghost well_formed = { λ s. IsWellFormedDefinition (schema_definition_view N.bytes s) };

    fn levels(&self, style: &Style) -> usize {
        let described = levels_in_description(&self.description);
        described.max(levels_in_directives(&self.directives, style).max(1))
    }

    fn write<S: Sink>(&self, out: &mut S, style: &Style, _margin: usize) -> Result<(), S::Error> {
        write_description(out, &self.description, style, 0)?;
        out.push_str("schema")?;
        write_directives(out, &self.directives, style, 0)?;
        write_roots::<S, N>(out, &self.query, &self.mutation, &self.subscription, style)
    }
}

fn has_operation<N: Names>(extension: &SchemaExtension<N>) -> bool
    ensures { result ≡ has_operation (schema_extension_view N.bytes extension.now) }
{
    extension.query.is_some() || extension.mutation.is_some() || extension.subscription.is_some()
}

impl<N: Names> Pretty for SchemaExtension<N> {
    ghost lines = { λ style _ s. definition_layout style (schema_extension (schema_extension_view N.bytes s)) };

    ghost opens = { λ style s. definition_levels style (schema_extension (schema_extension_view N.bytes s)) };

    ghost well_formed = { λ s. IsWellFormedDefinition (schema_extension (schema_extension_view N.bytes s)) };

    fn levels(&self, style: &Style) -> usize {
        let operations = if has_operation(self) { 1 } else { 0 };
        levels_in_directives(&self.directives, style).max(operations)
    }

    fn write<S: Sink>(&self, out: &mut S, style: &Style, _margin: usize) -> Result<(), S::Error> {
        out.push_str("extend schema")?;
        write_directives(out, &self.directives, style, 0)?;
        if !has_operation(self) {
            return out.push_str("\n");
        }
        write_roots::<S, N>(out, &self.query, &self.mutation, &self.subscription, style)
    }
}
