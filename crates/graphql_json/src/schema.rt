//! Schema documents.
ghost use Rattle.std.specs.Prelude.{◌≡◌, ◌++◌, codes, OnOk, IfOk, option_map, string_bytes};
ghost use Rattle.graphql_core.specs.{directives_view};
ghost use Rattle.graphql_schema.specs.Tree.{schema_extension, directive};
ghost use Rattle.graphql_schema.specs.Views.{schema_definition_view, schema_extension_view, directive_definition_view};
ghost use Rattle.graphql_schema.specs.Views.{definition_view, document_view};
ghost use Rattle.graphql_json.specs.steps.Pieces.{Appends};
ghost use Rattle.graphql_json.specs.Json.{Elements, element, json_text, elements_text};
ghost use Rattle.graphql_json.specs.Nodes.{one};
ghost use Rattle.graphql_json.specs.Values.{directives_json};
ghost use Rattle.graphql_json.specs.Schema.{root_json, root_before, location_json, definition_json, document_json};
ghost use Rattle.graphql_json.specs.steps.{later};
ghost use Rattle.graphql_json.specs.Json as json;

// Begins the node of a definition, which can have a description, with this kind.
macro_rules! open_definition {
    ($out:expr, $kind:expr, $of:expr) => {
        open_described($out, $kind, &$of.position, &$of.description, N::view(&$of.name))
    };
}

mod parts;
mod types;

use crate::json::{
    close_node, open_node, write_boolean, write_label, write_separator, write_string, write_text,
};
use crate::node::{Node, document_to_json, write_named_node, write_nodes, write_valued};
use crate::schema::parts::{open_at, open_described, write_description};
use crate::values::write_directives;
use graphql_core::common::Names;
use graphql_core::common::tree::Directive;
use graphql_core::format::Buffer;
use graphql_schema::DirectiveLocation;
use graphql_schema::tree::{
    Definition, DirectiveDefinition, Document, SchemaDefinition, SchemaExtension,
};
use std::alloc::{AllocError, Global};

fn write_root_node(out: &mut Buffer, operation: &str, name: &str) -> Result<(), AllocError>
    ensures { OnOk result (Appends out.old (json_text (root_json operation.now name.now)) out.new) }
{
    open_node(out, "OperationTypeDefinition")?;
    write_string(out, "operation", operation)?;
    write_named_node(out, "type", "NamedType", name)?;
    close_node(out)
}

/// Appends the type of an operation to a list. Returns `true`: the next one is not the first.
fn write_present_root(
    out: &mut Buffer,
    is_later: bool,
    operation: &str,
    name: &str,
) -> Result<bool, AllocError>
    ensures { IfOk result (λ later. (others : Elements) → out.new ++ elements_text later others
        ≡ out.old ++ elements_text is_later (element (root_json operation.now name.now) others)) }
{
    write_separator(out, is_later)?;
    write_root_node(out, operation, name)?;
    Ok(true)
}

/// Appends the type of an operation to a list, if there is one. Returns whether the next one is not the first.
fn write_root<N: Names>(
    out: &mut Buffer,
    is_later: bool,
    operation: &str,
    name: &Option<N::Value>,
) -> Result<bool, AllocError>
    ensures { IfOk result (λ later. (others : Elements) → out.new ++ elements_text later others
        ≡ out.old ++ elements_text is_later (root_before operation.now (option_map N.bytes name.now) others)) }
{
    match name {
        Some(name) => write_present_root(out, is_later, operation, N::view(name)),
        None => Ok(is_later),
    }
}

/// Appends the directives and the operations of a schema, and ends its node.
fn write_operations<N: Names>(
    out: &mut Buffer,
    directives: &[Directive<N>],
    query: &Option<N::Value>,
    mutation: &Option<N::Value>,
    subscription: &Option<N::Value>,
) -> Result<(), AllocError>
    ensures { OnOk result (Appends out.old (later (directives_json (directives_view N.bytes directives.now)
        ++ one (codes "operationTypes") (json.array (root_before (codes "query") (option_map N.bytes query.now)
        (root_before (codes "mutation") (option_map N.bytes mutation.now)
        (root_before (codes "subscription") (option_map N.bytes subscription.now) json.no_elements))))) ++ codes "}")
        out.new) }
{
    write_directives(out, directives)?;
    write_label(out, "operationTypes")?;
    write_text(out, "[")?;
    let has_query = write_root::<N>(out, false, "query", query)?;
    let has_root = write_root::<N>(out, has_query, "mutation", mutation)?;
    write_root::<N>(out, has_root, "subscription", subscription)?;
    write_text(out, "]}")
}

// Appends the directives and the operations of a schema or of its extension, and ends its node.
macro_rules! write_operations_of {
    ($of:expr, $out:expr) => {
        write_operations::<N>(
            $out,
            &$of.directives,
            &$of.query,
            &$of.mutation,
            &$of.subscription,
        )
    };
}

impl<N: Names> Node for SchemaDefinition<N> {
    ghost as_json = { λ s. definition_json (schema_definition_view N.bytes s) };

    fn write(&self, out: &mut Buffer) -> Result<(), AllocError> {
        open_at(out, "SchemaDefinition", &self.position)?;
        write_description(out, &self.description)?;
        write_operations_of!(self, out)
    }
}

impl<N: Names> Node for SchemaExtension<N> {
    ghost as_json = { λ s. definition_json (schema_extension (schema_extension_view N.bytes s)) };

    fn write(&self, out: &mut Buffer) -> Result<(), AllocError> {
        open_at(out, "SchemaExtension", &self.position)?;
        write_operations_of!(self, out)
    }
}

impl Node for DirectiveLocation {
    ghost as_json = { location_json };

    fn write(&self, out: &mut Buffer) -> Result<(), AllocError> {
        write_valued(out, "Name", self.as_str())
    }
}

impl<N: Names> Node for DirectiveDefinition<N> {
    ghost as_json = { λ d. definition_json (directive (directive_definition_view N.bytes d)) };

    fn write(&self, out: &mut Buffer) -> Result<(), AllocError> {
        open_definition!(out, "DirectiveDefinition", self)?;
        write_nodes(out, "arguments", &self.arguments)?;
        write_boolean(out, "repeatable", self.repeatable)?;
        write_nodes(out, "locations", &self.locations)?;
        close_node(out)
    }
}

impl<N: Names> Node for Definition<N> {
    ghost as_json = { λ d. definition_json (definition_view N.bytes d) };

    fn write(&self, out: &mut Buffer) -> Result<(), AllocError> {
        match self {
            Definition::SchemaDefinition(definition) => definition.write(out),
            Definition::TypeDefinition(definition) => definition.write(out),
            Definition::TypeExtension(extension) => extension.write(out),
            Definition::SchemaExtension(extension) => extension.write(out),
            Definition::DirectiveDefinition(definition) => definition.write(out),
        }
    }
}

/// Returns a schema document as JSON. An error means that an allocation failed.
pub fn schema_to_json<N: Names>(alloc: Global, document: &Document<N>) -> Result<String, AllocError>
    ensures { IfOk result (λ text. string_bytes text ≡ json_text (document_json (document_view N.bytes document.now))) }
{
    document_to_json(alloc, &document.definitions)
}
