//! Nodes, members that are nodes, and lists of nodes.
ghost use Rattle.std.specs.Prelude.{◌≡◌, OnOk, IfOk, map, option_map, string_bytes};
ghost use Rattle.graphql_json.specs.steps.Pieces.{Appends};
ghost use Rattle.graphql_json.specs.{json_text, one, optional, each, later, document_node};
ghost use Rattle.graphql_json.specs.{name_json, named_json, string_json, valued_json};
ghost use Rattle.graphql_json.specs.Json as json;

use crate::json::{close_node, open_node, write_label, write_separator, write_string, write_text};
use graphql_core::common::Names;
use graphql_core::format::Buffer;
use std::alloc::{AllocError, Global};

/// A tree that has a node.
pub trait Node {
    ghost use Rattle.graphql_json.specs.Json.{Json};

    /// The node of the tree.
    ghost as_json: { Self → Json };

    /// Appends the node.
    fn write(&self, out: &mut Buffer) -> Result<(), AllocError>
        ensures { OnOk result (Appends out.old (json_text (as_json self.now)) out.new) };
}

/// Appends a member that is a node.
pub fn write_node<T: Node>(out: &mut Buffer, name: &str, node: &T) -> Result<(), AllocError>
    ensures { OnOk result (Appends out.old (later (one name.now (T.as_json node.now))) out.new) }
{
    write_label(out, name)?;
    node.write(out)
}

/// Appends a member that is a node, or nothing without one.
pub fn write_optional_node<T: Node>(
    out: &mut Buffer,
    name: &str,
    node: &Option<T>,
) -> Result<(), AllocError>
    ensures { OnOk result (Appends out.old (later (optional name.now (option_map T.as_json node.now))) out.new) }
{
    match node {
        Some(node) => write_node(out, name, node),
        None => Ok(()),
    }
}

/// Appends a member that is a list of nodes.
pub fn write_nodes<T: Node>(out: &mut Buffer, name: &str, nodes: &[T]) -> Result<(), AllocError>
    ensures { OnOk result (Appends out.old (later (each name.now (map T.as_json nodes.now))) out.new) }
{
    write_label(out, name)?;
    write_text(out, "[")?;
    let mut is_later = false;
    'nodes: for node in nodes {
        write_separator(out, is_later)?;
        node.write(out)?;
        is_later = true;
    }
    write_text(out, "]")
}

/// Appends a node that has only a string value.
pub fn write_valued(out: &mut Buffer, kind: &str, value: &str) -> Result<(), AllocError>
    ensures { OnOk result (Appends out.old (json_text (valued_json kind.now (json.string value.now))) out.new) }
{
    open_node(out, kind)?;
    write_string(out, "value", value)?;
    close_node(out)
}

/// Appends a member that is a string value.
pub fn write_string_value(out: &mut Buffer, label: &str, text: &str) -> Result<(), AllocError>
    ensures { OnOk result (Appends out.old (later (one label.now (string_json text.now))) out.new) }
{
    write_label(out, label)?;
    write_valued(out, "StringValue", text)
}

/// Appends a member that is a name.
pub fn write_name(out: &mut Buffer, label: &str, name: &str) -> Result<(), AllocError>
    ensures { OnOk result (Appends out.old (later (one label.now (name_json name.now))) out.new) }
{
    write_label(out, label)?;
    write_valued(out, "Name", name)
}

/// Appends a member that is a name, or nothing without one.
pub fn write_optional_name<N: Names>(
    out: &mut Buffer,
    label: &str,
    name: &Option<N::Value>,
) -> Result<(), AllocError>
    ensures { OnOk result
        (Appends out.old (later (optional label.now (option_map name_json (option_map N.bytes name.now)))) out.new) }
{
    match name {
        Some(name) => write_name(out, label, N::view(name)),
        None => Ok(()),
    }
}

/// Appends a node that has only a name.
pub fn write_named(out: &mut Buffer, kind: &str, name: &str) -> Result<(), AllocError>
    ensures { OnOk result (Appends out.old (json_text (named_json kind.now name.now)) out.new) }
{
    open_node(out, kind)?;
    write_name(out, "name", name)?;
    close_node(out)
}

/// Appends a member that is a node with only a name.
pub fn write_named_node(
    out: &mut Buffer,
    label: &str,
    kind: &str,
    name: &str,
) -> Result<(), AllocError>
    ensures { OnOk result (Appends out.old (later (one label.now (named_json kind.now name.now))) out.new) }
{
    write_label(out, label)?;
    write_named(out, kind, name)
}

/// Appends the node of a document with these definitions.
fn write_document<T: Node>(out: &mut Buffer, definitions: &[T]) -> Result<(), AllocError>
    ensures { OnOk result (Appends out.old (json_text (document_node (map T.as_json definitions.now))) out.new) }
{
    open_node(out, "Document")?;
    write_nodes(out, "definitions", definitions)?;
    close_node(out)
}

/// Returns a document with these definitions as JSON. An error means that an allocation failed.
pub fn document_to_json<T: Node>(alloc: Global, definitions: &[T]) -> Result<String, AllocError>
    ensures { IfOk result (λ text. string_bytes text ≡ json_text (document_node (map T.as_json definitions.now))) }
{
    let mut out = Buffer::new(alloc);
    write_document(&mut out, definitions)?;
    Ok(out.into_string())
}
