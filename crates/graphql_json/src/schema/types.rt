//! Types and their extensions.
ghost use Rattle.std.specs.Prelude.{◌++◌, codes, OnOk, map};
ghost use Rattle.graphql_core.specs.{directives_view};
ghost use Rattle.graphql_schema.specs.Views.{field_view, type_definition_view, type_extension_view};
ghost use Rattle.graphql_json.specs.steps.Pieces.{Appends};
ghost use Rattle.graphql_json.specs.Nodes.{each};
ghost use Rattle.graphql_json.specs.Values.{directives_json};
ghost use Rattle.graphql_json.specs.Schema.{field_json, named_types_json, definition_json};
ghost use Rattle.graphql_json.specs.steps.{later};

use crate::json::close_node;
use crate::node::{Node, write_nodes};
use crate::schema::parts::{open_described, write_named_types};
use crate::values::write_directives;
use graphql_core::common::Names;
use graphql_core::common::tree::Directive;
use graphql_core::format::Buffer;
use graphql_schema::tree::{Field, TypeDefinition, TypeExtension};
use std::alloc::AllocError;

/// Appends the directives of a type and the member that has its fields or its values, and ends its node.
fn write_parts<N: Names, T: Node>(
    out: &mut Buffer,
    directives: &[Directive<N>],
    label: &str,
    parts: &[T],
) -> Result<(), AllocError>
    ensures { OnOk result (Appends out.old (later (directives_json (directives_view N.bytes directives.now)
        ++ each label.now (map T.as_json parts.now)) ++ codes "}") out.new) }
{
    write_directives(out, directives)?;
    write_nodes(out, label, parts)?;
    close_node(out)
}

/// Appends the interfaces, the directives and the fields of a type, and ends its node.
fn write_fielded<N: Names>(
    out: &mut Buffer,
    interfaces: &[N::Value],
    directives: &[Directive<N>],
    fields: &[Field<N>],
) -> Result<(), AllocError>
    ensures { OnOk result (Appends out.old (later (named_types_json (codes "interfaces") (map N.bytes interfaces.now)
        ++ (directives_json (directives_view N.bytes directives.now)
        ++ each (codes "fields") (map field_json (map (field_view N.bytes) fields.now)))) ++ codes "}") out.new) }
{
    write_named_types::<N>(out, "interfaces", interfaces)?;
    write_parts(out, directives, "fields", fields)
}

/// Appends the directives and the member types of a union, and ends its node.
fn write_union<N: Names>(
    out: &mut Buffer,
    directives: &[Directive<N>],
    types: &[N::Value],
) -> Result<(), AllocError>
    ensures { OnOk result (Appends out.old (later (directives_json (directives_view N.bytes directives.now)
        ++ named_types_json (codes "types") (map N.bytes types.now)) ++ codes "}") out.new) }
{
    write_directives(out, directives)?;
    write_named_types::<N>(out, "types", types)?;
    close_node(out)
}

/// Appends the directives of a scalar type, and ends its node.
fn write_scalar<N: Names>(out: &mut Buffer, directives: &[Directive<N>]) -> Result<(), AllocError>
    ensures { OnOk result
        (Appends out.old (later (directives_json (directives_view N.bytes directives.now)) ++ codes "}") out.new) }
{
    write_directives(out, directives)?;
    close_node(out)
}

// Begins the node of an extension of a type, which has no description, with this kind.
macro_rules! open_extension {
    ($out:expr, $kind:expr, $of:expr) => {
        open_described($out, $kind, &$of.position, &None, N::view(&$of.name))
    };
}

// Appends the node of a type or of an extension of a type. `$open` begins it, and `$suffix` ends its kind.
macro_rules! write_type {
    ($of:expr, $out:expr, $kinds:ident, $open:ident, $suffix:literal) => {
        match $of {
            $kinds::Scalar(of) => {
                $open!($out, concat!("ScalarType", $suffix), of)?;
                write_scalar($out, &of.directives)
            }
            $kinds::Object(of) => {
                $open!($out, concat!("ObjectType", $suffix), of)?;
                write_fielded::<N>($out, &of.implements_interfaces, &of.directives, &of.fields)
            }
            $kinds::Interface(of) => {
                $open!($out, concat!("InterfaceType", $suffix), of)?;
                write_fielded::<N>($out, &of.implements_interfaces, &of.directives, &of.fields)
            }
            $kinds::Union(of) => {
                $open!($out, concat!("UnionType", $suffix), of)?;
                write_union::<N>($out, &of.directives, &of.types)
            }
            $kinds::Enum(of) => {
                $open!($out, concat!("EnumType", $suffix), of)?;
                write_parts($out, &of.directives, "values", &of.values)
            }
            $kinds::InputObject(of) => {
                $open!($out, concat!("InputObjectType", $suffix), of)?;
                write_parts($out, &of.directives, "fields", &of.fields)
            }
        }
    };
}

impl<N: Names> Node for TypeDefinition<N> {
    ghost as_json = { λ t. definition_json (type_definition_view N.bytes t) };

    fn write(&self, out: &mut Buffer) -> Result<(), AllocError> {
        write_type!(self, out, TypeDefinition, open_definition, "Definition")
    }
}

impl<N: Names> Node for TypeExtension<N> {
    ghost as_json = { λ t. definition_json (type_extension_view N.bytes t) };

    fn write(&self, out: &mut Buffer) -> Result<(), AllocError> {
        write_type!(self, out, TypeExtension, open_extension, "Extension")
    }
}
