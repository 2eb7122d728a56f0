//! Extensions of types and of the schema.
ghost use Rattle.std.specs.Prelude.{◌≡◌};
ghost use Rattle.graphql_core.specs.{Sym};
ghost use Rattle.graphql_schema.specs.{extension_symbol, extension_of, adds_to_schema, schema_extension_view};
ghost use Rattle.graphql_schema.specs.{definition_view, ReadsNode};

use crate::read::invalid_node::InvalidNode;
use crate::read::keyword::{Keyword, peek_keyword};
use crate::read::schema::schema_extension;
use crate::read::types::{Scratch, type_body};
use crate::tree::{Definition, SchemaExtension};
use graphql_core::common::Names;
use graphql_core::common::read::node_error::NodeError;
use graphql_core::helpers::{ReadError, TokenSource, expect_keyword};
use std::alloc::Global;

/// Whether an extension of the schema adds something: a directive or an operation.
fn adds_to_schema<N: Names>(added: &SchemaExtension<N>) -> bool
    ensures { result ≡ adds_to_schema (schema_extension_view N.bytes added.now) }
{
    !added.directives.is_empty()
        || added.query.is_some()
        || added.mutation.is_some()
        || added.subscription.is_some()
}

/// `Extension = "extend" TypeBody | "extend" SchemaExt`. An extension for which
/// `adds_something` or `adds_to_schema` is false is rejected. Parts of a type are collected in `scratch`.
#[tactic(auto, using(graphql_core::proofs::readers::Reading::reader_steps))]
pub fn extension<S: TokenSource>(
    alloc: Global,
    source: &mut S,
    scratch: &mut Scratch<S::Names>,
) -> Result<Definition<S::Names>, NodeError<InvalidNode>>
    ensures { ReadsNode (Sym extension_symbol) (S.items source.old) (S.items source.new)
        (λ v x. definition_view S.Names.bytes v ≡ extension_of x) result }
{
    expect_keyword(source, "extend")?;
    match peek_keyword(source) {
        Some(Keyword::Schema) => {
            let extension = schema_extension(alloc, source)?;
            if !adds_to_schema(&extension) {
                return Err(NodeError::RejectedNode(InvalidNode::Extension(extension.position)));
            }
            Ok(Definition::SchemaExtension(extension))
        }
        Some(Keyword::OfType(kind)) => {
            let body = type_body(alloc, source, kind, scratch)?;
            if !body.adds_something() {
                return Err(NodeError::RejectedNode(InvalidNode::Extension(body.position)));
            }
            Ok(Definition::TypeExtension(body.into_extension()))
        }
        Some(Keyword::Directive) => Err(NodeError::Stopped(ReadError::Item)),
        None => Err(NodeError::Stopped(ReadError::Item)),
    }
}
