//! Definitions, and lists of them.
ghost use Rattle.std.specs.Prelude.{◌≡◌, map};
ghost use Rattle.graphql_core.specs.{Sym, some_of, each_of};
ghost use Rattle.graphql_schema.specs.{item_symbol, item_of, definition_view, sees_definition, ReadsNode};

use crate::read::description::{optional_description, sees_description};
use crate::read::directive::directive_definition;
use crate::read::extension::extension;
use crate::read::invalid_node::InvalidNode;
use crate::read::keyword::{Keyword, peek_keyword, sees_definition_keyword};
use crate::read::schema::schema_definition;
use crate::read::types::{Scratch, type_body};
use crate::tree::Definition;
use graphql_core::common::read::node_error::NodeError;
use graphql_core::helpers::{ReadError, TokenSource, sees_keyword};
use std::alloc::Global;

/// `SchemaItem = Description? Schema | Extension | Described`,
/// where `Described = Description? TypeBody | Description? DirectiveDef`
/// and `TypeBody = Scalar | Object | Interface | Union | Enum | Input`. Parts of a type are collected in `scratch`.
#[tactic(auto, using(graphql_core::proofs::readers::Reading::reader_steps))]
fn definition<S: TokenSource>(
    alloc: Global,
    source: &mut S,
    scratch: &mut Scratch<S::Names>,
) -> Result<Definition<S::Names>, NodeError<InvalidNode>>
    ensures { ReadsNode (Sym item_symbol) (S.items source.old) (S.items source.new)
        (λ v x. definition_view S.Names.bytes v ≡ item_of x) result }
{
    if sees_keyword(source, "extend") {
        return extension(alloc, source, scratch);
    }
    let description = optional_description(alloc, source)?;
    match peek_keyword(source) {
        Some(Keyword::Schema) => {
            let mut schema = schema_definition(alloc, source)?;
            schema.description = description;
            Ok(Definition::SchemaDefinition(schema))
        }
        Some(Keyword::OfType(kind)) => {
            let body = type_body(alloc, source, kind, scratch)?;
            Ok(Definition::TypeDefinition(body.into_definition(description)))
        }
        Some(Keyword::Directive) => {
            let mut definition = directive_definition(alloc, source)?;
            definition.description = description;
            Ok(Definition::DirectiveDefinition(definition))
        }
        None => Err(NodeError::Stopped(ReadError::Item)),
    }
}

/// Whether the next token can begin a definition.
fn sees_definition<S: TokenSource>(source: &S) -> bool
    ensures { result ≡ sees_definition (S.items source.now) }
{
    sees_description(source) || sees_definition_keyword(source) || sees_keyword(source, "extend")
}

/// `SchemaDocument = SchemaItem+`, without the end of the input after it.
#[tactic(auto, using(graphql_core::proofs::readers::Reading::reader_steps))]
pub fn definitions<S: TokenSource>(
    alloc: Global,
    source: &mut S,
) -> Result<Vec<Definition<S::Names>>, NodeError<InvalidNode>>
    ensures { ReadsNode (some_of (Sym item_symbol)) (S.items source.old) (S.items source.new)
        (λ v x. map (definition_view S.Names.bytes) v.items ≡ each_of item_of x) result }
{
    let mut definitions = Vec::new(alloc);
    let mut scratch = Scratch::new(alloc);
    let first = definition(alloc, source, &mut scratch)?;
    definitions.reserve(1)?;
    definitions.push_reserved(first);
    'more: while sees_definition(source) {
        let next = definition(alloc, source, &mut scratch)?;
        definitions.reserve(1)?;
        definitions.push_reserved(next);
    }
    Ok(definitions)
}
