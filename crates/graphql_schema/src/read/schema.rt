//! Schema definitions and extensions of the schema: the root operation types.
ghost use Rattle.std.specs.Prelude.{◌≡◌, IfOk, List, [], ◌∷◌, ◌++◌};
ghost use Rattle.graphql_core.specs.{Sym, Many, optional};
ghost use Rattle.graphql_schema.specs.Roots.{Root, root_at, roots_of, roots_in};
ghost use Rattle.graphql_schema.specs.Grammar.{schema_symbol, root_type_symbol, schema_extension_symbol, roots_symbol};
ghost use Rattle.graphql_schema.specs.Meanings.{schema_of, schema_extension_of};
ghost use Rattle.graphql_schema.specs.Views.{schema_view, schema_extension_view};
ghost use Rattle.graphql_schema.specs.steps.Readers.{Reads};
ghost use Rattle.graphql_schema.specs.steps.Rejections.{ReadsNode};
ghost use Rattle.graphql_schema.specs.steps.RootsRead.{HasRoots, Fills};

use crate::read::invalid_node::InvalidNode;
use crate::tree::{SchemaDefinition, SchemaExtension};
use graphql_core::common::read::directives;
use graphql_core::common::read::node_error::NodeError;
use graphql_core::common::{Cause, Names};
use graphql_core::helpers::{
    Punctuator, ReadError, TokenSource, expect_keyword, expect_name, expect_punctuator,
};
use std::alloc::{AllocError, Global};

/// The operations of a schema that were read so far.
#[derive(Drop)]
struct Roots<N: Names> {
    query: Option<N::Value>,
    mutation: Option<N::Value>,
    subscription: Option<N::Value>,
    /// The error of the first operation that is unknown or a duplicate.
    cause: Option<Cause>,
}

/// No operations yet.
fn no_roots<N: Names>() -> Roots<N>
    ensures { HasRoots N.bytes result [] }
{
    Roots {
        query: None,
        mutation: None,
        subscription: None,
        cause: None,
    }
}

/// Gives an operation its type, or sets `cause` if the operation already has one.
fn fill<V: Drop>(
    alloc: Global,
    slot: &mut Option<V>,
    cause: &mut Option<Cause>,
    operation: &str,
    type_name: V,
) -> Result<(), AllocError>
    ensures { IfOk result (λ u. Fills operation.now type_name slot.old slot.new cause.old cause.new) }
{
    if slot.is_some() {
        *cause = Some(Cause::DuplicateOperation(String::from_str(alloc, operation)?));
        return Ok(());
    }
    *slot = Some(type_name);
    Ok(())
}

/// Adds an operation and its type. `cause` keeps the first error.
fn add_root<N: Names>(
    alloc: Global,
    roots: &mut Roots<N>,
    operation: &str,
    type_name: N::Value,
) -> Result<(), AllocError>
    ensures { (rs : List Root) → HasRoots N.bytes roots.old rs
        → IfOk result
        (λ u. HasRoots N.bytes roots.new (rs ++ record { name = operation.now; type_name = N.bytes type_name } ∷ [])) }
{
    let cause = &mut roots.cause;
    if cause.is_some() {
        return Ok(());
    }
    if operation == "query" {
        return fill(alloc, &mut roots.query, cause, operation, type_name);
    }
    if operation == "mutation" {
        return fill(alloc, &mut roots.mutation, cause, operation, type_name);
    }
    if operation == "subscription" {
        return fill(alloc, &mut roots.subscription, cause, operation, type_name);
    }
    *cause = Some(Cause::UnknownOperation(String::from_str(alloc, operation)?));
    Ok(())
}

/// `RootType = Name ":" Name`. Adds the operation to `roots`.
#[tactic(auto, using(graphql_core::proofs::readers::Reading::reader_steps))]
fn root_type<S: TokenSource>(
    alloc: Global,
    source: &mut S,
    roots: &mut Roots<S::Names>,
) -> Result<(), ReadError>
    ensures { Reads (Sym root_type_symbol) (S.items source.old) (S.items source.new)
        (λ v x. (rs : List Root) → HasRoots S.Names.bytes roots.old rs
        → HasRoots S.Names.bytes roots.new (rs ++ root_at x ∷ [])) result }
{
    let operation = expect_name(alloc, source)?;
    expect_punctuator(source, Punctuator::Colon)?;
    let type_name = expect_name(alloc, source)?;
    add_root::<S::Names>(alloc, roots, S::Names::view(&operation), type_name)?;
    Ok(())
}

/// `RootType*`. Adds the operations to `roots`.
#[tactic(auto, using(graphql_core::proofs::readers::Reading::reader_steps))]
fn root_types<S: TokenSource>(
    alloc: Global,
    source: &mut S,
    roots: &mut Roots<S::Names>,
) -> Result<(), ReadError>
    ensures { Reads (Many (Sym root_type_symbol)) (S.items source.old) (S.items source.new)
        (λ v x. (rs : List Root) → HasRoots S.Names.bytes roots.old rs
        → HasRoots S.Names.bytes roots.new (rs ++ roots_of x)) result }
{
    'more: while source.sees_name() {
        root_type(alloc, source, roots)?;
    }
    Ok(())
}

/// `Schema = "schema" Directives "{" RootType* "}"`, without its description.
/// Unknown and duplicate operations are rejected.
#[tactic(auto, using(graphql_core::proofs::readers::Reading::reader_steps))]
pub fn schema_definition<S: TokenSource>(
    alloc: Global,
    source: &mut S,
) -> Result<SchemaDefinition<S::Names>, NodeError<InvalidNode>>
    ensures { ReadsNode (Sym schema_symbol) (S.items source.old) (S.items source.new)
        (λ v x. schema_view S.Names.bytes v ≡ schema_of x) result }
{
    let position = expect_keyword(source, "schema")?;
    let directives = directives::directives(alloc, source)?;
    expect_punctuator(source, Punctuator::OpenBrace)?;
    let mut roots = no_roots::<S::Names>();
    root_types(alloc, source, &mut roots)?;
    expect_punctuator(source, Punctuator::CloseBrace)?;
    let Roots {
        query,
        mutation,
        subscription,
        cause,
    } = roots;
    match cause {
        Some(cause) => Err(NodeError::RejectedNode(InvalidNode::Schema(cause, position))),
        None => Ok(SchemaDefinition {
            position,
            description: None,
            directives,
            query,
            mutation,
            subscription,
        }),
    }
}

/// `Roots?`, `Roots = "{" RootType+ "}"`
#[tactic(auto, using(graphql_core::proofs::readers::Reading::reader_steps))]
fn optional_roots<S: TokenSource>(
    alloc: Global,
    source: &mut S,
) -> Result<Roots<S::Names>, ReadError>
    ensures { Reads (optional (Sym roots_symbol)) (S.items source.old) (S.items source.new)
        (λ v x. HasRoots S.Names.bytes v (roots_in x)) result }
{
    let mut roots = no_roots::<S::Names>();
    if !source.sees_punctuator(Punctuator::OpenBrace) {
        return Ok(roots);
    }
    expect_punctuator(source, Punctuator::OpenBrace)?;
    root_type(alloc, source, &mut roots)?;
    root_types(alloc, source, &mut roots)?;
    expect_punctuator(source, Punctuator::CloseBrace)?;
    Ok(roots)
}

/// `SchemaExt = "schema" Directives Roots?`. Unknown and duplicate operations are rejected.
#[tactic(auto, using(graphql_core::proofs::readers::Reading::reader_steps))]
pub fn schema_extension<S: TokenSource>(
    alloc: Global,
    source: &mut S,
) -> Result<SchemaExtension<S::Names>, NodeError<InvalidNode>>
    ensures { ReadsNode (Sym schema_extension_symbol) (S.items source.old) (S.items source.new)
        (λ v x. schema_extension_view S.Names.bytes v ≡ schema_extension_of x) result }
{
    let position = expect_keyword(source, "schema")?;
    let directives = directives::directives(alloc, source)?;
    let Roots {
        query,
        mutation,
        subscription,
        cause,
    } = optional_roots(alloc, source)?;
    match cause {
        Some(cause) => Err(NodeError::RejectedNode(InvalidNode::SchemaExtension(cause, position))),
        None => Ok(SchemaExtension {
            position,
            directives,
            query,
            mutation,
            subscription,
        }),
    }
}
