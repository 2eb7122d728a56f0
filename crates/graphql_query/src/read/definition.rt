//! Definitions.
ghost use Rattle.std.specs.Prelude.{◌≡◌};
ghost use Rattle.graphql_core.specs.{Sym, some_of, each_of};
ghost use Rattle.graphql_query.specs.{fragment_definition_view, definition_view, definitions_view};
ghost use Rattle.graphql_query.specs.{fragment_definition_symbol, definition_symbol, fragment_definition_of};
ghost use Rattle.graphql_query.specs.{definition_of, Reads, sees_definition};

use crate::read::fragment::type_condition;
use crate::read::operation::operation_definition;
use crate::read::selection::selection_set;
use crate::tree::{Definition, FragmentDefinition, Selection};
use graphql_core::common::read::directives;
use graphql_core::helpers::{
    Punctuator, ReadError, TokenSource, expect_keyword, expect_name, sees_keyword,
};
use std::alloc::Global;

/// `FragmentDefinition = "fragment" Name TypeCondition Directives SelectionSet`.
/// Selections are collected at the end of `selections`.
#[tactic(auto, using(graphql_core::proofs::readers::Reading::reader_steps))]
fn fragment_definition<S: TokenSource>(
    alloc: Global,
    source: &mut S,
    selections: &mut Vec<Selection<S::Names>>,
) -> Result<FragmentDefinition<S::Names>, ReadError>
    ensures { Reads (Sym fragment_definition_symbol) (S.items source.old) (S.items source.new)
        (λ v x. fragment_definition_view S.Names.bytes v ≡ fragment_definition_of x) result }
{
    let position = expect_keyword(source, "fragment")?;
    let name = expect_name(alloc, source)?;
    let type_condition = type_condition(alloc, source)?;
    let directives = directives::directives(alloc, source)?;
    let selection_set = selection_set(alloc, source, selections)?;
    Ok(FragmentDefinition {
        position,
        name,
        type_condition,
        directives,
        selection_set,
    })
}

/// `Definition = OperationDefinition | FragmentDefinition`. Selections are collected at the end of `selections`.
#[tactic(auto, using(graphql_core::proofs::readers::Reading::reader_steps))]
pub fn definition<S: TokenSource>(
    alloc: Global,
    source: &mut S,
    selections: &mut Vec<Selection<S::Names>>,
) -> Result<Definition<S::Names>, ReadError>
    ensures { Reads (Sym definition_symbol) (S.items source.old) (S.items source.new)
        (λ v x. definition_view S.Names.bytes v ≡ definition_of x) result }
{
    if sees_keyword(source, "fragment") {
        return Ok(Definition::Fragment(fragment_definition(alloc, source, selections)?));
    }
    Ok(Definition::Operation(operation_definition(alloc, source, selections)?))
}

/// Whether the next token can begin a definition.
fn sees_definition<S: TokenSource>(source: &S) -> bool
    ensures { result ≡ sees_definition (S.items source.now) }
{
    source.sees_punctuator(Punctuator::OpenBrace)
        || sees_keyword(source, "query")
        || sees_keyword(source, "mutation")
        || sees_keyword(source, "subscription")
        || sees_keyword(source, "fragment")
}

/// `QueryDocument = Definition+`, without the end of the input after it.
#[tactic(auto, using(graphql_core::proofs::readers::Reading::reader_steps))]
pub fn definitions<S: TokenSource>(
    alloc: Global,
    source: &mut S,
) -> Result<Vec<Definition<S::Names>>, ReadError>
    ensures { Reads (some_of (Sym definition_symbol)) (S.items source.old) (S.items source.new)
        (λ v x. definitions_view S.Names.bytes v.items ≡ each_of definition_of x) result }
{
    let mut definitions = Vec::new(alloc);
    // The selections of the open selection sets. A set that closes removes its own from the end.
    let mut selections = Vec::new(alloc);
    let first = definition(alloc, source, &mut selections)?;
    definitions.reserve(1)?;
    definitions.push_reserved(first);
    'more: while sees_definition(source) {
        let next = definition(alloc, source, &mut selections)?;
        definitions.reserve(1)?;
        definitions.push_reserved(next);
    }
    Ok(definitions)
}
