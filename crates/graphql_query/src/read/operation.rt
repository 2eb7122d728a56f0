//! Operations and their variables.
ghost use Rattle.std.specs.Prelude.{◌≡◌, map, option_map};
ghost use Rattle.graphql_core.specs.{Sym, optional, place_of, spelling_at, optional_of};
ghost use Rattle.graphql_core.specs.{optional_list_of, enclosed_of};
ghost use Rattle.graphql_query.specs.Tree.{variable_definition_view, operation_definition_view, operation, with_body};
ghost use Rattle.graphql_query.specs.Tree.{VariableDefinitionTree};
ghost use Rattle.graphql_query.specs.Grammar.{operation_body_symbol, variable_definitions_symbol};
ghost use Rattle.graphql_query.specs.Grammar.{variable_definition_symbol, operation_symbol};
ghost use Rattle.graphql_query.specs.steps.FactoredRules.{reading};
ghost use Rattle.graphql_query.specs.Meanings.{operation_body_of, keyword_operation_of, operation_of};
ghost use Rattle.graphql_query.specs.Meanings.{variable_definition_of};
ghost use Rattle.graphql_query.specs.steps.Operations.{kind_of, keyword_rule, operation_body_view};
ghost use Rattle.graphql_query.specs.steps.Readers.{Reads, read_variable_definition};
ghost use Rattle.graphql_core.specs.values.Grammar as shared;

use crate::read::keyword::{Keyword, peek_keyword};
use crate::read::selection::selection_set;
use crate::tree::{
    Mutation, OperationDefinition, Query, Selection, SelectionSet, Subscription, VariableDefinition,
};
use graphql_core::common::Names;
use graphql_core::common::read::directives::{self, optional_default};
use graphql_core::common::read::lists::{Elements, optional_list};
use graphql_core::common::read::types::type_reference;
use graphql_core::common::tree::Directive;
use graphql_core::helpers::{
    Punctuator, ReadError, TokenSource, expect_keyword, expect_name, expect_punctuator,
};
use graphql_core::position::Pos;
use std::alloc::Global;

/// What every operation has after its keyword.
#[derive(Drop)]
struct OperationBody<N: Names> {
    name: Option<N::Value>,
    variable_definitions: Vec<VariableDefinition<N>>,
    directives: Vec<Directive<N>>,
    selection_set: SelectionSet<N>,
}

// Builds an operation of this kind from its position and its body.
macro_rules! operation {
    ($kind:ident, $position:expr, $body:expr) => {{
        let position = $position;
        let OperationBody { name, variable_definitions, directives, selection_set } = $body;
        OperationDefinition::$kind($kind { position, name, variable_definitions, directives, selection_set })
    }};
}

impl<N: Names> OperationBody<N> {
    /// The operation with this body; `position` is that of the keyword.
    fn into_operation(self, keyword: Keyword, position: Pos) -> OperationDefinition<N>
        ensures { operation_definition_view N.bytes result
            ≡ operation (with_body (kind_of keyword) (place_of position) (operation_body_view N.bytes self)) }
    {
        match keyword {
            Keyword::Query => operation!(Query, position, self),
            Keyword::Mutation => operation!(Mutation, position, self),
            Keyword::Subscription => operation!(Subscription, position, self),
        }
    }
}

/// `Name?`
#[tactic(auto, using(graphql_core::proofs::readers::Reading::reader_steps))]
fn optional_name<S: TokenSource>(
    alloc: Global,
    source: &mut S,
) -> Result<Option<<S::Names as Names>::Value>, ReadError>
    ensures { Reads (optional shared.name) (S.items source.old) (S.items source.new)
        (λ v x. option_map S.Names.bytes v ≡ optional_of spelling_at x) result }
{
    if !source.sees_name() {
        return Ok(None);
    }
    Ok(Some(expect_name(alloc, source)?))
}

// The variables between the parentheses of an operation.
struct VariableDefinitionList;

#[tactic(auto, using(graphql_core::proofs::readers::Reading::reader_steps))]
impl<S: TokenSource> Elements<S> for VariableDefinitionList {
    type Item = VariableDefinition<S::Names>;

    ghost grammar = { reading };

    ghost production = { Sym variable_definition_symbol };

    ghost Tree = { VariableDefinitionTree };

    ghost means = { read_variable_definition };

    ghost view = { variable_definition_view S.Names.bytes };

    #[tactic(auto, unfolding(crate::specs::steps::FactoredRules::tables, graphql_core::specs::values::Grammar::tables))]
    fn comes_next(source: &S) -> bool {
        source.sees_punctuator(Punctuator::Dollar)
    }

    /// `VariableDefinition = "$" Name ":" Type Default? Directives`
    fn read(
        alloc: Global,
        source: &mut S,
        definitions: &mut Vec<VariableDefinition<S::Names>>,
    ) -> Result<(), ReadError> {
        let position = expect_punctuator(source, Punctuator::Dollar)?;
        let name = expect_name(alloc, source)?;
        expect_punctuator(source, Punctuator::Colon)?;
        let var_type = type_reference(alloc, source)?;
        let default_value = optional_default(alloc, source)?;
        let directives = directives::directives(alloc, source)?;
        definitions.reserve(1)?;
        definitions.push_reserved(VariableDefinition {
            position,
            name,
            var_type,
            default_value,
            directives,
        });
        Ok(())
    }
}

/// `VariableDefinitions?`, `VariableDefinitions = "(" VariableDefinition+ ")"`
fn optional_variable_definitions<S: TokenSource>(
    alloc: Global,
    source: &mut S,
) -> Result<Vec<VariableDefinition<S::Names>>, ReadError>
    ensures { Reads (optional (Sym variable_definitions_symbol)) (S.items source.old) (S.items source.new)
        (λ v x. map (variable_definition_view S.Names.bytes) v.items
        ≡ optional_list_of (enclosed_of variable_definition_of) x) result }
{
    let (open, close) = (Punctuator::OpenParen, Punctuator::CloseParen);
    optional_list::<S, VariableDefinitionList>(alloc, source, open, close, 0)
}

/// `OperationBody = Name? VariableDefinitions? Directives SelectionSet`.
/// Selections are collected at the end of `selections`.
#[tactic(auto, using(graphql_core::proofs::readers::Reading::reader_steps))]
fn operation_body<S: TokenSource>(
    alloc: Global,
    source: &mut S,
    selections: &mut Vec<Selection<S::Names>>,
) -> Result<OperationBody<S::Names>, ReadError>
    ensures { Reads (Sym operation_body_symbol) (S.items source.old) (S.items source.new)
        (λ v x. operation_body_view S.Names.bytes v ≡ operation_body_of x) result }
{
    let name = optional_name(alloc, source)?;
    let variable_definitions = optional_variable_definitions(alloc, source)?;
    let directives = directives::directives(alloc, source)?;
    let selection_set = selection_set(alloc, source, selections)?;
    Ok(OperationBody {
        name,
        variable_definitions,
        directives,
        selection_set,
    })
}

/// `"query" OperationBody`, `"mutation" OperationBody` or `"subscription" OperationBody`, as `keyword` says.
#[tactic(auto, using(graphql_core::proofs::readers::Reading::reader_steps))]
fn keyword_operation<S: TokenSource>(
    alloc: Global,
    source: &mut S,
    selections: &mut Vec<Selection<S::Names>>,
    keyword: Keyword,
) -> Result<OperationDefinition<S::Names>, ReadError>
    ensures { Reads (keyword_rule (kind_of keyword)) (S.items source.old) (S.items source.new)
        (λ v x. operation_definition_view S.Names.bytes v
        ≡ operation (keyword_operation_of (kind_of keyword) x)) result }
{
    let position = expect_keyword(source, keyword.word())?;
    let body = operation_body(alloc, source, selections)?;
    Ok(body.into_operation(keyword, position))
}

/// `OperationDefinition = SelectionSet | "query" OperationBody | "mutation" OperationBody
/// | "subscription" OperationBody`
#[tactic(auto, using(graphql_core::proofs::readers::Reading::reader_steps))]
pub fn operation_definition<S: TokenSource>(
    alloc: Global,
    source: &mut S,
    selections: &mut Vec<Selection<S::Names>>,
) -> Result<OperationDefinition<S::Names>, ReadError>
    ensures { Reads (Sym operation_symbol) (S.items source.old) (S.items source.new)
        (λ v x. operation_definition_view S.Names.bytes v ≡ operation_of x) result }
{
    match peek_keyword(source) {
        None => Ok(OperationDefinition::SelectionSet(selection_set(alloc, source, selections)?)),
        Some(keyword) => keyword_operation(alloc, source, selections, keyword),
    }
}
