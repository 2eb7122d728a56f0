//! Query documents.
ghost use Rattle.std.specs.Prelude.{◌≡◌, OnOk, IfOk, option_map, string_bytes};
ghost use Rattle.graphql_core.specs.{place_of, directives_view};
ghost use Rattle.graphql_query.specs.Tree.{type_condition_view, fragment_spread_view, field_view, inline_fragment_view};
ghost use Rattle.graphql_query.specs.Tree.{selection_view, selections_view, selection_set_view};
ghost use Rattle.graphql_query.specs.Tree.{variable_definition_view};
ghost use Rattle.graphql_query.specs.Tree.{variable_definitions_view, operation_definition_view};
ghost use Rattle.graphql_query.specs.Tree.{fragment_definition_view};
ghost use Rattle.graphql_query.specs.Tree.{definition_view, document_view, query_view, mutation_view};
ghost use Rattle.graphql_query.specs.Tree.{subscription_view, short, operation, fragment};
ghost use Rattle.graphql_json.specs.steps.Pieces.{Appends};
ghost use Rattle.graphql_json.specs.{json_text, later, named_type_json, selection_json, selected_json};
ghost use Rattle.graphql_json.specs.{selection_set_json, selections_json, variable_definition_json, operation_json_of};
ghost use Rattle.graphql_json.specs.{definition_json, document_json};
ghost use Rattle.graphql_json.specs.Json as json;

use crate::json::{
    close_node, open_node, write_empty_list, write_label, write_position, write_separator,
    write_span, write_string, write_text,
};
use crate::node::{
    Node, document_to_json, write_name, write_named, write_named_node, write_node, write_nodes,
    write_optional_name, write_optional_node,
};
use crate::values::{write_arguments, write_directives};
use graphql_core::common::Names;
use graphql_core::common::tree::Directive;
use graphql_core::format::Buffer;
use graphql_core::position::Pos;
use graphql_query::tree::{
    Definition, Document, Field, FragmentDefinition, FragmentSpread, InlineFragment, Mutation,
    OperationDefinition, Query, Selection, SelectionSet, Subscription, TypeCondition,
    VariableDefinition,
};
use std::alloc::{AllocError, Global};

impl<N: Names> Node for TypeCondition<N> {
    ghost as_json = { λ c. named_type_json (type_condition_view N.bytes c) };

    fn write(&self, out: &mut Buffer) -> Result<(), AllocError> {
        match self {
            TypeCondition::On(name) => write_named(out, "NamedType", N::view(name)),
        }
    }
}

/// Appends the node of a selection set.
#[cycle(selection)]
fn write_selection_set<N: Names>(out: &mut Buffer, set: &SelectionSet<N>) -> Result<(), AllocError>
    ensures { OnOk result
        (Appends out.old (json_text (selection_set_json (selection_set_view N.bytes set.now))) out.new) }
{
    open_node(out, "SelectionSet")?;
    write_span(out, &set.span)?;
    write_label(out, "selections")?;
    write_selections(out, &set.items)?;
    close_node(out)
}

/// Appends the list of selections.
#[cycle(selection)]
fn write_selections<N: Names>(out: &mut Buffer, items: &[Selection<N>]) -> Result<(), AllocError>
    ensures { OnOk result
        (Appends out.old (json_text (json.array (selections_json (selections_view N.bytes items.now)))) out.new) }
{
    write_text(out, "[")?;
    let mut is_later = false;
    'items: for item in items {
        write_separator(out, is_later)?;
        write_selection(out, item)?;
        is_later = true;
    }
    write_text(out, "]")
}

/// Appends the node of a selection.
#[cycle(selection)]
fn write_selection<N: Names>(out: &mut Buffer, selection: &Selection<N>) -> Result<(), AllocError>
    ensures { OnOk result
        (Appends out.old (json_text (selection_json (selection_view N.bytes selection.now))) out.new) }
{
    match selection {
        Selection::Field(field) => write_field(out, field),
        Selection::FragmentSpread(spread) => write_fragment_spread(out, spread),
        Selection::InlineFragment(fragment) => write_inline_fragment(out, fragment),
    }
}

/// Appends the node of a field.
#[cycle(selection)]
fn write_field<N: Names>(out: &mut Buffer, field: &Field<N>) -> Result<(), AllocError>
    ensures { OnOk result (Appends out.old (json_text (selection_json (field_view N.bytes field.now))) out.new) }
{
    open_node(out, "Field")?;
    write_position(out, &field.position)?;
    write_optional_name::<N>(out, "alias", &field.alias)?;
    write_name(out, "name", N::view(&field.name))?;
    write_arguments(out, &field.arguments)?;
    write_directives(out, &field.directives)?;
    write_selected(out, &field.selection_set)?;
    close_node(out)
}

/// Appends the member that has the selections of a field, or nothing without selections.
#[cycle(selection)]
fn write_selected<N: Names>(out: &mut Buffer, set: &SelectionSet<N>) -> Result<(), AllocError>
    ensures { OnOk result (Appends out.old (later (selected_json (selection_set_view N.bytes set.now))) out.new) }
{
    if set.items.is_empty() {
        return Ok(());
    }
    write_label(out, "selectionSet")?;
    write_selection_set(out, set)
}

fn write_fragment_spread<N: Names>(
    out: &mut Buffer,
    spread: &FragmentSpread<N>,
) -> Result<(), AllocError>
    ensures { OnOk result
        (Appends out.old (json_text (selection_json (fragment_spread_view N.bytes spread.now))) out.new) }
{
    open_node(out, "FragmentSpread")?;
    write_position(out, &spread.position)?;
    write_name(out, "name", N::view(&spread.fragment_name))?;
    write_directives(out, &spread.directives)?;
    close_node(out)
}

#[cycle(selection)]
fn write_inline_fragment<N: Names>(
    out: &mut Buffer,
    fragment: &InlineFragment<N>,
) -> Result<(), AllocError>
    ensures { OnOk result
        (Appends out.old (json_text (selection_json (inline_fragment_view N.bytes fragment.now))) out.new) }
{
    open_node(out, "InlineFragment")?;
    write_position(out, &fragment.position)?;
    write_optional_node(out, "typeCondition", &fragment.type_condition)?;
    write_directives(out, &fragment.directives)?;
    write_label(out, "selectionSet")?;
    write_selection_set(out, &fragment.selection_set)?;
    close_node(out)
}

impl<N: Names> Node for SelectionSet<N> {
    ghost as_json = { λ s. selection_set_json (selection_set_view N.bytes s) };

    fn write(&self, out: &mut Buffer) -> Result<(), AllocError> {
        write_selection_set(out, self)
    }
}

impl<N: Names> Node for VariableDefinition<N> {
    ghost as_json = { λ v. variable_definition_json (variable_definition_view N.bytes v) };

    fn write(&self, out: &mut Buffer) -> Result<(), AllocError> {
        open_node(out, "VariableDefinition")?;
        write_position(out, &self.position)?;
        write_named_node(out, "variable", "Variable", N::view(&self.name))?;
        write_node(out, "type", &self.var_type)?;
        write_optional_node(out, "defaultValue", &self.default_value)?;
        write_directives(out, &self.directives)?;
        close_node(out)
    }
}

/// Appends the node of an operation with these parts.
fn write_operation<N: Names>(
    out: &mut Buffer,
    keyword: &str,
    position: &Pos,
    name: &Option<N::Value>,
    variables: &[VariableDefinition<N>],
    directives: &[Directive<N>],
    set: &SelectionSet<N>,
) -> Result<(), AllocError>
    ensures { OnOk result (Appends out.old (json_text
        (operation_json_of (place_of position.now) keyword.now (option_map N.bytes name.now)
        (variable_definitions_view N.bytes variables.now) (directives_view N.bytes directives.now)
        (selection_set_view N.bytes set.now))) out.new) }
{
    open_node(out, "OperationDefinition")?;
    write_position(out, position)?;
    write_string(out, "operation", keyword)?;
    write_optional_name::<N>(out, "name", name)?;
    write_nodes(out, "variableDefinitions", variables)?;
    write_directives(out, directives)?;
    write_node(out, "selectionSet", set)?;
    close_node(out)
}

/// Appends the node of a query in its short form.
fn write_short_query<N: Names>(out: &mut Buffer, set: &SelectionSet<N>) -> Result<(), AllocError>
    ensures { OnOk result
        (Appends out.old (json_text (definition_json (short (selection_set_view N.bytes set.now)))) out.new) }
{
    open_node(out, "OperationDefinition")?;
    write_position(out, &set.span.0)?;
    write_string(out, "operation", "query")?;
    write_empty_list(out, "variableDefinitions")?;
    write_empty_list(out, "directives")?;
    write_node(out, "selectionSet", set)?;
    close_node(out)
}

// Appends the node of an operation with this keyword.
macro_rules! write_keyword_operation {
    ($of:expr, $out:expr, $keyword:literal) => {
        write_operation(
            $out,
            $keyword,
            &$of.position,
            &$of.name,
            &$of.variable_definitions,
            &$of.directives,
            &$of.selection_set,
        )
    };
}

impl<N: Names> Node for Query<N> {
    ghost as_json = { λ o. definition_json (operation (query_view N.bytes o)) };

    fn write(&self, out: &mut Buffer) -> Result<(), AllocError> {
        write_keyword_operation!(self, out, "query")
    }
}

impl<N: Names> Node for Mutation<N> {
    ghost as_json = { λ o. definition_json (operation (mutation_view N.bytes o)) };

    fn write(&self, out: &mut Buffer) -> Result<(), AllocError> {
        write_keyword_operation!(self, out, "mutation")
    }
}

impl<N: Names> Node for Subscription<N> {
    ghost as_json = { λ o. definition_json (operation (subscription_view N.bytes o)) };

    fn write(&self, out: &mut Buffer) -> Result<(), AllocError> {
        write_keyword_operation!(self, out, "subscription")
    }
}

impl<N: Names> Node for OperationDefinition<N> {
    ghost as_json = { λ o. definition_json (operation_definition_view N.bytes o) };

    fn write(&self, out: &mut Buffer) -> Result<(), AllocError> {
        match self {
            OperationDefinition::SelectionSet(set) => write_short_query(out, set),
            OperationDefinition::Query(query) => query.write(out),
            OperationDefinition::Mutation(mutation) => mutation.write(out),
            OperationDefinition::Subscription(subscription) => subscription.write(out),
        }
    }
}

impl<N: Names> Node for FragmentDefinition<N> {
    ghost as_json = { λ f. definition_json (fragment (fragment_definition_view N.bytes f)) };

    fn write(&self, out: &mut Buffer) -> Result<(), AllocError> {
        open_node(out, "FragmentDefinition")?;
        write_position(out, &self.position)?;
        write_name(out, "name", N::view(&self.name))?;
        write_node(out, "typeCondition", &self.type_condition)?;
        write_directives(out, &self.directives)?;
        write_node(out, "selectionSet", &self.selection_set)?;
        close_node(out)
    }
}

impl<N: Names> Node for Definition<N> {
    ghost as_json = { λ d. definition_json (definition_view N.bytes d) };

    fn write(&self, out: &mut Buffer) -> Result<(), AllocError> {
        match self {
            Definition::Operation(operation) => operation.write(out),
            Definition::Fragment(fragment) => fragment.write(out),
        }
    }
}

/// Returns a query document as JSON. An error means that an allocation failed.
pub fn query_to_json<N: Names>(alloc: Global, document: &Document<N>) -> Result<String, AllocError>
    ensures { IfOk result (λ text. string_bytes text ≡ json_text (document_json (document_view N.bytes document.now))) }
{
    document_to_json(alloc, &document.definitions)
}
