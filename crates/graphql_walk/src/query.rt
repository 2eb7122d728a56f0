//! Walks over query documents.
ghost use Rattle.std.specs.Prelude.{◌≡◌, map};
ghost use Rattle.graphql_core.specs.{directives_view};
ghost use Rattle.graphql_query.specs.Tree.{type_condition_view, field_view, inline_fragment_view, selection_view};
ghost use Rattle.graphql_query.specs.Tree.{selections_view, selection_set_view, variable_definition_view};
ghost use Rattle.graphql_query.specs.Tree.{variable_definitions_view, operation_definition_view, definition_view};
ghost use Rattle.graphql_query.specs.Tree.{fragment_definition_view, document_view, fragment};
ghost use Rattle.graphql_walk.specs.{Walks, WalksEach, ending, ◌then◌, branch, none, only, branches_of, node_view};
ghost use Rattle.graphql_walk.specs.{directives_branches, inside_selection, selection_branch, selected_branches};
ghost use Rattle.graphql_walk.specs.{selection_set_branch, selections_branches, variable_definition_branch};
ghost use Rattle.graphql_walk.specs.{inside_variable_definition, inside_definition, definition_branch, document_branch};
ghost use Rattle.graphql_walk.specs.Nodes as nodes;

use crate::node::Node;
use crate::values::{walk_arguments, walk_directives, walk_type};
use crate::visitor::{Halt, Visitor, enter, leave};
use crate::walkable::{Walkable, walk, walk_each, walk_optional};
use graphql_core::common::Names;
use graphql_core::common::tree::Directive;
use graphql_query::tree::{
    Definition, Document, Field, FragmentDefinition, InlineFragment, OperationDefinition,
    Selection, SelectionSet, TypeCondition, VariableDefinition,
};
use std::ops::ControlFlow;

impl<N: Names> Walkable<N> for TypeCondition<N> {
    ghost node_of = { λ c. nodes.type_condition (type_condition_view N.bytes c) };

    ghost inside_of = { λ _. none };

    fn node(&self) -> Node<'_, N> {
        Node::TypeCondition(self)
    }

    fn walk_inside<V: Visitor<N>>(&self, _visitor: &mut V) -> Result<(), Halt<V::Error>> {
        Ok(())
    }
}

/// Walks over a selection set.
#[cycle(selection)]
fn walk_selection_set<N: Names, V: Visitor<N>>(
    set: &SelectionSet<N>,
    visitor: &mut V,
) -> Result<(), Halt<V::Error>>
    ensures { Walks V.visited (selection_set_branch (selection_set_view N.bytes set.now)) visitor.old result
        visitor.new }
{
    let node = Node::SelectionSet(set);
    if !enter(visitor, &node)? {
        return Ok(());
    }
    walk_selections(&set.items, visitor)?;
    leave(visitor, &node)
}

/// Walks over selections.
#[cycle(selection)]
fn walk_selections<N: Names, V: Visitor<N>>(
    selections: &[Selection<N>],
    visitor: &mut V,
) -> Result<(), Halt<V::Error>>
    ensures { WalksEach V.visited (selections_branches (selections_view N.bytes selections.now)) visitor.old result
        visitor.new }
{
    'selections: for selection in selections {
        walk_selection(selection, visitor)?;
    }
    Ok(())
}

/// Walks over a selection.
#[cycle(selection)]
fn walk_selection<N: Names, V: Visitor<N>>(
    selection: &Selection<N>,
    visitor: &mut V,
) -> Result<(), Halt<V::Error>>
    ensures { Walks V.visited (selection_branch (selection_view N.bytes selection.now)) visitor.old result visitor.new }
{
    match selection {
        Selection::Field(field) => walk_as(&Node::Field(field), selection, visitor),
        Selection::FragmentSpread(spread) => {
            walk_as(&Node::FragmentSpread(spread), selection, visitor)
        }
        Selection::InlineFragment(fragment) => {
            walk_as(&Node::InlineFragment(fragment), selection, visitor)
        }
    }
}

/// Walks over a selection with this node.
#[cycle(selection)]
fn walk_as<N: Names, V: Visitor<N>>(
    node: &Node<'_, N>,
    selection: &Selection<N>,
    visitor: &mut V,
) -> Result<(), Halt<V::Error>>
    ensures { Walks V.visited
        (branch (node_view N.bytes node.now) (inside_selection (selection_view N.bytes selection.now))) visitor.old result
        visitor.new }
{
    if !enter(visitor, node)? {
        return Ok(());
    }
    walk_in_selection(selection, visitor)?;
    leave(visitor, node)
}

/// Walks over the nodes inside a selection.
#[cycle(selection)]
fn walk_in_selection<N: Names, V: Visitor<N>>(
    selection: &Selection<N>,
    visitor: &mut V,
) -> Result<(), Halt<V::Error>>
    ensures { WalksEach V.visited (inside_selection (selection_view N.bytes selection.now)) visitor.old result
        visitor.new }
{
    match selection {
        Selection::Field(field) => walk_in_field(field, visitor),
        Selection::FragmentSpread(spread) => walk_directives(&spread.directives, visitor),
        Selection::InlineFragment(fragment) => walk_in_inline_fragment(fragment, visitor),
    }
}

/// Walks over the nodes inside a field.
#[cycle(selection)]
fn walk_in_field<N: Names, V: Visitor<N>>(
    field: &Field<N>,
    visitor: &mut V,
) -> Result<(), Halt<V::Error>>
    ensures { WalksEach V.visited (inside_selection (field_view N.bytes field.now)) visitor.old result visitor.new }
{
    walk_arguments(&field.arguments, visitor)?;
    walk_directives(&field.directives, visitor)?;
    walk_selected(&field.selection_set, visitor)
}

/// Walks over the selection set of a field, which has no node if it is empty.
#[cycle(selection)]
fn walk_selected<N: Names, V: Visitor<N>>(
    set: &SelectionSet<N>,
    visitor: &mut V,
) -> Result<(), Halt<V::Error>>
    ensures { WalksEach V.visited (selected_branches (selection_set_view N.bytes set.now)) visitor.old result
        visitor.new }
{
    if set.items.is_empty() {
        return Ok(());
    }
    walk_selection_set(set, visitor)
}

/// Walks over the nodes inside an inline fragment.
#[cycle(selection)]
fn walk_in_inline_fragment<N: Names, V: Visitor<N>>(
    fragment: &InlineFragment<N>,
    visitor: &mut V,
) -> Result<(), Halt<V::Error>>
    ensures { WalksEach V.visited (inside_selection (inline_fragment_view N.bytes fragment.now)) visitor.old result
        visitor.new }
{
    walk_optional(&fragment.type_condition, visitor)?;
    walk_directives(&fragment.directives, visitor)?;
    walk_selection_set(&fragment.selection_set, visitor)
}

impl<N: Names> Walkable<N> for VariableDefinition<N> {
    ghost node_of = { λ v. nodes.variable_definition (variable_definition_view N.bytes v) };

    ghost inside_of = { λ v. inside_variable_definition (variable_definition_view N.bytes v) };

    fn node(&self) -> Node<'_, N> {
        Node::VariableDefinition(self)
    }

    fn walk_inside<V: Visitor<N>>(&self, visitor: &mut V) -> Result<(), Halt<V::Error>> {
        walk_type(&self.var_type, visitor)?;
        walk_optional(&self.default_value, visitor)?;
        walk_directives(&self.directives, visitor)
    }
}

/// Walks over a selection set, the only node.
fn walk_only_set<N: Names, V: Visitor<N>>(
    set: &SelectionSet<N>,
    visitor: &mut V,
) -> Result<(), Halt<V::Error>>
    ensures { WalksEach V.visited (only (selection_set_branch (selection_set_view N.bytes set.now))) visitor.old result
        visitor.new }
{
    walk_selection_set(set, visitor)
}

/// Walks over directives and a selection set.
fn walk_directives_and_set<N: Names, V: Visitor<N>>(
    directives: &[Directive<N>],
    set: &SelectionSet<N>,
    visitor: &mut V,
) -> Result<(), Halt<V::Error>>
    ensures { WalksEach V.visited (directives_branches (directives_view N.bytes directives.now)
        then only (selection_set_branch (selection_set_view N.bytes set.now))) visitor.old result visitor.new }
{
    walk_directives(directives, visitor)?;
    walk_only_set(set, visitor)
}

/// Walks over what is after the name of an operation.
fn walk_operation_parts<N: Names, V: Visitor<N>>(
    variables: &[VariableDefinition<N>],
    directives: &[Directive<N>],
    set: &SelectionSet<N>,
    visitor: &mut V,
) -> Result<(), Halt<V::Error>>
    ensures { WalksEach V.visited
        (branches_of (map variable_definition_branch (variable_definitions_view N.bytes variables.now))
        then (directives_branches (directives_view N.bytes directives.now)
        then only (selection_set_branch (selection_set_view N.bytes set.now)))) visitor.old result visitor.new }
{
    walk_each(variables, visitor)?;
    walk_directives_and_set(directives, set, visitor)
}

// Walks over what is after the name of this operation.
macro_rules! walk_parts {
    ($of:expr, $visitor:expr) => {
        walk_operation_parts(
            &$of.variable_definitions,
            &$of.directives,
            &$of.selection_set,
            $visitor,
        )
    };
}

/// Walks over the nodes inside an operation.
fn walk_in_operation<N: Names, V: Visitor<N>>(
    operation: &OperationDefinition<N>,
    visitor: &mut V,
) -> Result<(), Halt<V::Error>>
    ensures { WalksEach V.visited (inside_definition (operation_definition_view N.bytes operation.now)) visitor.old
        result visitor.new }
{
    match operation {
        OperationDefinition::SelectionSet(set) => walk_only_set(set, visitor),
        OperationDefinition::Query(query) => walk_parts!(query, visitor),
        OperationDefinition::Mutation(mutation) => walk_parts!(mutation, visitor),
        OperationDefinition::Subscription(subscription) => walk_parts!(subscription, visitor),
    }
}

/// Walks over the nodes inside a fragment.
fn walk_in_fragment<N: Names, V: Visitor<N>>(
    definition: &FragmentDefinition<N>,
    visitor: &mut V,
) -> Result<(), Halt<V::Error>>
    ensures { WalksEach V.visited (inside_definition (fragment (fragment_definition_view N.bytes definition.now)))
        visitor.old result visitor.new }
{
    walk(&definition.type_condition, visitor)?;
    walk_directives_and_set(&definition.directives, &definition.selection_set, visitor)
}

impl<N: Names> Walkable<N> for Definition<N> {
    ghost node_of = { λ d. nodes.executable (definition_view N.bytes d) };

    ghost inside_of = { λ d. inside_definition (definition_view N.bytes d) };

    fn node(&self) -> Node<'_, N> {
        match self {
            Definition::Operation(operation) => Node::Operation(operation),
            Definition::Fragment(definition) => Node::Fragment(definition),
        }
    }

    fn walk_inside<V: Visitor<N>>(&self, visitor: &mut V) -> Result<(), Halt<V::Error>> {
        match self {
            Definition::Operation(operation) => walk_in_operation(operation, visitor),
            Definition::Fragment(definition) => walk_in_fragment(definition, visitor),
        }
    }
}

impl<N: Names> Walkable<N> for Document<N> {
    ghost node_of = { λ d. nodes.document (document_view N.bytes d) };

    ghost inside_of = { λ d. branches_of (map definition_branch (document_view N.bytes d)) };

    fn node(&self) -> Node<'_, N> {
        Node::Document(self)
    }

    fn walk_inside<V: Visitor<N>>(&self, visitor: &mut V) -> Result<(), Halt<V::Error>> {
        walk_each(&self.definitions, visitor)
    }
}

/// Walks over a query document: calls the visitor at each node.
///
/// Returns `Break` if the visitor stopped the walk, and otherwise `Continue`. An error is the visitor's own.
pub fn visit_query<N: Names, V: Visitor<N>>(
    document: &Document<N>,
    visitor: &mut V,
) -> Result<ControlFlow<()>, V::Error>
    ensures { Walks V.visited (document_branch (document_view N.bytes document.now)) visitor.old (ending result)
        visitor.new }
{
    match walk(document, visitor) {
        Ok(()) => Ok(ControlFlow::Continue(())),
        Err(Halt::Stopped) => Ok(ControlFlow::Break(())),
        Err(Halt::Failed(error)) => Err(error),
    }
}
