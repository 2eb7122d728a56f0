//! Formatting fragments, definitions and documents.
ghost use Rattle.graphql_query.specs.{IsWellFormedFragment, IsWellFormedDefinition, IsWellFormedDocument};
ghost use Rattle.graphql_query.specs.{fragment_definition_layout, definition_layout, document_layout};
ghost use Rattle.graphql_query.specs.{fragment_definition_levels, definition_levels, levels};
ghost use Rattle.graphql_query.specs.{fragment_definition_view, operation_definition_view, definition_view};
ghost use Rattle.graphql_query.specs.{document_view};

use crate::print::operation::parts;
use crate::print::selection::{write_selection_set, write_type_condition};
use crate::tree::{Definition, Document, FragmentDefinition, OperationDefinition};
use graphql_core::common::Names;
use graphql_core::format::print::{
    Pretty, levels_in_directives, levels_in_each, write_directives, write_joined,
};
use graphql_core::format::{Sink, Style};

/// An operation, in short form or with a keyword.
impl<N: Names> Pretty for OperationDefinition<N> {
    ghost lines = { λ style _ o. definition_layout style (operation_definition_view N.bytes o) };

    ghost opens = { λ style o. definition_levels style (operation_definition_view N.bytes o) };

    ghost well_formed = { λ o. IsWellFormedDefinition (operation_definition_view N.bytes o) };

    fn levels(&self, style: &Style) -> usize {
        match self {
            OperationDefinition::SelectionSet(set) => set.levels(style),
            OperationDefinition::Query(query) => parts!(Query, query).levels(style),
            OperationDefinition::Mutation(mutation) => parts!(Mutation, mutation).levels(style),
            OperationDefinition::Subscription(subscription) => {
                parts!(Subscription, subscription).levels(style)
            }
        }
    }

    fn write<S: Sink>(&self, out: &mut S, style: &Style, _margin: usize) -> Result<(), S::Error> {
        match self {
            OperationDefinition::SelectionSet(set) => write_selection_set(out, "", set, style, 0),
            OperationDefinition::Query(query) => parts!(Query, query).write(out, style, 0),
            OperationDefinition::Mutation(mutation) => parts!(Mutation, mutation).write(
                out, style, 0,
            ),
            OperationDefinition::Subscription(subscription) => {
                parts!(Subscription, subscription).write(out, style, 0)
            }
        }
    }
}

impl<N: Names> Pretty for FragmentDefinition<N> {
    ghost lines = { λ style _ f. fragment_definition_layout style (fragment_definition_view N.bytes f) };

    ghost opens = { λ style f. fragment_definition_levels style (fragment_definition_view N.bytes f) };

    ghost well_formed = { λ f. IsWellFormedFragment (fragment_definition_view N.bytes f) };

    fn levels(&self, style: &Style) -> usize {
        levels_in_directives(&self.directives, style).max(self.selection_set.levels(style))
    }

    fn write<S: Sink>(&self, out: &mut S, style: &Style, _margin: usize) -> Result<(), S::Error> {
        out.push_three("fragment ", N::view(&self.name), " ")?;
        write_type_condition(out, &self.type_condition)?;
        write_directives(out, &self.directives, style, 0)?;
        write_selection_set(out, " ", &self.selection_set, style, 0)
    }
}

impl<N: Names> Pretty for Definition<N> {
    ghost lines = { λ style _ d. definition_layout style (definition_view N.bytes d) };

    ghost opens = { λ style d. definition_levels style (definition_view N.bytes d) };

    ghost well_formed = { λ d. IsWellFormedDefinition (definition_view N.bytes d) };

    fn levels(&self, style: &Style) -> usize {
        match self {
            Definition::Operation(operation) => operation.levels(style),
            Definition::Fragment(fragment) => fragment.levels(style),
        }
    }

    fn write<S: Sink>(&self, out: &mut S, style: &Style, margin: usize) -> Result<(), S::Error> {
        match self {
            Definition::Operation(operation) => operation.write(out, style, margin),
            Definition::Fragment(fragment) => fragment.write(out, style, margin),
        }
    }
}

/// A document: its definitions, with an empty line between two.
impl<N: Names> Pretty for Document<N> {
    ghost lines = { λ style _ d. document_layout style (document_view N.bytes d) };

    ghost opens = { λ style d. levels style (document_view N.bytes d) };

    ghost well_formed = { λ d. IsWellFormedDocument (document_view N.bytes d) };

    fn levels(&self, style: &Style) -> usize {
        levels_in_each(&self.definitions, style)
    }

    fn write<S: Sink>(&self, out: &mut S, style: &Style, _margin: usize) -> Result<(), S::Error> {
        write_joined(out, "\n", &self.definitions, style, 0)
    }
}
