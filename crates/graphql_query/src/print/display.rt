//! `Display` of the trees: formatted in the default style, and an error if that is too wide.
ghost use Rattle.std.specs.Prelude.{Some};
ghost use Rattle.graphql_core.specs.{text_of, default_style, Displays};
ghost use Rattle.graphql_query.specs.{fragment_spread_view, field_view, inline_fragment_view, selection_set_view};
ghost use Rattle.graphql_query.specs.{type_condition_view, variable_definition_view, query_view, mutation_view};
ghost use Rattle.graphql_query.specs.{subscription_view, fragment_definition_view, operation_definition_view};
ghost use Rattle.graphql_query.specs.{definition_view};
ghost use Rattle.graphql_query.specs.{document_view, selection_layout, selection_set_layout, type_condition_layout};
ghost use Rattle.graphql_query.specs.{variable_definition_layout, operation_layout, fragment_definition_layout};
ghost use Rattle.graphql_query.specs.{definition_layout, document_layout, layout, selection_levels};
ghost use Rattle.graphql_query.specs.{selection_set_levels, variable_definition_levels, operation_levels};
ghost use Rattle.graphql_query.specs.{fragment_definition_levels, definition_levels, levels};

use crate::print::operation::parts;
use crate::print::selection::write_type_condition;
use crate::tree::{
    Definition, Document, Field, FragmentDefinition, FragmentSpread, InlineFragment, Mutation,
    OperationDefinition, Query, SelectionSet, Subscription, TypeCondition, VariableDefinition,
};
use graphql_core::common::Names;
use graphql_core::format::print::fmt_in_default_style;
use std::fmt;

impl<N: Names> fmt::Display for Document<N> {
    ghost output = { λ t. Some (layout default_style (document_view N.bytes t)) };

    ghost styled_output = { λ t spec. Some (layout default_style (document_view N.bytes t)) };

    fn fmt<W: fmt::Write>(&self, f: &mut fmt::Formatter<W>) -> fmt::Result
        ensures { Displays W.write_str_gives f.old result document_layout levels
            (document_view N.bytes self.now) f.new }
    {
        fmt_in_default_style(self, f)
    }
}

impl<N: Names> fmt::Display for Definition<N> {
    ghost output = { λ t. Some (text_of (definition_layout default_style (definition_view N.bytes t))) };

    ghost styled_output = { λ t spec. Some (text_of (definition_layout default_style (definition_view N.bytes t))) };

    fn fmt<W: fmt::Write>(&self, f: &mut fmt::Formatter<W>) -> fmt::Result
        ensures { Displays W.write_str_gives f.old result definition_layout definition_levels
            (definition_view N.bytes self.now) f.new }
    {
        fmt_in_default_style(self, f)
    }
}

impl<N: Names> fmt::Display for OperationDefinition<N> {
    ghost output = { λ t. Some (text_of (definition_layout default_style (operation_definition_view N.bytes t))) };

    ghost styled_output = { λ t spec.
        Some (text_of (definition_layout default_style (operation_definition_view N.bytes t))) };

    fn fmt<W: fmt::Write>(&self, f: &mut fmt::Formatter<W>) -> fmt::Result
        ensures { Displays W.write_str_gives f.old result definition_layout definition_levels
            (operation_definition_view N.bytes self.now) f.new }
    {
        fmt_in_default_style(self, f)
    }
}

impl<N: Names> fmt::Display for FragmentDefinition<N> {
    ghost output = { λ t. Some
        (text_of (fragment_definition_layout default_style (fragment_definition_view N.bytes t))) };

    ghost styled_output = { λ t spec. Some
        (text_of (fragment_definition_layout default_style (fragment_definition_view N.bytes t))) };

    fn fmt<W: fmt::Write>(&self, f: &mut fmt::Formatter<W>) -> fmt::Result
        ensures { Displays W.write_str_gives f.old result fragment_definition_layout fragment_definition_levels
            (fragment_definition_view N.bytes self.now) f.new }
    {
        fmt_in_default_style(self, f)
    }
}

impl<N: Names> fmt::Display for Query<N> {
    ghost output = { λ t. Some (text_of (operation_layout default_style (query_view N.bytes t))) };

    ghost styled_output = { λ t spec. Some (text_of (operation_layout default_style (query_view N.bytes t))) };

    fn fmt<W: fmt::Write>(&self, f: &mut fmt::Formatter<W>) -> fmt::Result
        ensures { Displays W.write_str_gives f.old result operation_layout operation_levels
            (query_view N.bytes self.now) f.new }
    {
        fmt_in_default_style(&parts!(Query, self), f)
    }
}

impl<N: Names> fmt::Display for Mutation<N> {
    ghost output = { λ t. Some (text_of (operation_layout default_style (mutation_view N.bytes t))) };

    ghost styled_output = { λ t spec. Some (text_of (operation_layout default_style (mutation_view N.bytes t))) };

    fn fmt<W: fmt::Write>(&self, f: &mut fmt::Formatter<W>) -> fmt::Result
        ensures { Displays W.write_str_gives f.old result operation_layout operation_levels
            (mutation_view N.bytes self.now) f.new }
    {
        fmt_in_default_style(&parts!(Mutation, self), f)
    }
}

impl<N: Names> fmt::Display for Subscription<N> {
    ghost output = { λ t. Some (text_of (operation_layout default_style (subscription_view N.bytes t))) };

    ghost styled_output = { λ t spec. Some (text_of (operation_layout default_style (subscription_view N.bytes t))) };

    fn fmt<W: fmt::Write>(&self, f: &mut fmt::Formatter<W>) -> fmt::Result
        ensures { Displays W.write_str_gives f.old result operation_layout operation_levels
            (subscription_view N.bytes self.now) f.new }
    {
        fmt_in_default_style(&parts!(Subscription, self), f)
    }
}

impl<N: Names> fmt::Display for VariableDefinition<N> {
    ghost output = { λ t. Some
        (text_of (variable_definition_layout default_style (variable_definition_view N.bytes t))) };

    ghost styled_output = { λ t spec. Some
        (text_of (variable_definition_layout default_style (variable_definition_view N.bytes t))) };

    fn fmt<W: fmt::Write>(&self, f: &mut fmt::Formatter<W>) -> fmt::Result
        ensures { Displays W.write_str_gives f.old result variable_definition_layout variable_definition_levels
            (variable_definition_view N.bytes self.now) f.new }
    {
        fmt_in_default_style(self, f)
    }
}

impl<N: Names> fmt::Display for SelectionSet<N> {
    ghost output = { λ t. Some (text_of (selection_set_layout default_style 0 (selection_set_view N.bytes t))) };

    ghost styled_output = { λ t spec. Some
        (text_of (selection_set_layout default_style 0 (selection_set_view N.bytes t))) };

    fn fmt<W: fmt::Write>(&self, f: &mut fmt::Formatter<W>) -> fmt::Result
        ensures { Displays W.write_str_gives f.old result (λ s. selection_set_layout s 0) selection_set_levels
            (selection_set_view N.bytes self.now) f.new }
    {
        fmt_in_default_style(self, f)
    }
}

impl<N: Names> fmt::Display for Field<N> {
    ghost output = { λ t. Some (text_of (selection_layout default_style 0 (field_view N.bytes t))) };

    ghost styled_output = { λ t spec. Some (text_of (selection_layout default_style 0 (field_view N.bytes t))) };

    fn fmt<W: fmt::Write>(&self, f: &mut fmt::Formatter<W>) -> fmt::Result
        ensures { Displays W.write_str_gives f.old result (λ s. selection_layout s 0) selection_levels
            (field_view N.bytes self.now) f.new }
    {
        fmt_in_default_style(self, f)
    }
}

impl<N: Names> fmt::Display for FragmentSpread<N> {
    ghost output = { λ t. Some (text_of (selection_layout default_style 0 (fragment_spread_view N.bytes t))) };

    ghost styled_output = { λ t spec. Some
        (text_of (selection_layout default_style 0 (fragment_spread_view N.bytes t))) };

    fn fmt<W: fmt::Write>(&self, f: &mut fmt::Formatter<W>) -> fmt::Result
        ensures { Displays W.write_str_gives f.old result (λ s. selection_layout s 0) selection_levels
            (fragment_spread_view N.bytes self.now) f.new }
    {
        fmt_in_default_style(self, f)
    }
}

impl<N: Names> fmt::Display for InlineFragment<N> {
    ghost output = { λ t. Some (text_of (selection_layout default_style 0 (inline_fragment_view N.bytes t))) };

    ghost styled_output = { λ t spec. Some
        (text_of (selection_layout default_style 0 (inline_fragment_view N.bytes t))) };

    fn fmt<W: fmt::Write>(&self, f: &mut fmt::Formatter<W>) -> fmt::Result
        ensures { Displays W.write_str_gives f.old result (λ s. selection_layout s 0) selection_levels
            (inline_fragment_view N.bytes self.now) f.new }
    {
        fmt_in_default_style(self, f)
    }
}

impl<N: Names> fmt::Display for TypeCondition<N> {
    ghost output = { λ t. Some (text_of (type_condition_layout (type_condition_view N.bytes t))) };

    ghost styled_output = { λ t spec. Some (text_of (type_condition_layout (type_condition_view N.bytes t))) };

    fn fmt<W: fmt::Write>(&self, f: &mut fmt::Formatter<W>) -> fmt::Result {
        write_type_condition(f, self)
    }
}
