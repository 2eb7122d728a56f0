//! Queries: their trees, parsers, formatter and minifier.
#![tactic(auto)]

mod consume;
mod document;
mod error;
mod laws;
mod minify;
mod print;
mod read;
mod text_laws;
pub mod tree;

pub use consume::consume_definition;
pub use document::{parse_query, parse_query_from};
pub use error::ParseError;
pub use graphql_core::common::{Names, Text};
pub use laws::{
    definition_errors_have_different_indexes, first_definition_is_unique,
    first_errors_stop_all_documents, minified_texts_are_parsed_alike, no_definition_begins_another,
    none_goes_on_with_an_unexpected_item, readers_return_what_is_derived,
};
pub use minify::{MinifyError, minify_query};
pub use text_laws::{
    brackets_are_those_of_the_layout, printed_documents_parse_back, text_has_no_positions,
    worked_examples,
};

/// A query document (October 2021, section 2.2).
pub type Document<'a, T> = tree::Document<T>;

/// A definition of a query document (section 2.2).
pub type Definition<'a, T> = tree::Definition<T>;

/// An operation (section 2.3).
pub type OperationDefinition<'a, T> = tree::OperationDefinition<T>;

/// A query (section 2.3).
pub type Query<'a, T> = tree::Query<T>;

/// A mutation (section 2.3).
pub type Mutation<'a, T> = tree::Mutation<T>;

/// A subscription (section 2.3).
pub type Subscription<'a, T> = tree::Subscription<T>;

/// The definition of a variable (section 2.10).
pub type VariableDefinition<'a, T> = tree::VariableDefinition<T>;

/// A fragment (section 2.8).
pub type FragmentDefinition<'a, T> = tree::FragmentDefinition<T>;

/// The type to which selections apply (section 2.8.1).
pub type TypeCondition<'a, T> = tree::TypeCondition<T>;

/// Selections in braces (section 2.4).
pub type SelectionSet<'a, T> = tree::SelectionSet<T>;

/// One selection (section 2.4).
pub type Selection<'a, T> = tree::Selection<T>;

/// A field (section 2.5).
pub type Field<'a, T> = tree::Field<T>;

/// A fragment spread: `...` and the name of a fragment (section 2.8).
pub type FragmentSpread<'a, T> = tree::FragmentSpread<T>;

/// An inline fragment: selections after `...`, with or without a type (section 2.8.2).
pub type InlineFragment<'a, T> = tree::InlineFragment<T>;
