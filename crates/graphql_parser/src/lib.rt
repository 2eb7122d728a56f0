//! Tokenizer, trees, parsers and printers for GraphQL documents. `docs/CALLING.md` shows a caller for each task.
#![tactic(auto)]

pub use graphql_core::common::{BadToken, Cause};
pub use graphql_core::format::{FormatError, Style};
pub use graphql_core::position::Pos;
pub use graphql_query::{minify_query, parse_query};
pub use graphql_schema::parse_schema;

/// Text types, numbers, values of strings, and causes of errors.
pub mod common {
    pub use graphql_core::common::{
        BadToken, Cause, FloatLiteral, MAX_LENGTH, Names, Number, Text, UnquoteError,
        unquote_block_string, unquote_string,
    };
}

/// The tokenizer, which splits a source into tokens.
pub mod tokenizer {
    pub use graphql_core::tokenizer::{Bad, Kind, MAX_DEPTH, Token, TokenStream};
}

/// Query documents.
pub mod query {
    pub use graphql_core::common::{Directive, FloatLiteral, Number, Type, Value};
    pub use graphql_query::{
        Definition, Document, Field, FragmentDefinition, FragmentSpread, InlineFragment,
        MinifyError, Mutation, Names, OperationDefinition, ParseError, Query, Selection,
        SelectionSet, Subscription, Text, TypeCondition, VariableDefinition, consume_definition,
        minify_query, parse_query, parse_query_from,
    };
}

/// Schema documents.
pub mod schema {
    pub use graphql_core::common::{Directive, Type, Value};
    pub use graphql_schema::{
        Definition, DirectiveDefinition, DirectiveLocation, Document, EnumType, EnumTypeExtension,
        EnumValue, Field, InputObjectType, InputObjectTypeExtension, InputValue, InterfaceType,
        InterfaceTypeExtension, InvalidDirectiveLocation, Names, ObjectType, ObjectTypeExtension,
        ParseError, ScalarType, ScalarTypeExtension, SchemaDefinition, SchemaExtension, Text,
        TypeDefinition, TypeExtension, UnionType, UnionTypeExtension, parse_schema,
        parse_schema_from,
    };
}

/// Theorems about what the calls promise. A theorem is a function whose contract states it, and most have no code.
pub mod laws {
    pub use graphql_core::common::one_value;
    pub use graphql_core::common::read::laws::readers_return_what_is_derived;
    pub use graphql_core::position::{are_same_position, compare_positions, default_position};
    pub use graphql_core::tokenizer::one_list_of_items;
    pub use graphql_schema::{are_same_location, locations_are_named};

    /// Theorems about query documents.
    pub mod query {
        pub use graphql_query::{
            brackets_are_those_of_the_layout, definition_errors_have_different_indexes,
            first_definition_is_unique, first_errors_stop_all_documents,
            minified_texts_are_parsed_alike, no_definition_begins_another,
            none_goes_on_with_an_unexpected_item, printed_documents_parse_back,
            readers_return_what_is_derived, text_has_no_positions,
        };
    }

    /// Theorems about schema documents.
    pub mod schema {
        pub use graphql_schema::{
            brackets_are_those_of_the_layout, minified_texts_are_parsed_alike,
            none_goes_on_with_an_unexpected_item, printed_documents_parse_back,
            readers_return_what_is_derived, rejected_nodes_are_in_the_input, text_has_no_positions,
        };
    }
}

#[cfg(test)]
mod tests;
