//! Schemas: their trees, parsers and formatter.
#![tactic(auto)]

mod document;
mod error;
mod laws;
mod location;
mod print;
mod read;
mod text_laws;
pub mod tree;

pub use document::{parse_schema, parse_schema_from};
pub use error::ParseError;
pub use graphql_core::common::{Names, Text};
pub use laws::{
    minified_texts_are_parsed_alike, none_goes_on_with_an_unexpected_item,
    readers_return_what_is_derived, rejected_nodes_are_in_the_input,
};
pub use location::{DirectiveLocation, InvalidDirectiveLocation, are_same_location};
pub use text_laws::{
    brackets_are_those_of_the_layout, locations_are_named, printed_documents_parse_back,
    text_has_no_positions, three_symbols_have_factored_rules, worked_errors, worked_examples,
    worked_layouts,
};

/// A schema document (October 2021, section 3).
pub type Document<'a, T> = tree::Document<T>;

/// A definition of a schema document (section 3).
pub type Definition<'a, T> = tree::Definition<T>;

/// A schema definition: the root operation types (section 3.3).
pub type SchemaDefinition<'a, T> = tree::SchemaDefinition<T>;

/// A type definition (section 3.4).
pub type TypeDefinition<'a, T> = tree::TypeDefinition<T>;

/// A scalar type (section 3.5).
pub type ScalarType<'a, T> = tree::ScalarType<T>;

/// An object type (section 3.6).
pub type ObjectType<'a, T> = tree::ObjectType<T>;

/// An interface type (section 3.7).
pub type InterfaceType<'a, T> = tree::InterfaceType<T>;

/// A union type (section 3.8).
pub type UnionType<'a, T> = tree::UnionType<T>;

/// An enum type (section 3.9).
pub type EnumType<'a, T> = tree::EnumType<T>;

/// An input object type (section 3.10).
pub type InputObjectType<'a, T> = tree::InputObjectType<T>;

/// A field of an object type or of an interface (section 3.6).
pub type Field<'a, T> = tree::Field<T>;

/// An argument of a field or of a directive, or a field of an input object (section 3.6.1).
pub type InputValue<'a, T> = tree::InputValue<T>;

/// A value of an enum type (section 3.9).
pub type EnumValue<'a, T> = tree::EnumValue<T>;

/// An extension of a type (section 3.4.3).
pub type TypeExtension<'a, T> = tree::TypeExtension<T>;

/// An extension of the schema: directives or root operation types (section 3.3.2).
pub type SchemaExtension<'a, T> = tree::SchemaExtension<T>;

/// An extension of a scalar type (section 3.5.6).
pub type ScalarTypeExtension<'a, T> = tree::ScalarTypeExtension<T>;

/// An extension of an object type (section 3.6.3).
pub type ObjectTypeExtension<'a, T> = tree::ObjectTypeExtension<T>;

/// An extension of an interface (section 3.7.1).
pub type InterfaceTypeExtension<'a, T> = tree::InterfaceTypeExtension<T>;

/// An extension of a union (section 3.8.1).
pub type UnionTypeExtension<'a, T> = tree::UnionTypeExtension<T>;

/// An extension of an enum (section 3.9.1).
pub type EnumTypeExtension<'a, T> = tree::EnumTypeExtension<T>;

/// An extension of an input object (section 3.10.1).
pub type InputObjectTypeExtension<'a, T> = tree::InputObjectTypeExtension<T>;

/// A directive definition (section 3.13).
pub type DirectiveDefinition<'a, T> = tree::DirectiveDefinition<T>;
