//! The trees of schemas. The parameter `N` decides how names are stored.
ghost use Rattle.std.specs.Prelude.{◌≡◌, Ok};

mod bare;
mod extensions;
mod parts;
mod types;

use crate::location::DirectiveLocation;
pub use extensions::{
    EnumTypeExtension, InputObjectTypeExtension, InterfaceTypeExtension, ObjectTypeExtension,
    ScalarTypeExtension, SchemaExtension, UnionTypeExtension,
};
use graphql_core::common::Names;
use graphql_core::common::tree::Directive;
use graphql_core::position::Pos;
pub use parts::{EnumValue, Field, InputValue};
use std::alloc::{AllocError, Global};
pub use types::{EnumType, InputObjectType, InterfaceType, ObjectType, ScalarType, UnionType};

/// A schema document: its definitions in order (October 2021, section 3).
#[derive_where(Debug, Clone, PartialEq)]
#[derive(Drop)]
pub struct Document<N: Names> {
    /// The definitions in source order; a parsed document has at least one.
    pub definitions: Vec<Definition<N>>,
}

impl Document<String> {
    /// Returns the document, positions included, as one that does not borrow the source.
    ///
    /// The names are owned strings, so the document is returned as it is: nothing is allocated, and no error occurs.
    pub fn into_static(self, _alloc: Global) -> Result<Document<String>, AllocError>
        ensures { result ≡ Ok self }
    {
        Ok(self)
    }
}

/// A definition of a schema document (section 3).
#[derive_where(Debug, Clone, PartialEq)]
#[derive(Drop)]
pub enum Definition<N: Names> {
    /// A schema definition (section 3.3).
    SchemaDefinition(SchemaDefinition<N>),
    /// A type definition (section 3.4).
    TypeDefinition(TypeDefinition<N>),
    /// An extension of a type (section 3.4.3).
    TypeExtension(TypeExtension<N>),
    /// An extension of the schema (section 3.3.2).
    SchemaExtension(SchemaExtension<N>),
    /// A directive definition (section 3.13).
    DirectiveDefinition(DirectiveDefinition<N>),
}

/// A schema definition: the root operation types (section 3.3).
#[derive_where(Debug, Clone, PartialEq)]
#[derive(Drop)]
pub struct SchemaDefinition<N: Names> {
    /// The position of the keyword `schema`.
    pub position: Pos,
    /// The value of the description string; `None` without a description.
    pub description: Option<String>,
    /// The directives in source order.
    pub directives: Vec<Directive<N>>,
    /// The name of the type of queries, if there is one.
    pub query: Option<N::Value>,
    /// The name of the type of mutations, if there is one.
    pub mutation: Option<N::Value>,
    /// The name of the type of subscriptions, if there is one.
    pub subscription: Option<N::Value>,
}

/// A type definition (section 3.4).
#[derive_where(Debug, Clone, PartialEq)]
#[derive(Drop)]
pub enum TypeDefinition<N: Names> {
    /// A scalar type (section 3.5).
    Scalar(ScalarType<N>),
    /// An object type (section 3.6).
    Object(ObjectType<N>),
    /// An interface type (section 3.7).
    Interface(InterfaceType<N>),
    /// A union type (section 3.8).
    Union(UnionType<N>),
    /// An enum type (section 3.9).
    Enum(EnumType<N>),
    /// An input object type (section 3.10).
    InputObject(InputObjectType<N>),
}

/// An extension of a type (section 3.4.3).
#[derive_where(Debug, Clone, PartialEq)]
#[derive(Drop)]
pub enum TypeExtension<N: Names> {
    /// An extension of a scalar type (section 3.5.6).
    Scalar(ScalarTypeExtension<N>),
    /// An extension of an object type (section 3.6.3).
    Object(ObjectTypeExtension<N>),
    /// An extension of an interface (section 3.7.1).
    Interface(InterfaceTypeExtension<N>),
    /// An extension of a union (section 3.8.1).
    Union(UnionTypeExtension<N>),
    /// An extension of an enum (section 3.9.1).
    Enum(EnumTypeExtension<N>),
    /// An extension of an input object (section 3.10.1).
    InputObject(InputObjectTypeExtension<N>),
}

/// A directive definition (section 3.13).
#[derive_where(Debug, Clone, PartialEq)]
#[derive(Drop)]
pub struct DirectiveDefinition<N: Names> {
    /// The position of the keyword `directive`.
    pub position: Pos,
    /// The value of the description string; `None` without a description.
    pub description: Option<String>,
    /// The name, without the `@`.
    pub name: N::Value,
    /// The arguments in source order; empty without parentheses.
    pub arguments: Vec<InputValue<N>>,
    /// Whether the directive can be applied more than once at one place.
    pub repeatable: bool,
    /// Where the directive can appear, in source order; a parsed directive has at least one location.
    pub locations: Vec<DirectiveLocation>,
}
