//! Extensions of types and of the schema.
use crate::tree::parts::{EnumValue, Field, InputValue};
use graphql_core::common::Names;
use graphql_core::common::tree::Directive;
use graphql_core::position::Pos;

/// An extension of a scalar type (October 2021, section 3.5.6).
#[derive_where(Debug, Clone, PartialEq)]
#[derive(Drop)]
pub struct ScalarTypeExtension<N: Names> {
    /// The position of the keyword after `extend`.
    pub position: Pos,
    /// The name of the extended type.
    pub name: N::Value,
    /// The directives in source order.
    pub directives: Vec<Directive<N>>,
}

/// An extension of an object type (October 2021, section 3.6.3).
#[derive_where(Debug, Clone, PartialEq)]
#[derive(Drop)]
pub struct ObjectTypeExtension<N: Names> {
    /// The position of the keyword after `extend`.
    pub position: Pos,
    /// The name of the extended type.
    pub name: N::Value,
    /// The names of the implemented interfaces, in source order.
    pub implements_interfaces: Vec<N::Value>,
    /// The directives in source order.
    pub directives: Vec<Directive<N>>,
    /// The fields in source order; empty without braces.
    pub fields: Vec<Field<N>>,
}

/// An extension of an interface (October 2021, section 3.7.1).
#[derive_where(Debug, Clone, PartialEq)]
#[derive(Drop)]
pub struct InterfaceTypeExtension<N: Names> {
    /// The position of the keyword after `extend`.
    pub position: Pos,
    /// The name of the extended type.
    pub name: N::Value,
    /// The names of the implemented interfaces, in source order.
    pub implements_interfaces: Vec<N::Value>,
    /// The directives in source order.
    pub directives: Vec<Directive<N>>,
    /// The fields in source order; empty without braces.
    pub fields: Vec<Field<N>>,
}

/// An extension of a union (October 2021, section 3.8.1).
#[derive_where(Debug, Clone, PartialEq)]
#[derive(Drop)]
pub struct UnionTypeExtension<N: Names> {
    /// The position of the keyword after `extend`.
    pub position: Pos,
    /// The name of the extended type.
    pub name: N::Value,
    /// The directives in source order.
    pub directives: Vec<Directive<N>>,
    /// The names of the member types, in source order.
    pub types: Vec<N::Value>,
}

/// An extension of an enum (October 2021, section 3.9.1).
#[derive_where(Debug, Clone, PartialEq)]
#[derive(Drop)]
pub struct EnumTypeExtension<N: Names> {
    /// The position of the keyword after `extend`.
    pub position: Pos,
    /// The name of the extended type.
    pub name: N::Value,
    /// The directives in source order.
    pub directives: Vec<Directive<N>>,
    /// The values in source order; empty without braces.
    pub values: Vec<EnumValue<N>>,
}

/// An extension of an input object (October 2021, section 3.10.1).
#[derive_where(Debug, Clone, PartialEq)]
#[derive(Drop)]
pub struct InputObjectTypeExtension<N: Names> {
    /// The position of the keyword after `extend`.
    pub position: Pos,
    /// The name of the extended type.
    pub name: N::Value,
    /// The directives in source order.
    pub directives: Vec<Directive<N>>,
    /// The fields in source order; empty without braces.
    pub fields: Vec<InputValue<N>>,
}

/// An extension of the schema (October 2021, section 3.3.2). A parsed one has a directive or an operation.
#[derive_where(Debug, Clone, PartialEq)]
#[derive(Drop)]
pub struct SchemaExtension<N: Names> {
    /// The position of the keyword `schema` after `extend`.
    pub position: Pos,
    /// The directives in source order.
    pub directives: Vec<Directive<N>>,
    /// The name of the type of queries, if there is one.
    pub query: Option<N::Value>,
    /// The name of the type of mutations, if there is one.
    pub mutation: Option<N::Value>,
    /// The name of the type of subscriptions, if there is one.
    pub subscription: Option<N::Value>,
}
