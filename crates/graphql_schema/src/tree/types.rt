//! Type definitions.
use crate::tree::parts::{EnumValue, Field, InputValue};
use graphql_core::common::Names;
use graphql_core::common::tree::Directive;
use graphql_core::position::Pos;

/// A scalar type (October 2021, section 3.5).
#[derive_where(Debug, Clone, PartialEq)]
#[derive(Drop)]
pub struct ScalarType<N: Names> {
    /// The position of the keyword `scalar`.
    pub position: Pos,
    /// The value of the description string; `None` without a description.
    pub description: Option<String>,
    /// The name (section 2.1.9).
    pub name: N::Value,
    /// The directives in source order.
    pub directives: Vec<Directive<N>>,
}

/// An object type (October 2021, section 3.6).
#[derive_where(Debug, Clone, PartialEq)]
#[derive(Drop)]
pub struct ObjectType<N: Names> {
    /// The position of the keyword `type`.
    pub position: Pos,
    /// The value of the description string; `None` without a description.
    pub description: Option<String>,
    /// The name (section 2.1.9).
    pub name: N::Value,
    /// The names of the implemented interfaces, in source order.
    pub implements_interfaces: Vec<N::Value>,
    /// The directives in source order.
    pub directives: Vec<Directive<N>>,
    /// The fields in source order; empty without braces.
    pub fields: Vec<Field<N>>,
}

/// An interface type (October 2021, section 3.7).
#[derive_where(Debug, Clone, PartialEq)]
#[derive(Drop)]
pub struct InterfaceType<N: Names> {
    /// The position of the keyword `interface`.
    pub position: Pos,
    /// The value of the description string; `None` without a description.
    pub description: Option<String>,
    /// The name (section 2.1.9).
    pub name: N::Value,
    /// The names of the implemented interfaces, in source order.
    pub implements_interfaces: Vec<N::Value>,
    /// The directives in source order.
    pub directives: Vec<Directive<N>>,
    /// The fields in source order; empty without braces.
    pub fields: Vec<Field<N>>,
}

/// A union type (October 2021, section 3.8).
#[derive_where(Debug, Clone, PartialEq)]
#[derive(Drop)]
pub struct UnionType<N: Names> {
    /// The position of the keyword `union`.
    pub position: Pos,
    /// The value of the description string; `None` without a description.
    pub description: Option<String>,
    /// The name (section 2.1.9).
    pub name: N::Value,
    /// The directives in source order.
    pub directives: Vec<Directive<N>>,
    /// The names of the member types, in source order.
    pub types: Vec<N::Value>,
}

/// An enum type (October 2021, section 3.9).
#[derive_where(Debug, Clone, PartialEq)]
#[derive(Drop)]
pub struct EnumType<N: Names> {
    /// The position of the keyword `enum`.
    pub position: Pos,
    /// The value of the description string; `None` without a description.
    pub description: Option<String>,
    /// The name (section 2.1.9).
    pub name: N::Value,
    /// The directives in source order.
    pub directives: Vec<Directive<N>>,
    /// The values in source order; empty without braces.
    pub values: Vec<EnumValue<N>>,
}

/// An input object type (October 2021, section 3.10).
#[derive_where(Debug, Clone, PartialEq)]
#[derive(Drop)]
pub struct InputObjectType<N: Names> {
    /// The position of the keyword `input`.
    pub position: Pos,
    /// The value of the description string; `None` without a description.
    pub description: Option<String>,
    /// The name (section 2.1.9).
    pub name: N::Value,
    /// The directives in source order.
    pub directives: Vec<Directive<N>>,
    /// The fields in source order; empty without braces.
    pub fields: Vec<InputValue<N>>,
}
