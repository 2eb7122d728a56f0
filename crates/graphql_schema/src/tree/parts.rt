//! Parts of definitions.
use graphql_core::common::Names;
use graphql_core::common::tree::{Directive, Type, Value};
use graphql_core::position::Pos;

/// A field of an object type or of an interface (October 2021, section 3.6).
#[derive_where(Debug, Clone, PartialEq)]
#[derive(Drop)]
pub struct Field<N: Names> {
    /// The position of the description if there is one, otherwise of the name.
    pub position: Pos,
    /// The value of the description string; `None` without a description.
    pub description: Option<String>,
    /// The name (section 2.1.9).
    pub name: N::Value,
    /// The arguments in source order; empty without parentheses.
    pub arguments: Vec<InputValue<N>>,
    /// The type (section 2.11).
    pub field_type: Type<N>,
    /// The directives in source order.
    pub directives: Vec<Directive<N>>,
}

/// An argument of a field or of a directive, or a field of an input object (section 3.6.1).
#[derive_where(Debug, Clone, PartialEq)]
#[derive(Drop)]
pub struct InputValue<N: Names> {
    /// The position of the description if there is one, otherwise of the name.
    pub position: Pos,
    /// The value of the description string; `None` without a description.
    pub description: Option<String>,
    /// The name (section 2.1.9).
    pub name: N::Value,
    /// The type (section 2.11).
    pub value_type: Type<N>,
    /// The default value, if there is one; a parsed one holds no variable.
    pub default_value: Option<Value<N>>,
    /// The directives in source order.
    pub directives: Vec<Directive<N>>,
}

/// A value of an enum type (section 3.9).
#[derive_where(Debug, Clone, PartialEq)]
#[derive(Drop)]
pub struct EnumValue<N: Names> {
    /// The position of the description if there is one, otherwise of the name.
    pub position: Pos,
    /// The value of the description string; `None` without a description.
    pub description: Option<String>,
    /// The name, which can also be `true`, `false` or `null`.
    pub name: N::Value,
    /// The directives in source order.
    pub directives: Vec<Directive<N>>,
}
