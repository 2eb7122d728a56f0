//! Trees that queries and schemas share, generic over the type of names.
mod copies;

use crate::common::{FloatLiteral, Names, Number};
use crate::position::Pos;
use std::collections::BTreeMap;

/// A value (GraphQL, October 2021, section 2.9).
#[derive_where(Debug, PartialEq)]
#[derive(Drop)]
pub enum Value<N: Names> {
    /// A variable, by its name without the `$` (2.10).
    Variable(N::Value),
    /// An integer (2.9.1).
    Int(Number),
    /// A number with a fraction or an exponent (2.9.2).
    Float(FloatLiteral),
    /// A string: its value, without quotes and with escapes decoded (2.9.4).
    String(String),
    /// `true` or `false` (2.9.3).
    Boolean(bool),
    /// `null` (2.9.5).
    Null,
    /// An enum value, by its name (2.9.6).
    Enum(N::Value),
    /// The items of a list (2.9.7).
    List(Vec<Value<N>>),
    /// The fields of an input object, by name (2.9.8). Of fields with equal names, the last one is kept.
    Object(BTreeMap<N::Value, Value<N>>),
}

/// A reference to a type (GraphQL, October 2021, section 2.11).
#[derive_where(Debug, PartialEq)]
#[derive(Drop)]
pub enum Type<N: Names> {
    /// A named type, by its name.
    NamedType(N::Value),
    /// The list type of a type, `[T]`.
    ListType(Box<Type<N>>),
    /// The non-null type of a type, `T!`.
    NonNullType(Box<Type<N>>),
}

/// A directive (GraphQL, October 2021, section 2.12).
#[derive_where(Debug, PartialEq)]
#[derive(Drop)]
pub struct Directive<N: Names> {
    /// The position of the `@`.
    pub position: Pos,
    /// The name, without the `@`.
    pub name: N::Value,
    /// The arguments in source order, each a name and a value.
    pub arguments: Vec<(N::Value, Value<N>)>,
}
