//! Directive locations.
ghost use Rattle.std.specs.Prelude.{◌≡◌, ◌↔◌, IsTrue, not};
ghost use Rattle.graphql_schema.specs.Locations.{word_of, location_of, IsNamed, is_in_queries};

use std::hash::Hash;
use std::str::FromStr;
use thiserror::Error;

/// A directive location: where a directive can appear (October 2021, section 3.13).
#[derive(Debug, Clone, Copy, PartialEq, Eq, Hash)]
pub enum DirectiveLocation {
    /// A query.
    Query,
    /// A mutation.
    Mutation,
    /// A subscription.
    Subscription,
    /// A field of a selection set.
    Field,
    /// A fragment definition.
    FragmentDefinition,
    /// A fragment spread.
    FragmentSpread,
    /// An inline fragment.
    InlineFragment,
    /// A schema.
    Schema,
    /// A scalar type.
    Scalar,
    /// An object type.
    Object,
    /// A field of an object type or of an interface.
    FieldDefinition,
    /// An argument of such a field or of a directive definition.
    ArgumentDefinition,
    /// An interface.
    Interface,
    /// A union.
    Union,
    /// An enum.
    Enum,
    /// A value of an enum.
    EnumValue,
    /// An input object.
    InputObject,
    /// A field of an input object.
    InputFieldDefinition,
    /// A variable definition of an operation.
    VariableDefinition,
}

/// The error for a string that names no directive location.
#[derive(Debug, Clone, Copy, PartialEq, Eq, Error)]
#[error("invalid directive location")]
pub struct InvalidDirectiveLocation;

impl DirectiveLocation {
    /// Returns the word that names the location in GraphQL, such as `FIELD_DEFINITION`.
    pub fn as_str(&self) -> &'static str
        ensures { result.now ≡ word_of self.now }
    {
        match self {
            DirectiveLocation::Query => "QUERY",
            DirectiveLocation::Mutation => "MUTATION",
            DirectiveLocation::Subscription => "SUBSCRIPTION",
            DirectiveLocation::Field => "FIELD",
            DirectiveLocation::FragmentDefinition => "FRAGMENT_DEFINITION",
            DirectiveLocation::FragmentSpread => "FRAGMENT_SPREAD",
            DirectiveLocation::InlineFragment => "INLINE_FRAGMENT",
            DirectiveLocation::Schema => "SCHEMA",
            DirectiveLocation::Scalar => "SCALAR",
            DirectiveLocation::Object => "OBJECT",
            DirectiveLocation::FieldDefinition => "FIELD_DEFINITION",
            DirectiveLocation::ArgumentDefinition => "ARGUMENT_DEFINITION",
            DirectiveLocation::Interface => "INTERFACE",
            DirectiveLocation::Union => "UNION",
            DirectiveLocation::Enum => "ENUM",
            DirectiveLocation::EnumValue => "ENUM_VALUE",
            DirectiveLocation::InputObject => "INPUT_OBJECT",
            DirectiveLocation::InputFieldDefinition => "INPUT_FIELD_DEFINITION",
            DirectiveLocation::VariableDefinition => "VARIABLE_DEFINITION",
        }
    }

    /// Whether the location is one of the seven in queries. `VariableDefinition` is not one of them.
    pub fn is_query(&self) -> bool
        ensures { result ≡ is_in_queries self.now }
    {
        matches!(
            self,
            DirectiveLocation::Query
                | DirectiveLocation::Mutation
                | DirectiveLocation::Subscription
                | DirectiveLocation::Field
                | DirectiveLocation::FragmentDefinition
                | DirectiveLocation::FragmentSpread
                | DirectiveLocation::InlineFragment
        )
    }

    /// Whether the location is one of the other twelve, in schemas. `VariableDefinition` is one of them.
    pub fn is_schema(&self) -> bool
        ensures { result ≡ not (is_in_queries self.now) }
    {
        !self.is_query()
    }
}

/// Returns whether two locations are equal. Equal locations are the same, and feed a hasher the same input.
pub fn are_same_location(a: &DirectiveLocation, b: &DirectiveLocation) -> bool
    ensures derived { result ≡ ⟦<DirectiveLocation as PartialEq>⟧.eq a.now b.now }
    ensures same { IsTrue result ↔ (a.now ≡ b.now) }
    ensures hash { IsTrue result
        → ⟦<DirectiveLocation as Hash>⟧.hash_input a.now ≡ ⟦<DirectiveLocation as Hash>⟧.hash_input b.now }
{
    a == b
}

impl FromStr for DirectiveLocation {
    type Err = InvalidDirectiveLocation;

    ghost from_str_gives = { λ text r. IsNamed (location_of text) r };

    fn from_str(text: &str) -> Result<DirectiveLocation, InvalidDirectiveLocation> {
        match text {
            "QUERY" => Ok(DirectiveLocation::Query),
            "MUTATION" => Ok(DirectiveLocation::Mutation),
            "SUBSCRIPTION" => Ok(DirectiveLocation::Subscription),
            "FIELD" => Ok(DirectiveLocation::Field),
            "FRAGMENT_DEFINITION" => Ok(DirectiveLocation::FragmentDefinition),
            "FRAGMENT_SPREAD" => Ok(DirectiveLocation::FragmentSpread),
            "INLINE_FRAGMENT" => Ok(DirectiveLocation::InlineFragment),
            "SCHEMA" => Ok(DirectiveLocation::Schema),
            "SCALAR" => Ok(DirectiveLocation::Scalar),
            "OBJECT" => Ok(DirectiveLocation::Object),
            "FIELD_DEFINITION" => Ok(DirectiveLocation::FieldDefinition),
            "ARGUMENT_DEFINITION" => Ok(DirectiveLocation::ArgumentDefinition),
            "INTERFACE" => Ok(DirectiveLocation::Interface),
            "UNION" => Ok(DirectiveLocation::Union),
            "ENUM" => Ok(DirectiveLocation::Enum),
            "ENUM_VALUE" => Ok(DirectiveLocation::EnumValue),
            "INPUT_OBJECT" => Ok(DirectiveLocation::InputObject),
            "INPUT_FIELD_DEFINITION" => Ok(DirectiveLocation::InputFieldDefinition),
            "VARIABLE_DEFINITION" => Ok(DirectiveLocation::VariableDefinition),
            _ => Err(InvalidDirectiveLocation),
        }
    }
}
