//! The common part of a type definition and a type extension.
ghost use Rattle.std.specs.Prelude.{◌≡◌, option_map, string_bytes};
ghost use Rattle.graphql_schema.specs.Tree.{type_definition, extension, adds_something};
ghost use Rattle.graphql_schema.specs.Views.{type_definition_view, type_extension_view};
ghost use Rattle.graphql_schema.specs.steps.TypeBodies.{type_body_view};

use crate::tree::{
    EnumType, EnumTypeExtension, EnumValue, Field, InputObjectType, InputObjectTypeExtension,
    InputValue, InterfaceType, InterfaceTypeExtension, ObjectType, ObjectTypeExtension, ScalarType,
    ScalarTypeExtension, TypeDefinition, TypeExtension, UnionType, UnionTypeExtension,
};
use graphql_core::common::Names;
use graphql_core::common::tree::Directive;
use graphql_core::position::Pos;

/// The parts of a type, by its kind.
#[derive(Drop)]
pub enum TypeParts<N: Names> {
    Scalar,
    /// The names of the implemented interfaces, and the fields.
    Object(Vec<N::Value>, Vec<Field<N>>),
    /// The names of the implemented interfaces, and the fields.
    Interface(Vec<N::Value>, Vec<Field<N>>),
    /// The names of the member types.
    Union(Vec<N::Value>),
    Enum(Vec<EnumValue<N>>),
    InputObject(Vec<InputValue<N>>),
}

/// A type, without `extend` and without description.
#[derive(Drop)]
pub struct TypeBody<N: Names> {
    /// The position of the keyword.
    pub position: Pos,
    pub name: N::Value,
    pub directives: Vec<Directive<N>>,
    pub parts: TypeParts<N>,
}

// Builds a type definition or a type extension from `(position, name, directives)` and these fields.
macro_rules! typed {
    ($head:expr => $either:ident::$kind:ident($record:ident { $($field:ident),* })) => {{
        let (position, name, directives) = $head;
        $either::$kind($record { position, name, directives, $($field),* })
    }};
}

impl<N: Names> TypeBody<N> {
    /// The type definition with this body.
    pub fn into_definition(self, description: Option<String>) -> TypeDefinition<N>
        ensures { type_definition_view N.bytes result
            ≡ type_definition (option_map string_bytes description) (type_body_view N.bytes self) }
    {
        let head = (self.position, self.name, self.directives);
        match self.parts {
            TypeParts::Scalar => {
                typed!(head => TypeDefinition::Scalar(ScalarType { description }))
            }
            TypeParts::Object(implements_interfaces, fields) => {
                typed!(head => TypeDefinition::Object(ObjectType { description, implements_interfaces, fields }))
            }
            TypeParts::Interface(implements_interfaces, fields) => {
                typed!(head => TypeDefinition::Interface(InterfaceType { description, implements_interfaces, fields }))
            }
            TypeParts::Union(types) => {
                typed!(head => TypeDefinition::Union(UnionType { description, types }))
            }
            TypeParts::Enum(values) => {
                typed!(head => TypeDefinition::Enum(EnumType { description, values }))
            }
            TypeParts::InputObject(fields) => {
                typed!(head => TypeDefinition::InputObject(InputObjectType { description, fields }))
            }
        }
    }

    /// The type extension with this body.
    pub fn into_extension(self) -> TypeExtension<N>
        ensures { type_extension_view N.bytes result ≡ extension (type_body_view N.bytes self) }
    {
        let head = (self.position, self.name, self.directives);
        match self.parts {
            TypeParts::Scalar => { typed!(head => TypeExtension::Scalar(ScalarTypeExtension {})) }
            TypeParts::Object(implements_interfaces, fields) => {
                typed!(head => TypeExtension::Object(ObjectTypeExtension { implements_interfaces, fields }))
            }
            TypeParts::Interface(implements_interfaces, fields) => {
                typed!(head => TypeExtension::Interface(InterfaceTypeExtension { implements_interfaces, fields }))
            }
            TypeParts::Union(types) => {
                typed!(head => TypeExtension::Union(UnionTypeExtension { types }))
            }
            TypeParts::Enum(values) => {
                typed!(head => TypeExtension::Enum(EnumTypeExtension { values }))
            }
            TypeParts::InputObject(fields) => {
                typed!(head => TypeExtension::InputObject(InputObjectTypeExtension { fields }))
            }
        }
    }

    /// Whether an extension with this body adds something: a directive or a part.
    /// The interfaces count for an object type, but not for an interface.
    pub fn adds_something(&self) -> bool
        ensures { result ≡ adds_something (type_body_view N.bytes self.now) }
    {
        let has_parts = match &self.parts {
            TypeParts::Scalar => false,
            TypeParts::Object(interfaces, fields) => !interfaces.is_empty() || !fields.is_empty(),
            TypeParts::Interface(_, fields) => !fields.is_empty(),
            TypeParts::Union(types) => !types.is_empty(),
            TypeParts::Enum(values) => !values.is_empty(),
            TypeParts::InputObject(fields) => !fields.is_empty(),
        };
        !self.directives.is_empty() || has_parts
    }
}
