//! The parts of types and of type extensions that are formatted.
ghost use Rattle.std.specs.Prelude.{◌≡◌};
ghost use Rattle.graphql_schema.specs.{scalar_view, object_view, interface_view, union_view, enum_view, input_view};
ghost use Rattle.graphql_schema.specs.{type_definition_view, scalar_extension_view, object_extension_view};
ghost use Rattle.graphql_schema.specs.{interface_extension_view, union_extension_view, enum_extension_view};
ghost use Rattle.graphql_schema.specs.{input_extension_view, type_extension_view, outline_seen};

use crate::print::body::{Body, Outline};
use crate::print::parts::Parts;
use crate::tree::{
    EnumType, EnumTypeExtension, InputObjectType, InputObjectTypeExtension, InterfaceType,
    InterfaceTypeExtension, ObjectType, ObjectTypeExtension, ScalarType, ScalarTypeExtension,
    TypeDefinition, TypeExtension, UnionType, UnionTypeExtension,
};
use graphql_core::common::Names;

// The body of a type or of a type extension with these parts.
macro_rules! body {
    ($of:expr, $parts:expr) => {
        Body {
            position: $of.position,
            name: &$of.name,
            directives: &$of.directives,
            parts: $parts,
        }
    };
}

impl<N: Names> ScalarType<N> {
    pub(crate) fn outline(&self) -> Outline<'_, N>
        ensures { outline_seen N.bytes result ≡ scalar_view N.bytes self.now }
    {
        Outline::Definition(&self.description, body!(self, Parts::Scalar))
    }
}

impl<N: Names> ObjectType<N> {
    pub(crate) fn outline(&self) -> Outline<'_, N>
        ensures { outline_seen N.bytes result ≡ object_view N.bytes self.now }
    {
        let parts = Parts::Object(&self.implements_interfaces, &self.fields);
        Outline::Definition(&self.description, body!(self, parts))
    }
}

impl<N: Names> InterfaceType<N> {
    pub(crate) fn outline(&self) -> Outline<'_, N>
        ensures { outline_seen N.bytes result ≡ interface_view N.bytes self.now }
    {
        let parts = Parts::Interface(&self.implements_interfaces, &self.fields);
        Outline::Definition(&self.description, body!(self, parts))
    }
}

impl<N: Names> UnionType<N> {
    pub(crate) fn outline(&self) -> Outline<'_, N>
        ensures { outline_seen N.bytes result ≡ union_view N.bytes self.now }
    {
        Outline::Definition(&self.description, body!(self, Parts::Union(&self.types)))
    }
}

impl<N: Names> EnumType<N> {
    pub(crate) fn outline(&self) -> Outline<'_, N>
        ensures { outline_seen N.bytes result ≡ enum_view N.bytes self.now }
    {
        Outline::Definition(&self.description, body!(self, Parts::Enum(&self.values)))
    }
}

impl<N: Names> InputObjectType<N> {
    pub(crate) fn outline(&self) -> Outline<'_, N>
        ensures { outline_seen N.bytes result ≡ input_view N.bytes self.now }
    {
        Outline::Definition(
            &self.description,
            body!(self, Parts::InputObject(&self.fields)),
        )
    }
}

impl<N: Names> TypeDefinition<N> {
    pub(crate) fn outline(&self) -> Outline<'_, N>
        ensures { outline_seen N.bytes result ≡ type_definition_view N.bytes self.now }
    {
        match self {
            TypeDefinition::Scalar(scalar) => scalar.outline(),
            TypeDefinition::Object(object) => object.outline(),
            TypeDefinition::Interface(interface) => interface.outline(),
            TypeDefinition::Union(union) => union.outline(),
            TypeDefinition::Enum(enumeration) => enumeration.outline(),
            TypeDefinition::InputObject(input) => input.outline(),
        }
    }
}

impl<N: Names> ScalarTypeExtension<N> {
    pub(crate) fn outline(&self) -> Outline<'_, N>
        ensures { outline_seen N.bytes result ≡ scalar_extension_view N.bytes self.now }
    {
        Outline::Extension(body!(self, Parts::Scalar))
    }
}

impl<N: Names> ObjectTypeExtension<N> {
    pub(crate) fn outline(&self) -> Outline<'_, N>
        ensures { outline_seen N.bytes result ≡ object_extension_view N.bytes self.now }
    {
        Outline::Extension(body!(
            self,
            Parts::Object(&self.implements_interfaces, &self.fields)
        ))
    }
}

impl<N: Names> InterfaceTypeExtension<N> {
    pub(crate) fn outline(&self) -> Outline<'_, N>
        ensures { outline_seen N.bytes result ≡ interface_extension_view N.bytes self.now }
    {
        Outline::Extension(body!(
            self,
            Parts::Interface(&self.implements_interfaces, &self.fields)
        ))
    }
}

impl<N: Names> UnionTypeExtension<N> {
    pub(crate) fn outline(&self) -> Outline<'_, N>
        ensures { outline_seen N.bytes result ≡ union_extension_view N.bytes self.now }
    {
        Outline::Extension(body!(self, Parts::Union(&self.types)))
    }
}

impl<N: Names> EnumTypeExtension<N> {
    pub(crate) fn outline(&self) -> Outline<'_, N>
        ensures { outline_seen N.bytes result ≡ enum_extension_view N.bytes self.now }
    {
        Outline::Extension(body!(self, Parts::Enum(&self.values)))
    }
}

impl<N: Names> InputObjectTypeExtension<N> {
    pub(crate) fn outline(&self) -> Outline<'_, N>
        ensures { outline_seen N.bytes result ≡ input_extension_view N.bytes self.now }
    {
        Outline::Extension(body!(self, Parts::InputObject(&self.fields)))
    }
}

impl<N: Names> TypeExtension<N> {
    pub(crate) fn outline(&self) -> Outline<'_, N>
        ensures { outline_seen N.bytes result ≡ type_extension_view N.bytes self.now }
    {
        match self {
            TypeExtension::Scalar(scalar) => scalar.outline(),
            TypeExtension::Object(object) => object.outline(),
            TypeExtension::Interface(interface) => interface.outline(),
            TypeExtension::Union(union) => union.outline(),
            TypeExtension::Enum(enumeration) => enumeration.outline(),
            TypeExtension::InputObject(input) => input.outline(),
        }
    }
}
