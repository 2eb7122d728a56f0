//! Trees with a name and nothing else, and empty trees.
ghost use Rattle.std.specs.Prelude.{◌≡◌, [], None};
ghost use Rattle.graphql_schema.specs.{object, interface, union, enum, input, scalar, bare, bare_enum_value};
ghost use Rattle.graphql_schema.specs.{bare_directive, empty_schema, schema, type_definition, extension, scalar_view};
ghost use Rattle.graphql_schema.specs.{object_view, interface_view, union_view, enum_view, input_view};
ghost use Rattle.graphql_schema.specs.{scalar_extension_view, object_extension_view, interface_extension_view};
ghost use Rattle.graphql_schema.specs.{union_extension_view, enum_extension_view, input_extension_view};
ghost use Rattle.graphql_schema.specs.{enum_value_view, directive_definition_view, schema_definition_view};
ghost use Rattle.graphql_schema.specs.{schema_extension_view, document_view};

use crate::tree::{
    DirectiveDefinition, Document, EnumType, EnumTypeExtension, EnumValue, InputObjectType,
    InputObjectTypeExtension, InterfaceType, InterfaceTypeExtension, ObjectType,
    ObjectTypeExtension, ScalarType, ScalarTypeExtension, SchemaDefinition, SchemaExtension,
    UnionType, UnionTypeExtension,
};
use graphql_core::common::Names;
use graphql_core::position::Pos;
use std::alloc::Global;

// Builds a tree with this name, the default position, no directives, and these lists empty.
macro_rules! named {
    ($alloc:expr => $kind:ident { $($own:tt)* } [$($list:ident),*]) => {
        $kind {
            position: Pos::default(),
            directives: Vec::new($alloc),
            $($list: Vec::new($alloc),)*
            $($own)*
        }
    };
}

impl<N: Names> ScalarType<N> {
    /// Returns a scalar type with this name and nothing else, at position 0:0.
    pub fn new(alloc: Global, name: N::Value) -> ScalarType<N>
        ensures { scalar_view N.bytes result ≡ type_definition None (bare (N.bytes name) scalar) }
    {
        named!(alloc => ScalarType { description: None, name } [])
    }
}

impl<N: Names> ObjectType<N> {
    /// Returns an object type with this name and nothing else, at position 0:0.
    pub fn new(alloc: Global, name: N::Value) -> ObjectType<N>
        ensures { object_view N.bytes result ≡ type_definition None (bare (N.bytes name) (object [] [])) }
    {
        named!(alloc => ObjectType { description: None, name } [implements_interfaces, fields])
    }
}

impl<N: Names> InterfaceType<N> {
    /// Returns an interface with this name and nothing else, at position 0:0.
    pub fn new(alloc: Global, name: N::Value) -> InterfaceType<N>
        ensures { interface_view N.bytes result ≡ type_definition None (bare (N.bytes name) (interface [] [])) }
    {
        named!(alloc => InterfaceType { description: None, name } [implements_interfaces, fields])
    }
}

impl<N: Names> UnionType<N> {
    /// Returns a union with this name and nothing else, at position 0:0.
    pub fn new(alloc: Global, name: N::Value) -> UnionType<N>
        ensures { union_view N.bytes result ≡ type_definition None (bare (N.bytes name) (union [])) }
    {
        named!(alloc => UnionType { description: None, name } [types])
    }
}

impl<N: Names> EnumType<N> {
    /// Returns an enum with this name and nothing else, at position 0:0.
    pub fn new(alloc: Global, name: N::Value) -> EnumType<N>
        ensures { enum_view N.bytes result ≡ type_definition None (bare (N.bytes name) (enum [])) }
    {
        named!(alloc => EnumType { description: None, name } [values])
    }
}

impl<N: Names> InputObjectType<N> {
    /// Returns an input object with this name and nothing else, at position 0:0.
    pub fn new(alloc: Global, name: N::Value) -> InputObjectType<N>
        ensures { input_view N.bytes result ≡ type_definition None (bare (N.bytes name) (input [])) }
    {
        named!(alloc => InputObjectType { description: None, name } [fields])
    }
}

impl<N: Names> ScalarTypeExtension<N> {
    /// Returns an extension of a scalar type with this name and nothing else, at position 0:0. It is not printable.
    pub fn new(alloc: Global, name: N::Value) -> ScalarTypeExtension<N>
        ensures { scalar_extension_view N.bytes result ≡ extension (bare (N.bytes name) scalar) }
    {
        named!(alloc => ScalarTypeExtension { name } [])
    }
}

impl<N: Names> ObjectTypeExtension<N> {
    /// Returns an extension of an object type with this name and nothing else, at position 0:0. It is not printable.
    pub fn new(alloc: Global, name: N::Value) -> ObjectTypeExtension<N>
        ensures { object_extension_view N.bytes result ≡ extension (bare (N.bytes name) (object [] [])) }
    {
        named!(alloc => ObjectTypeExtension { name } [implements_interfaces, fields])
    }
}

impl<N: Names> InterfaceTypeExtension<N> {
    /// Returns an extension of an interface with this name and nothing else, at position 0:0. It is not printable.
    pub fn new(alloc: Global, name: N::Value) -> InterfaceTypeExtension<N>
        ensures { interface_extension_view N.bytes result ≡ extension (bare (N.bytes name) (interface [] [])) }
    {
        named!(alloc => InterfaceTypeExtension { name } [implements_interfaces, fields])
    }
}

impl<N: Names> UnionTypeExtension<N> {
    /// Returns an extension of a union with this name and nothing else, at position 0:0. It is not printable.
    pub fn new(alloc: Global, name: N::Value) -> UnionTypeExtension<N>
        ensures { union_extension_view N.bytes result ≡ extension (bare (N.bytes name) (union [])) }
    {
        named!(alloc => UnionTypeExtension { name } [types])
    }
}

impl<N: Names> EnumTypeExtension<N> {
    /// Returns an extension of an enum with this name and nothing else, at position 0:0. It is not printable.
    pub fn new(alloc: Global, name: N::Value) -> EnumTypeExtension<N>
        ensures { enum_extension_view N.bytes result ≡ extension (bare (N.bytes name) (enum [])) }
    {
        named!(alloc => EnumTypeExtension { name } [values])
    }
}

impl<N: Names> InputObjectTypeExtension<N> {
    /// Returns an extension of an input object with this name and nothing else, at position 0:0. It is not printable.
    pub fn new(alloc: Global, name: N::Value) -> InputObjectTypeExtension<N>
        ensures { input_extension_view N.bytes result ≡ extension (bare (N.bytes name) (input [])) }
    {
        named!(alloc => InputObjectTypeExtension { name } [fields])
    }
}

impl<N: Names> EnumValue<N> {
    /// Returns a value of an enum with this name and nothing else, at position 0:0.
    pub fn new(alloc: Global, name: N::Value) -> EnumValue<N>
        ensures { enum_value_view N.bytes result ≡ bare_enum_value (N.bytes name) }
    {
        named!(alloc => EnumValue { description: None, name } [])
    }
}

impl<N: Names> DirectiveDefinition<N> {
    /// Returns a directive with this name and nothing else, at position 0:0. Without a location it is not printable.
    pub fn new(alloc: Global, name: N::Value) -> DirectiveDefinition<N>
        ensures { directive_definition_view N.bytes result ≡ bare_directive (N.bytes name) }
    {
        DirectiveDefinition {
            position: Pos::default(),
            description: None,
            name,
            arguments: Vec::new(alloc),
            repeatable: false,
            locations: Vec::new(alloc),
        }
    }
}

impl<N: Names> SchemaDefinition<N> {
    /// Returns a schema without operations, at position 0:0.
    pub fn empty(alloc: Global) -> SchemaDefinition<N>
        ensures { schema_definition_view N.bytes result ≡ schema None empty_schema }
    {
        SchemaDefinition {
            position: Pos::default(),
            description: None,
            directives: Vec::new(alloc),
            query: None,
            mutation: None,
            subscription: None,
        }
    }
}

impl<N: Names> SchemaExtension<N> {
    /// Returns an extension of the schema that adds nothing, at position 0:0. It is not printable.
    pub fn empty(alloc: Global) -> SchemaExtension<N>
        ensures { schema_extension_view N.bytes result ≡ empty_schema }
    {
        SchemaExtension {
            position: Pos::default(),
            directives: Vec::new(alloc),
            query: None,
            mutation: None,
            subscription: None,
        }
    }
}

impl<N: Names> Document<N> {
    /// Returns a document without definitions. It is not printable.
    pub fn empty(alloc: Global) -> Document<N>
        ensures { document_view N.bytes result ≡ [] }
    {
        Document {
            definitions: Vec::new(alloc),
        }
    }
}
