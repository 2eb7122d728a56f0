//! Schema trees that are built by hand, which no input has, and what is shown of them.
use crate::tests::page::Page;
use graphql_parser::Style;
use graphql_parser::schema::{
    Definition, DirectiveDefinition, Document, EnumType, EnumTypeExtension, EnumValue,
    InputObjectType, InputObjectTypeExtension, InterfaceType, InterfaceTypeExtension, ObjectType,
    ObjectTypeExtension, ScalarType, ScalarTypeExtension, SchemaDefinition, SchemaExtension,
    UnionType, UnionTypeExtension,
};
use std::alloc::{AllocError, Global};
use std::test::Fail;

#[test]
fn types_of_a_name_alone(rt: HostRuntime) {
    let alloc = rt.alloc();
    let mut page = Page::new(alloc);
    page.show(&ScalarType::<&str>::new(alloc, "A"));
    page.show(&ObjectType::<&str>::new(alloc, "A"));
    page.show(&InterfaceType::<&str>::new(alloc, "A"));
    page.show(&UnionType::<&str>::new(alloc, "A"));
    page.show(&EnumType::<&str>::new(alloc, "A"));
    page.show(&InputObjectType::<&str>::new(alloc, "A"));
    page.show(&DirectiveDefinition::<&str>::new(alloc, "a"));
    assert_eq!(rt;
        page.text(),
        "scalar A

type A

interface A

union A

enum A

input A

directive @a

"
    );
}

#[test]
fn extensions_of_a_name_alone(rt: HostRuntime) {
    let alloc = rt.alloc();
    let mut page = Page::new(alloc);
    page.show(&ScalarTypeExtension::<&str>::new(alloc, "A"));
    page.show(&ObjectTypeExtension::<&str>::new(alloc, "A"));
    page.show(&InterfaceTypeExtension::<&str>::new(alloc, "A"));
    page.show(&UnionTypeExtension::<&str>::new(alloc, "A"));
    page.show(&EnumTypeExtension::<&str>::new(alloc, "A"));
    page.show(&InputObjectTypeExtension::<&str>::new(alloc, "A"));
    assert_eq!(rt;
        page.text(),
        "extend scalar A

extend type A

extend interface A

extend union A

extend enum A

extend input A

"
    );
}

/// The enumeration `a b`, whose one value has no name.
fn nameless(alloc: Global) -> Result<EnumType<'static, &'static str>, AllocError> {
    let mut kind: EnumType<'static, &'static str> = EnumType::new(alloc, "a b");
    kind.values.push(EnumValue::new(alloc, ""))?;
    Ok(kind)
}

/// A document of one definition.
fn document_of<'a>(
    alloc: Global,
    definition: Definition<'a, &'a str>,
) -> Result<Document<'a, &'a str>, AllocError> {
    Ok(Document {
        definitions: vec![in alloc; definition]?,
    })
}

#[test]
fn parts_that_no_input_has(rt: HostRuntime) -> Result<(), Fail> {
    let empty: Document<'_, &str> = Document::empty(rt.alloc());
    let kind = nameless(rt.alloc())?;
    let mut page = Page::new(rt.alloc());
    page.show(&empty);
    page.add(empty.format(rt.alloc(), &Style::default()));
    page.show(&kind);
    assert_eq!(rt; page.text(), "\n\nenum a b {\n  \n}\n\n");
    Ok(())
}

/// One level is never too wide.
#[test]
fn a_schema_without_operations(rt: HostRuntime) -> Result<(), Fail> {
    let schema = Definition::SchemaDefinition(SchemaDefinition::empty(rt.alloc()));
    let document = document_of(rt.alloc(), schema)?;
    let mut style = Style::default();
    style.indent(u32::MAX);
    let mut page = Page::new(rt.alloc());
    page.show(&document);
    page.add(document.format(rt.alloc(), &style));
    assert_eq!(rt; page.text(), "schema {\n}\n\nschema {\n}\n\n");
    Ok(())
}

/// A described schema with the query operation `Q`.
fn described<'a>(alloc: Global) -> Result<SchemaDefinition<'a, &'a str>, AllocError> {
    let mut schema = SchemaDefinition::empty(alloc);
    schema.description = Some(String::from_str(alloc, "d")?);
    schema.query = Some("Q");
    Ok(schema)
}

#[test]
fn described_schemas(rt: HostRuntime) -> Result<(), Fail> {
    let schema = described(rt.alloc())?;
    let mut page = Page::new(rt.alloc());
    page.show(&schema);
    page.show(&document_of(rt.alloc(), Definition::SchemaDefinition(schema))?);
    assert_eq!(rt;
        page.text(),
        "\"d\"\nschema {\n  query: Q\n}\n\n\"d\"\nschema {\n  query: Q\n}\n\n"
    );
    Ok(())
}

/// An extension of the schema, which has nothing or an operation.
#[test]
fn extensions_of_the_schema(rt: HostRuntime) -> Result<(), Fail> {
    let mut extension: SchemaExtension<'_, &str> = SchemaExtension::empty(rt.alloc());
    let mut page = Page::new(rt.alloc());
    page.show(&extension);
    extension.mutation = Some("M");
    page.show(&extension);
    page.show(&document_of(rt.alloc(), Definition::SchemaExtension(extension))?);
    assert_eq!(rt;
        page.text(),
        "extend schema

extend schema {
  mutation: M
}

extend schema {
  mutation: M
}

"
    );
    Ok(())
}
