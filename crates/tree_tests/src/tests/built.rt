//! Query trees that are built by hand, which no input has, and what is shown of them.
use crate::tests::page::Page;
use graphql_parser::common::Number;
use graphql_parser::query::{
    Definition, Directive, Document, Field, FragmentSpread, OperationDefinition, Query, Selection,
    SelectionSet, Type, Value, VariableDefinition,
};
use graphql_parser::{Pos, Style};
use std::alloc::{AllocError, Global};
use std::collections::BTreeMap;
use std::test::Fail;

/// An object, whose field `b` is inserted twice.
fn object<'a>(alloc: Global) -> Result<Value<'a, &'a str>, AllocError> {
    let mut fields = BTreeMap::new(alloc);
    drop(fields.insert("b", Value::Null)?);
    drop(fields.insert("a", Value::Int(Number::from(-3)))?);
    drop(fields.insert("b", Value::Boolean(true))?);
    Ok(Value::Object(fields))
}

/// A set of these selections.
fn set<'a>(items: Vec<Selection<'a, &'a str>>) -> SelectionSet<'a, &'a str> {
    SelectionSet {
        span: (Pos::default(), Pos::default()),
        items,
    }
}

/// The field `a b` with nothing else.
fn field<'a>(alloc: Global) -> Field<'a, &'a str> {
    Field {
        position: Pos::default(),
        alias: None,
        name: "a b",
        arguments: Vec::new(alloc),
        directives: Vec::new(alloc),
        selection_set: set(Vec::new(alloc)),
    }
}

/// The spread `...on`.
fn spread<'a>(alloc: Global) -> FragmentSpread<'a, &'a str> {
    FragmentSpread {
        position: Pos::default(),
        fragment_name: "on",
        directives: Vec::new(alloc),
    }
}

/// The type `A!!`.
fn twice_required<'a>(alloc: Global) -> Result<Type<'a, &'a str>, AllocError> {
    let once = Type::NonNullType(Box::new(alloc, Type::NamedType("A"))?);
    Ok(Type::NonNullType(Box::new(alloc, once)?))
}

/// A query with the variable `$v: A!!` and no selections.
fn query<'a>(alloc: Global) -> Result<Query<'a, &'a str>, AllocError> {
    let variable = VariableDefinition {
        position: Pos::default(),
        name: "v",
        var_type: twice_required(alloc)?,
        default_value: None,
        directives: Vec::new(alloc),
    };
    Ok(Query {
        position: Pos::default(),
        name: None,
        variable_definitions: vec![in alloc; variable]?,
        directives: Vec::new(alloc),
        selection_set: set(Vec::new(alloc)),
    })
}

/// A document of a field `a b` and a spread `...on`, and then a query with no selections.
fn document<'a>(alloc: Global) -> Result<Document<'a, &'a str>, AllocError> {
    let items = vec![in alloc;
        Selection::Field(field(alloc)),
        Selection::FragmentSpread(spread(alloc)),
    ]?;
    let short = OperationDefinition::SelectionSet(set(items));
    let long = OperationDefinition::Query(query(alloc)?);
    let definitions = vec![in alloc; Definition::Operation(short), Definition::Operation(long)]?;
    Ok(Document { definitions })
}

#[test]
fn parts_that_no_input_has(rt: HostRuntime) -> Result<(), Fail> {
    let alloc = rt.alloc();
    let empty: Document<'_, &str> = Document {
        definitions: Vec::new(alloc),
    };
    let mut page = Page::new(alloc);
    page.show(&object(alloc)?);
    page.show(&twice_required(alloc)?);
    page.show(&set(Vec::new(alloc)));
    page.show(&spread(alloc));
    page.show(&field(alloc));
    page.show(&empty);
    assert_eq!(rt;
        page.text(),
        "{a: -3, b: true}\nA!!\n{\n}\n\n...on\n\na b\n\n\n"
    );
    Ok(())
}

#[test]
fn documents_that_no_input_has(rt: HostRuntime) -> Result<(), Fail> {
    let document = document(rt.alloc())?;
    let mut page = Page::new(rt.alloc());
    page.show(&document);
    page.add(document.format(rt.alloc(), &Style::default()));
    assert_eq!(rt;
        page.text(),
        "{
  a b
  ...on
}

query($v: A!!) {
}

{
  a b
  ...on
}

query($v: A!!) {
}

"
    );
    Ok(())
}

/// A document of a selection set with no selections.
fn short<'a>(alloc: Global) -> Result<Document<'a, &'a str>, AllocError> {
    let short = OperationDefinition::SelectionSet(set(Vec::new(alloc)));
    Ok(Document {
        definitions: vec![in alloc; Definition::Operation(short)]?,
    })
}

/// No level is too wide, and one never is.
#[test]
fn documents_without_selections(rt: HostRuntime) -> Result<(), Fail> {
    let mut page = Page::new(rt.alloc());
    let empty: Document<'_, &str> = Document {
        definitions: Vec::new(rt.alloc()),
    };
    let mut style = Style::default();
    page.add(empty.format(rt.alloc(), &style));
    style.indent(u32::MAX);
    let short = short(rt.alloc())?;
    page.show(&short);
    page.add(short.format(rt.alloc(), &style));
    assert_eq!(rt; page.text(), "\n{\n}\n\n{\n}\n\n");
    Ok(())
}

/// A string with a control character, written with options.
fn string_with_options(alloc: Global) -> Result<String, AllocError> {
    let text: Value<'_, &str> = Value::String(String::from_str(alloc, "a\u{1}b")?);
    format!(in alloc; "[{text:>20}] [{text:.2}]")
}

/// The directive `@a(b: 1)`.
fn directive<'a>(alloc: Global) -> Result<Directive<'a, &'a str>, AllocError> {
    Ok(Directive {
        position: Pos::default(),
        name: "a",
        arguments: vec![in alloc; ("b", Value::Int(Number::from(1)))]?,
    })
}

#[test]
fn options_change_nothing(rt: HostRuntime) -> Result<(), Fail> {
    let alloc = rt.alloc();
    let value: Value<'_, &str> = Value::Int(Number::from(-3));
    let directive = directive(alloc)?;
    let mut page = Page::new(alloc);
    page.add(format!(in alloc; "[{value:>9}] [{value:<9}] [{value:+}] [{value:#}]"));
    page.add(string_with_options(alloc));
    page.add(format!(in alloc; "[{directive:>20}]"));
    assert_eq!(rt;
        page.text(),
        "[-3] [-3] [-3] [-3]\n[\"a\\u0001b\"] [\"a\\u0001b\"]\n[@a(b: 1)]\n"
    );
    Ok(())
}
