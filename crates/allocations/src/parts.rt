//! Parts of trees, values and documents that are made static, and the values of strings.
use crate::calls::DOCUMENTS;
use crate::documents::ParseFailure;
use crate::schemas::USERS;
use crate::tally::Tally;
use graphql_parser::common::{FloatLiteral, UnquoteError, unquote_block_string, unquote_string};
use graphql_parser::query::{Definition, Document, OperationDefinition, Query, Value, parse_query};
use graphql_parser::schema::{self, parse_schema};
use std::alloc::{AllocError, Global};
use std::collections::BTreeMap;

/// The bodies of strings, and their values.
const QUOTED: [(&str, &str); 3] = [("", ""), ("\\/\\b", "/\u{8}"), ("a\\u00e9\\u00E9", "aéé")];

/// Finds the values of strings.
fn unquote(alloc: Global, tally: &mut Tally) {
    for (body, value) in QUOTED {
        let Ok(text) = format!(in alloc; "\"{body}\"") else {
            tally.add(false, true);
            continue;
        };
        let returned = unquote_string(alloc, text.as_str());
        let out_of_memory = matches!(returned, Err(UnquoteError::OutOfMemory));
        tally.add_text(&returned, value, out_of_memory);
    }
}

/// The contents of block strings, and their values.
const BLOCKS: [(&str, &str); 3] = [
    (
        "   \n\n  Hello,\n    World!\n\n  Yours,\n    GraphQL.\n\n\n",
        "Hello,\n  World!\n\nYours,\n  GraphQL.",
    ),
    (
        "Hello   \n\n  Hello,\n    World!\n",
        "Hello   \n\nHello,\n  World!",
    ),
    ("   \n\t\n", ""),
];

/// Finds the values of block strings.
fn unquote_blocks(alloc: Global, tally: &mut Tally) {
    for (content, value) in BLOCKS {
        let Ok(text) = format!(in alloc; "\"\"\"{content}\"\"\"") else {
            tally.add(false, true);
            continue;
        };
        tally.add_text(&unquote_block_string(alloc, text.as_str()), value, true);
    }
}

/// A list of an object with an enum value, and of a variable.
fn nested<'a>(alloc: Global) -> Result<Value<'a, &'a str>, AllocError> {
    let mut fields: BTreeMap<&'a str, Value<'a, &'a str>> = BTreeMap::new(alloc);
    drop(fields.insert("a", Value::Enum("E"))?);
    let mut items: Vec<Value<'a, &'a str>> = Vec::new(alloc);
    items.push(Value::Object(fields))?;
    items.push(Value::Variable("v"))?;
    Ok(Value::List(items))
}

/// Makes a value static, and checks that the value is unchanged.
fn make_static(alloc: Global, tally: &mut Tally, value: &Value<'_, &str>, text: &str) {
    let Ok(copy) = value.clone() else {
        tally.add(false, true);
        return;
    };
    match value.into_static(alloc) {
        Ok(made) => tally.add_text(&made.to_string(alloc), text, true),
        Err(AllocError) => tally.add(false, true),
    }
    tally.check(*value == copy);
}

/// Clones the parts of a query with a variable and a directive.
fn clone_parts(alloc: Global, tally: &mut Tally, query: &Query<'_, &str>) {
    for variable in query.variable_definitions.iter() {
        tally.add_copy(&variable.var_type);
        if let Some(value) = &variable.default_value {
            tally.add_copy(value);
            make_static(alloc, tally, value, "[1, 2]");
        }
    }
    for directive in query.directives.iter() {
        tally.add_copy(directive);
    }
}

/// The first query of a document that begins with one.
fn first_query<'a, 'd>(document: &'d Document<'a, &'a str>) -> Option<&'d Query<'a, &'a str>> {
    match document.definitions.first()? {
        Definition::Operation(OperationDefinition::Query(query)) => Some(query),
        _ => None,
    }
}

/// Clones parts of documents: a type, a value and a directive.
fn use_parts_of_documents(alloc: Global, tally: &mut Tally) {
    for (text, _) in DOCUMENTS {
        match parse_query::<&str>(alloc, text) {
            Ok(document) => {
                if let Some(query) = first_query(&document) {
                    clone_parts(alloc, tally, query);
                }
            }
            Err(error) => tally.add(false, ParseFailure::of_query(&error).ran_out),
        }
    }
}

/// Clones a float literal and a nested value, and makes the value static.
fn use_values(alloc: Global, tally: &mut Tally) {
    match String::from_str(alloc, "-1.5E3") {
        Ok(text) => match FloatLiteral::new(text) {
            Ok(literal) => tally.add_copy(&literal),
            Err(_) => tally.check(false),
        },
        Err(AllocError) => tally.add(false, true),
    }
    match nested(alloc) {
        Ok(value) => {
            tally.add_copy(&value);
            make_static(alloc, tally, &value, "[{a: E}, $v]");
        }
        Err(AllocError) => tally.add(false, true),
    }
}

/// Makes a schema static, and checks that it is unchanged.
fn make_schema_static(alloc: Global, tally: &mut Tally, document: schema::Document<'_, String>) {
    let copy: Result<_, _> = document.clone();
    match (copy, document.into_static(alloc)) {
        (Ok(copy), Ok(made)) => tally.check(made == copy),
        (Err(AllocError), _) => tally.add(false, true),
        (_, Err(AllocError)) => tally.check(false),
    }
}

/// Makes queries and a schema static, and checks that each is unchanged.
fn make_documents_static(alloc: Global, tally: &mut Tally) {
    for (text, layout) in DOCUMENTS {
        match parse_query::<String>(alloc, text) {
            Ok(document) => match document.into_static(alloc) {
                Ok(made) => tally.add_text(&made.to_string(alloc), layout, true),
                Err(AllocError) => tally.check(false),
            },
            Err(error) => tally.add(false, ParseFailure::of_query(&error).ran_out),
        }
    }
    match parse_schema::<String>(alloc, USERS) {
        Ok(document) => make_schema_static(alloc, tally, document),
        Err(error) => tally.add(false, ParseFailure::of_schema(&error).ran_out),
    }
}

/// Makes every call that allocates for parts of trees.
pub fn use_parts(alloc: Global, tally: &mut Tally) {
    unquote(alloc, tally);
    unquote_blocks(alloc, tally);
    use_values(alloc, tally);
    use_parts_of_documents(alloc, tally);
    make_documents_static(alloc, tally);
}
