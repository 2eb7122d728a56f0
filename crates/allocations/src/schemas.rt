//! Schema documents.
use crate::documents::{Texts, use_texts};
use crate::tally::Tally;
use graphql_parser::common::Text;
use graphql_parser::schema::Document;
use std::alloc::Global;

/// A schema as a user writes it.
pub const USERS: &str = "    schema {\n        query: Query\n    }\n    \
     type Query {\n        users: [User!]!,\n    }\n    \
     \"\"\"\n       Example user object\n\n       This is just a demo comment.\n    \"\"\"\n    \
     type User {\n        name: String!,\n    }\n";

/// This schema, and an input that uses every production, with their layouts in the default style.
const SCHEMAS: [(&str, &str); 2] = [
    (
        USERS,
        "schema {\n  query: Query\n}\n\ntype Query {\n  users: [User!]!\n}\n\n\
         \"\"\"\n  Example user object\n\n  This is just a demo comment.\n\"\"\"\n\
         type User {\n  name: String!\n}\n",
    ),
    (
        "\"s\" schema @a(x: [$v, {k: 1.5}]) { query: Q mutation: M subscription: S } \"s\" scalar A @a \
         \"o\" type O implements & I & J @a { \"f\" f(\"x\" x: [Int!]! = [1, \"y\"] @a, y: B = null): O! @a } \
         \"i\" interface I implements J @a { g: I } \"u\" union U @a = | O | P \
         \"e\" enum E @a { \"v\" V @a, true } \"n\" input N @a { \"x\" x: B = {k: true} @a } \
         extend scalar A @a extend type O implements K @a { h: I } extend interface I @a { h: I } \
         extend union U @a = Q extend enum E @a { W } extend input N @a { y: B } \
         extend schema @a @b(x: [A]) { query: Q mutation: M subscription: S } extend schema @a \
         \"d\" directive @d(\"x\" x: B = ENUM @a) repeatable on | FIELD | OBJECT",
        "\"s\"\nschema @a(x: [$v, {k: 1.5}]) {\n  query: Q\n  mutation: M\n  subscription: S\n}\n\n\
         \"s\"\nscalar A @a\n\n\
         \"o\"\ntype O implements I & J @a {\n  \"f\"\n  \
         f(\"x\" x: [Int!]! = [1, \"y\"] @a, y: B = null): O! @a\n}\n\n\
         \"i\"\ninterface I implements J @a {\n  g: I\n}\n\n\"u\"\nunion U @a = O | P\n\n\
         \"e\"\nenum E @a {\n  \"v\" V @a\n  true\n}\n\n\
         \"n\"\ninput N @a {\n  \"x\" x: B = {k: true} @a\n}\n\n\
         extend scalar A @a\n\nextend type O implements K @a {\n  h: I\n}\n\n\
         extend interface I @a {\n  h: I\n}\n\nextend union U @a = Q\n\n\
         extend enum E @a {\n  W\n}\n\nextend input N @a {\n  y: B\n}\n\n\
         extend schema @a @b(x: [A]) {\n  query: Q\n  mutation: M\n  subscription: S\n}\n\n\
         extend schema @a\n\n\
         \"d\"\ndirective @d(\"x\" x: B = ENUM @a) repeatable on FIELD | OBJECT\n",
    ),
];

/// Inputs that are no schema documents, and the columns of their errors.
const REJECTED: [(&str, usize); 13] = [
    ("", 1),
    ("type A { }", 10),
    ("type A { b: C ;", 15),
    ("schema { foo: A }", 1),
    ("schema { query: A query: B foo: C }", 1),
    ("extend scalar A ;", 8),
    ("extend schema ;", 8),
    ("extend schema @a { query: A query: B }", 8),
    ("\"d\" schema { query: A foo: B }", 5),
    ("directive @a on FOO", 17),
    ("\"\\q\" scalar A", 1),
    ("input A { b: C = 9223372036854775808 }", 18),
    ("enum A { B @c(d: 1e+) }", 18),
];

/// Uses inputs as schema documents, with names of a text type.
fn use_as_schemas<'a, T: Text<'a>>(alloc: Global, tally: &mut Tally, texts: &Texts<'a, '_>) {
    use_texts::<Document<'a, T>>(alloc, tally, texts);
}

/// Makes every call that allocates for schemas.
pub fn use_schemas(alloc: Global, tally: &mut Tally) {
    let (read, all) = (Texts::read(&SCHEMAS), Texts::all(&SCHEMAS, &REJECTED));
    use_as_schemas::<&str>(alloc, tally, &all);
    use_as_schemas::<String>(alloc, tally, &read);
}
