//! The calls that allocate, and the right results.
use crate::documents::{ParseFailure, Texts, use_texts};
use crate::parts::use_parts;
use crate::schemas::{USERS, use_schemas};
use crate::tally::Tally;
use graphql_parser::common::Text;
use graphql_parser::query::{Document, consume_definition, minify_query};
use std::alloc::{AllocError, Global};
use std::borrow::CowStr;

/// Inputs, and their documents formatted in the default style.
pub const DOCUMENTS: [(&str, &str); 4] = [
    ("{ a { b } }", "{\n  a {\n    b\n  }\n}\n"),
    (
        "{ a } mutation M { b } subscription S { c } fragment F on T { d }",
        "{\n  a\n}\n\nmutation M {\n  b\n}\n\nsubscription S {\n  c\n}\n\nfragment F on T {\n  d\n}\n",
    ),
    (
        "query Q($a: [Int!]! = [1, 2]) @d(x: $a) { b: c ... on T @e { f } ...G }",
        "query Q($a: [Int!]! = [1, 2]) @d(x: $a) {\n  b: c\n  ... on T @e {\n    f\n  }\n  ...G\n}\n",
    ),
    (
        "{ a(o: {b: 1e+2, a: \"x\\u00e9\", b: [E, null, true], c: \"\"\"x\"\"\", d: $v}) }",
        "{\n  a(o: {a: \"xé\", b: [E, null, true], c: \"x\", d: $v})\n}\n",
    ),
];

/// Inputs that are no query documents, and the columns of their errors.
const REJECTED: [(&str, usize); 7] = [
    ("{ }", 3),
    ("{ a", 4),
    ("{ a;}", 4),
    ("{ a { b } } b", 13),
    ("{ a(x: [1, \"\\q\"]) }", 12),
    ("{ a(x: 1e+) }", 8),
    ("{ a(x: 9223372036854775808) }", 8),
];

/// Inputs, and their minified forms.
const MINIFIED: [(&str, &str); 4] = [
    ("", ""),
    ("a-1 ... \"b\"\"c\"", "a -1 ...\"b\" \"c\""),
    (
        "query Q($a: [Int!]! = [1, 2]) @d(x: $a) { b: c ... on T @e { f } ...G }",
        "query Q($a:[Int!]!=[1 2])@d(x:$a){b:c...on T@e{f}...G}",
    ),
    (
        USERS,
        "schema{query:Query}type Query{users:[User!]!}\"\"\"\n       Example user object\n\n       \
         This is just a demo comment.\n    \"\"\" type User{name:String!}",
    ),
];

/// Minifies inputs.
fn minify(alloc: Global, tally: &mut Tally) {
    for (text, minified) in MINIFIED {
        let Ok(source) = String::from_str(alloc, text) else {
            tally.add(false, true);
            continue;
        };
        let returned = minify_query(alloc, source);
        let out_of_memory =
            matches!(&returned, Err(error) if ParseFailure::of_minifying(error).ran_out);
        tally.add_text(&returned, minified, out_of_memory);
    }
}

/// Minifies an input with a lexical error.
fn reject_minifying(alloc: Global, tally: &mut Tally) {
    match String::from_str(alloc, "{ a ; }") {
        Ok(source) => match minify_query(alloc, source) {
            Ok(_) => tally.add(false, false),
            Err(error) => ParseFailure::of_minifying(&error).count(tally, 5),
        },
        Err(AllocError) => tally.add(false, true),
    }
}

/// Inputs that begin with a definition, the definition formatted in the default style, and the rest of the input.
const FIRST: [(&str, &str, &str); 2] = [
    (
        "query Q($a: [Int] = [1]) @d(x: $a) { b: c(e: \"f\") ...G } # and\n{ c",
        "query Q($a: [Int] = [1]) @d(x: $a) {\n  b: c(e: \"f\")\n  ...G\n}\n",
        "{ c",
    ),
    (
        "query Q($a: [Int!]! = [1, 2]) @d(x: $a) { b: c ... on T @e { f } ...G }",
        "query Q($a: [Int!]! = [1, 2]) @d(x: $a) {\n  b: c\n  ... on T @e {\n    f\n  }\n  ...G\n}\n",
        "",
    ),
];

/// Consumes the first definition of inputs, with names of a text type.
fn take_definitions<'a, T: Text<'a>>(alloc: Global, tally: &mut Tally) {
    for (text, formatted, left) in FIRST {
        match consume_definition::<T>(alloc, text) {
            Ok(first) => {
                let (definition, rest) = first;
                tally.add_text(&definition.to_string(alloc), formatted, true);
                tally.check(rest == left);
            }
            Err(error) => tally.add(false, ParseFailure::of_query(&error).ran_out),
        }
    }
}

/// Uses inputs as query documents, with names of a text type.
fn use_as_queries<'a, T: Text<'a>>(alloc: Global, tally: &mut Tally, texts: &Texts<'a, '_>) {
    use_texts::<Document<'a, T>>(alloc, tally, texts);
}

/// Uses inputs as query documents, with names of each text type.
fn use_queries(alloc: Global, tally: &mut Tally) {
    let (read, all) = (Texts::read(&DOCUMENTS), Texts::all(&DOCUMENTS, &REJECTED));
    use_as_queries::<&str>(alloc, tally, &all);
    use_as_queries::<String>(alloc, tally, &read);
    use_as_queries::<CowStr<'_>>(alloc, tally, &read);
}

/// Makes every call that allocates.
pub fn make_calls(alloc: Global) -> Tally {
    let mut tally = Tally::default();
    use_queries(alloc, &mut tally);
    minify(alloc, &mut tally);
    reject_minifying(alloc, &mut tally);
    take_definitions::<&str>(alloc, &mut tally);
    take_definitions::<String>(alloc, &mut tally);
    use_parts(alloc, &mut tally);
    use_schemas(alloc, &mut tally);
    tally
}
