//! Inputs that are formatted or minified, and inputs that are rejected.
use crate::tests::devices::{Sink, Source};
use crate::tests::{assert_ended, run_over};
use std::test::Fail;

/// Arguments, input, output, message and status.
const RUNS: [(&str, &str, &str, &str, u8); 25] = [
    ("query", "{ a } { b }", "{\n  a\n}\n\n{\n  b\n}\n", "", 0),
    (
        "query,--indent,3,--multiline",
        "{ a(b: 1) { c } }",
        "{\n   a(\n      b: 1\n   ) {\n      c\n   }\n}\n",
        "",
        0,
    ),
    (
        "minify",
        "query Q { a ... on B { c } } # d\n",
        "query Q{a...on B{c}}",
        "",
        0,
    ),
    (
        "query",
        "query ($a: Int = 1 @d(x: 2), $b: T! @e) { c }",
        "query($a: Int = 1 @d(x: 2), $b: T! @e) {\n  c\n}\n",
        "",
        0,
    ),
    (
        "minify",
        "query ($a: Int = 1 @d(x: 2), $b: T! @e) { c }",
        "query($a:Int=1@d(x:2)$b:T!@e){c}",
        "",
        0,
    ),
    (
        "query",
        "{ }",
        "",
        "query parse error: Parse error at 1:3\nUnexpected `}[Punctuator]`\n",
        1,
    ),
    (
        "query",
        "{ a;}",
        "",
        "query parse error: Parse error at 1:4\nUnexpected unexpected character ';'\n",
        1,
    ),
    (
        "query,--indent,2147483648",
        "{ a { b } }",
        "",
        "format error: indentation too wide",
        1,
    ),
    (
        "schema,--indent,4",
        "\"\"\"d\"\"\" enum E { \"v\" A @x B }",
        "\"d\"\nenum E {\n    \"v\" A @x\n    B\n}\n",
        "",
        0,
    ),
    (
        "schema",
        "extend schema @a { mutation: M }",
        "extend schema @a {\n  mutation: M\n}\n",
        "",
        0,
    ),
    ("schema", "extend schema @a", "extend schema @a\n", "", 0),
    (
        "schema",
        "\"d\" schema { query: Q }",
        "\"d\"\nschema {\n  query: Q\n}\n",
        "",
        0,
    ),
    (
        "schema",
        "schema { foo: A } scalar A !",
        "",
        "schema parse error: Parse error at 1:1\nUnexpected `foo[Name]`\n",
        1,
    ),
    (
        "minify",
        "query Q { a ... on B { c } } # d\n1...",
        "",
        "query minify error: Unexpected unsupported float \"1...\"",
        1,
    ),
    (
        "first",
        "where a > 1 => 10.0",
        "",
        "query parse error: Parse error at 1:1\nUnexpected `where[Name]`\n",
        1,
    ),
    (
        "first",
        "{ a",
        "",
        "query parse error: Parse error at 1:4\nUnexpected end of input\n",
        1,
    ),
    (
        "first",
        "{ a;}",
        "",
        "query parse error: Parse error at 1:4\nUnexpected unexpected character ';'\n",
        1,
    ),
    (
        "first,--indent,2147483648",
        "{ a { b } } rest",
        "",
        "format error: indentation too wide",
        1,
    ),
    (
        "first",
        "query { a } where a > 1 => 10.0\n",
        "query {\n  a\n}\nwhere a > 1 => 10.0\n",
        "",
        0,
    ),
    ("first", "{ a }  # x\n", "{\n  a\n}\n", "", 0),
    // a comment between two definitions is in neither part of the output
    ("first", "{ a } # c\n{ b }", "{\n  a\n}\n{ b }", "", 0),
    ("first", "{ a } ;x", "{\n  a\n}\n;x", "", 0),
    (
        "first",
        "query { a } \"unterminated",
        "query {\n  a\n}\n\"unterminated",
        "",
        0,
    ),
    (
        "first,--indent,4",
        "{ a }{ b }",
        "{\n    a\n}\n{ b }",
        "",
        0,
    ),
    (
        "first,--multiline",
        "{ a(b: 1) } }",
        "{\n  a(\n    b: 1\n  )\n}\n}",
        "",
        0,
    ),
];

#[test]
fn inputs_have_outputs(rt: HostRuntime) -> Result<(), Fail> {
    let alloc = rt.alloc();
    for (words, text, written, message, code) in RUNS {
        let source = Source::of(text.as_bytes());
        let ran = run_over(alloc, words, source, Sink::new(alloc))?;
        assert_eq!(rt; (ran.read_faults, ran.write_faults), (0, 0));
        assert_ended(&rt, alloc, &ran, written.as_bytes(), message, code)?;
    }
    Ok(())
}
