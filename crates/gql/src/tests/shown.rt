//! `Debug` of commands and errors, and the messages of errors.
use crate::command::Command;
use crate::error::RunError;
use graphql_parser::query::parse_query;
use graphql_parser::schema::parse_schema;
use graphql_parser::{FormatError, minify_query};
use std::test::Fail;

#[test]
fn commands_are_shown_and_compared(rt: HostRuntime) -> Result<(), Fail> {
    let commands = [
        (Command::Query, "Query"),
        (Command::Schema, "Schema"),
        (Command::Minify, "Minify"),
        (Command::First, "First"),
    ];
    for (command, shown) in commands {
        assert_eq!(rt; format!(in rt.alloc(); "{command:?}")?.as_str(), shown);
        for (other, name) in commands {
            assert_eq!(rt; command == other, shown == name, "{shown} and {name}");
        }
    }
    Ok(())
}

#[test]
fn errors_are_shown(rt: HostRuntime) -> Result<(), Fail> {
    let alloc = rt.alloc();
    let query = parse_query::<&str>(alloc, "").err().ok_or("parsed")?;
    let schema = parse_schema::<&str>(alloc, "\na").err().ok_or("parsed")?;
    let minified = minify_query(alloc, String::from_str(alloc, ";")?);
    let minify = minified.err().ok_or("minified")?;
    for (error, message, shown) in [
        (RunError::Read, "gql: read failed", "Read"),
        (RunError::NotUtf8, "gql: input is not UTF-8", "NotUtf8"),
        (
            RunError::Query(query),
            "query parse error: Parse error at 1:1\nUnexpected end of input\n",
            "Query(ParseError { fault: Fault { cause: UnexpectedEnd, position: Some(Pos(1:1)) } })",
        ),
        (
            RunError::Schema(schema),
            "schema parse error: Parse error at 2:1\nUnexpected `a[Name]`\n",
            "Schema(ParseError { fault: Fault { cause: UnexpectedToken { kind: Name, text: \"a\" }, position: Some(Pos(2:1)) } })",
        ),
        (
            RunError::Minify(minify),
            "query minify error: Unexpected unexpected character ';'",
            "Minify(MinifyError { fault: Fault { cause: BadToken(Character(';')), position: Some(Pos(1:1)) } })",
        ),
        (
            RunError::Format(FormatError::TooWide),
            "format error: indentation too wide",
            "Format(TooWide)",
        ),
        (RunError::Write, "gql: write failed", "Write"),
        (RunError::OutOfMemory, "gql: out of memory", "OutOfMemory"),
    ] {
        assert_eq!(rt; error.to_string(alloc)?.as_str(), message);
        assert_eq!(rt; format!(in alloc; "{error:?}")?.as_str(), shown);
    }
    Ok(())
}
