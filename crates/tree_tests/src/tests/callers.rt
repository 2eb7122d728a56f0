//! The callers of `graphql_fmt` and `graphql_json` that docs/CALLING.md shows. Here, since a crate with tests is proved
//! twice.
use graphql_fmt::{CheckError, FormatOptions, format_comments, format_source, message};
use graphql_json::query_to_json;
use graphql_parser::query::{Document, parse_query};
use std::alloc::{AllocError, Global};
use std::test::Fail;

/// A document, formatted with four spaces for each level. Its comments are kept.
fn with_four_spaces(alloc: Global, source: &str) -> Result<String, CheckError> {
    let options = FormatOptions {
        indent: 4,
        ..FormatOptions::DEFAULT
    };
    format_source(alloc, source, &options)
}

/// Source text, formatted. It can be a document, or have comments only.
fn formatted(alloc: Global, source: &str, options: &FormatOptions) -> Result<String, CheckError> {
    match format_comments(alloc, source, options)? {
        Some(output) => Ok(output),
        None => format_source(alloc, source, options),
    }
}

/// What is wrong with source text that is rejected. Empty if it is formatted.
fn described(alloc: Global, source: &str) -> Result<String, AllocError> {
    match format_source(alloc, source, &FormatOptions::DEFAULT) {
        Ok(_) => Ok(String::new(alloc)),
        Err(error) => {
            let message = message(alloc, source, &error)?;
            match error.place() {
                Some(place) => format!(in alloc; "{place}: {message}"),
                None => Ok(message),
            }
        }
    }
}

/// The document of a query as JSON; `None` if the query is rejected, or if an allocation fails.
fn query_as_json(alloc: Global, source: &str) -> Option<String> {
    let document: Document<'_, &str> = parse_query(alloc, source).ok()?;
    query_to_json(alloc, &document).ok()
}

#[test]
fn comments_are_kept(rt: HostRuntime) -> Result<(), Fail> {
    let output = with_four_spaces(rt.alloc(), "{ hero # the first\n name }")?;
    assert_eq!(rt; output.as_str(), "{\n    hero # the first\n    name\n}\n");
    Ok(())
}

#[test]
fn a_syntax_error_is_described(rt: HostRuntime) -> Result<(), Fail> {
    let rejected = described(rt.alloc(), "type Query { hero: }")?;
    assert_eq!(rt; rejected.as_str(), "1:20: expected a type, found `}`");
    Ok(())
}

#[test]
fn comments_need_no_document(rt: HostRuntime) -> Result<(), Fail> {
    let options = FormatOptions::default();
    let comments = formatted(rt.alloc(), "  # to do ", &options)?;
    assert_eq!(rt; comments.as_str(), "# to do\n");
    let document = formatted(rt.alloc(), "scalar Date # a day", &options)?;
    assert_eq!(rt; document.as_str(), "scalar Date # a day\n");
    Ok(())
}

#[test]
fn a_query_has_definitions(rt: HostRuntime) {
    let json = query_as_json(rt.alloc(), "{ hero }").unwrap_or(String::new(rt.alloc()));
    assert!(rt;
        json.as_str()
            .starts_with("{\"kind\":\"Document\",\"definitions\":[{")
    );
}

#[test]
fn a_schema_is_rejected(rt: HostRuntime) {
    assert!(rt; query_as_json(rt.alloc(), "scalar Date").is_none());
}
