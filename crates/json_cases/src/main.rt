//! `json_cases`: writes documents as JSON, a line for each.
//!
//! Standard input has documents, with a form feed between two. Each begins with a line `query` or `schema`. The line of
//! a document that is rejected is `rejected`. `tools/check_json` compares the lines with what graphql-core parses.
#![tactic(auto)]

use graphql_json::{query_to_json, schema_to_json};
use graphql_parser::{parse_query, parse_schema, query, schema};
use std::alloc::{AllocError, Global};
use std::io;
use std::process::ExitCode;

/// The query document with this source as JSON.
fn query_line(alloc: Global, source: &str) -> Result<String, AllocError> {
    let parsed: Result<query::Document<'_, &str>, query::ParseError> = parse_query(alloc, source);
    match parsed {
        Ok(document) => query_to_json(alloc, &document),
        Err(_) => String::from_str(alloc, "rejected"),
    }
}

/// The schema document with this source as JSON.
fn schema_line(alloc: Global, source: &str) -> Result<String, AllocError> {
    let parsed: Result<schema::Document<'_, &str>, schema::ParseError> = parse_schema(
        alloc, source,
    );
    match parsed {
        Ok(document) => schema_to_json(alloc, &document),
        Err(_) => String::from_str(alloc, "rejected"),
    }
}

/// The document of a case as JSON.
fn line(alloc: Global, case: &str) -> Result<String, AllocError> {
    match case.split_once('\n') {
        Some(("query", source)) => query_line(alloc, source),
        Some(("schema", source)) => schema_line(alloc, source),
        _ => String::from_str(alloc, "no language"),
    }
}

fn main(rt: HostRuntime) -> ExitCode {
    let Ok(text) = io::read_to_string(rt.alloc(), rt.reader()) else {
        let _ = eprintln!(rt; "json_cases: the documents cannot be read");
        return ExitCode::from(2);
    };
    for case in text.as_str().split('\u{c}') {
        let Ok(line) = line(rt.alloc(), case) else {
            let _ = eprintln!(rt; "json_cases: out of memory");
            return ExitCode::from(1);
        };
        let _ = println!(rt; "{line}");
    }
    ExitCode::SUCCESS
}
