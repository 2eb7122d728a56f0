//! `standard_cases`: checks documents, and writes a line for each.
//!
//! Standard input has documents, with a form feed between two. The line of a document of the GraphQL specification of
//! September 2025 is `ok`. Any other line has the byte offset of the first error: `syntax OFFSET`, `lexical OFFSET`, or
//! `deep OFFSET` if more than 1000 brackets are open. `tools/check_standard` compares the lines with graphql-js.
#![tactic(auto)]

use graphql_standard::{CheckError, Found, check};
use std::alloc::{AllocError, Global};
use std::io;
use std::process::ExitCode;

/// How many brackets can be open.
const LIMIT: usize = 1000;

/// The line of a document.
fn line(alloc: Global, source: &str) -> Result<String, AllocError> {
    match check(alloc, source, LIMIT) {
        Ok(()) => String::from_str(alloc, "ok"),
        Err(CheckError::Syntax(error)) => match error.found {
            Found::LexicalError => format!(in alloc; "lexical {}", error.place.offset),
            _ => format!(in alloc; "syntax {}", error.place.offset),
        },
        Err(CheckError::TooDeep(place)) => format!(in alloc; "deep {}", place.offset),
        Err(CheckError::TooLong) => String::from_str(alloc, "long"),
        Err(CheckError::OutOfMemory) => String::from_str(alloc, "out of memory"),
    }
}

fn main(rt: HostRuntime) -> ExitCode {
    let Ok(text) = io::read_to_string(rt.alloc(), rt.reader()) else {
        let _ = eprintln!(rt; "standard_cases: the documents cannot be read");
        return ExitCode::from(2);
    };
    for source in text.as_str().split('\u{c}') {
        let Ok(line) = line(rt.alloc(), source) else {
            let _ = eprintln!(rt; "standard_cases: out of memory");
            return ExitCode::from(1);
        };
        let _ = println!(rt; "{line}");
    }
    ExitCode::SUCCESS
}
