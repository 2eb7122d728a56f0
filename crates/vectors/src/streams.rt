//! What is left of token streams.
use crate::languages::{Document, Language};
use crate::report::Report;
use graphql_parser::common::Text;
use graphql_parser::tokenizer::TokenStream;
use graphql_parser::{query, schema};
use std::alloc::Global;
use std::borrow::CowStr;

/// The stream of an input after its first tokens; `None` if it has fewer.
fn past<'a>(source: &'a str, tokens: u32) -> Option<TokenStream<'a>> {
    if source.len() > usize::MAX / 16 {
        return None;
    }
    let mut stream = TokenStream::new(source);
    for _ in 0..tokens {
        stream.next_token().ok()??;
    }
    Some(stream)
}

/// Reports the document that is left of a stream, or the depth of the stream if it is negative.
fn report_rest<'a, D: Document<'a>>(report: &mut Report, stream: &mut TokenStream<'a>) {
    match D::parse_rest(report.alloc, stream) {
        Some(Ok(document)) => {
            report.show_debug(&document);
            report.append("\n");
        }
        Some(Err(error)) => report.reject_at(&error),
        None => {
            report.reject(&stream.depth());
            report.append("\n");
        }
    }
}

/// The report on what is left of an input after its first tokens, and how often its stream tokenized. After a document
/// the stream must be at its end.
fn report_rest_as<'a, D: Document<'a>>(alloc: Global, source: &'a str, tokens: u32) -> Report {
    let mut report = Report::new(alloc);
    let Some(mut stream) = past(source, tokens) else {
        report.reject(&"fewer tokens");
        return report;
    };
    report_rest::<D>(&mut report, &mut stream);
    report.show(&stream.cuts());
    report.append(" cuts");
    if !report.is_error() && stream.next_token() != Ok(None) {
        report.find_wrong();
    }
    report
}

/// The same, with names of a text type.
fn report_rest_with<'a, T: Text<'a>>(
    alloc: Global,
    language: Language,
    source: &'a str,
    tokens: u32,
) -> Report {
    match language {
        Language::Query => report_rest_as::<query::Document<'a, T>>(alloc, source, tokens),
        Language::Schema => report_rest_as::<schema::Document<'a, T>>(alloc, source, tokens),
    }
}

/// The same, which must be the same with names of each text type.
pub fn report_of_rest(alloc: Global, language: Language, source: &str, tokens: u32) -> Report {
    let mut report = report_rest_with::<&str>(alloc, language, source, tokens);
    report.compare(&report_rest_with::<String>(alloc, language, source, tokens));
    report.compare(&report_rest_with::<CowStr>(alloc, language, source, tokens));
    report
}
