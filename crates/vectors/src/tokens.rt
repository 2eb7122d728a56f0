//! The tokens of inputs, and the values of tokens.
use crate::report::Report;
use graphql_parser::common::{FloatLiteral, unquote_block_string, unquote_string};
use graphql_parser::query::{
    Definition, Document, OperationDefinition, Selection, Value, parse_query,
};
use graphql_parser::tokenizer::{Bad, Token, TokenStream};
use graphql_parser::{Cause, minify_query};
use std::alloc::Global;

/// The report on a minified input.
fn report_of_minified(alloc: Global, source: &str) -> Report {
    let mut report = Report::new(alloc);
    let Ok(source) = String::from_str(alloc, source) else {
        report.cut_short();
        return report;
    };
    report.append_result(&minify_query(alloc, source));
    report
}

/// The same. Minifying must be idempotent.
pub fn report_of_minifying(alloc: Global, source: &str) -> Report {
    let mut report = report_of_minified(alloc, source);
    if !report.is_error() {
        let again = report_of_minified(alloc, report.text());
        report.compare(&again);
    }
    report
}

/// Reports the error of minifying an input.
pub fn report_minify_error(report: &mut Report, source: &str) {
    let Ok(source) = String::from_str(report.alloc, source) else {
        report.cut_short();
        return;
    };
    if let Err(error) = minify_query(report.alloc, source) {
        report.reject_as(&error);
    }
}

/// Reports the position and the offset of the next token, and how many brackets are open before it.
fn report_place(report: &mut Report, stream: &TokenStream<'_>) {
    report.show(&stream.position());
    report.append(" ");
    report.show(&stream.offset());
    report.append(" ");
    report.show(&stream.depth());
    report.append(" ");
}

/// Reports the last result of the stream: the end or the lexical error.
fn report_last_item(report: &mut Report, last: &Result<Option<Token<'_>>, Bad<'_>>) {
    match last {
        Ok(_) => report.append("end"),
        Err(bad) => report.show_debug(bad),
    }
}

/// Reports how often the stream tokenized, after the last result was requested twice.
fn report_cuts(report: &mut Report, stream: &TokenStream<'_>) {
    report.append(", ");
    report.show(&stream.cuts());
    report.append(" cuts");
}

/// Reports a line for each token and for the end: position, offset, brackets that are open before it, and token.
pub fn report_items(report: &mut Report, source: &str) {
    if source.len() > usize::MAX / 16 {
        return;
    }
    let mut stream = TokenStream::new(source);
    for _ in 0..u64::MAX {
        report_place(report, &stream);
        match stream.next_token() {
            Ok(Some(token)) => report.show_line(&token),
            last => {
                report_last_item(report, &last);
                if stream.next_token() != last {
                    report.find_wrong();
                }
                report_cuts(report, &stream);
                return;
            }
        }
    }
}

/// Reports the value of the string with this body between its quotes.
pub fn report_quoted(report: &mut Report, body: &str) {
    let Ok(text) = format!(in report.alloc; "\"{body}\"") else {
        report.cut_short();
        return;
    };
    report.append_result(&unquote_string(report.alloc, text.as_str()));
}

/// Reports the value of the block string with this content.
pub fn report_block(report: &mut Report, content: &str) {
    let Ok(text) = format!(in report.alloc; "\"\"\"{content}\"\"\"") else {
        report.cut_short();
        return;
    };
    report.append_made(&unquote_block_string(report.alloc, text.as_str()));
}

/// The value of the first argument of the first field.
fn first_value<'d>(document: &'d Document<'_, String>) -> Option<&'d Value<'d, String>> {
    let Definition::Operation(OperationDefinition::SelectionSet(set)) = document
        .definitions
        .first()?
    else {
        return None;
    };
    let Selection::Field(field) = set.items.first()? else {
        return None;
    };
    let (_, value) = field.arguments.first()?;
    Some(value)
}

/// Marks the report as wrong if its text is no argument with this value.
fn read_value_back(report: &mut Report, value: &Value<'_, String>) {
    let Ok(source) = format!(in report.alloc; "{{a(b:{})}}", report.text()) else {
        report.cut_short();
        return;
    };
    match parse_query::<String>(report.alloc, source.as_str()) {
        Ok(document) if first_value(&document) == Some(value) => {}
        Err(error) if matches!(error.cause(), Cause::OutOfMemory) => report.cut_short(),
        _ => report.find_wrong(),
    }
}

/// Reports what `Display` shows of a string with this value. As an argument it must parse back.
pub fn report_string(report: &mut Report, text: &str) {
    let Ok(text) = String::from_str(report.alloc, text) else {
        report.cut_short();
        return;
    };
    let value: Value<'_, String> = Value::String(text);
    report.show(&value);
    read_value_back(report, &value);
}

/// Reports a float literal. Its clone must be equal.
fn report_literal(report: &mut Report, literal: &FloatLiteral) {
    report.append(literal.as_str());
    match literal.clone() {
        Ok(copy) if copy == *literal => {}
        Ok(_) => report.find_wrong(),
        Err(_) => report.cut_short(),
    }
}

/// Reports the float literal with this spelling. Any other string is returned as the error.
pub fn report_float(report: &mut Report, text: &str) {
    let Ok(text) = String::from_str(report.alloc, text) else {
        report.cut_short();
        return;
    };
    match FloatLiteral::new(text) {
        Ok(literal) => report_literal(report, &literal),
        Err(text) => report.reject(&text),
    }
}
