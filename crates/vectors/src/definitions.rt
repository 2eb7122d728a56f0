//! The first definitions of inputs, and what is left.
use crate::report::Report;
use graphql_parser::Style;
use graphql_parser::common::Text;
use graphql_parser::query::{Definition, Document, consume_definition};
use std::alloc::Global;
use std::borrow::CowStr;

/// Reports a definition, formatted as a document.
fn report_definition<'a, T: Text<'a>>(report: &mut Report, definition: Definition<'a, T>) {
    let mut definitions = Vec::new(report.alloc);
    if definitions.push(definition).is_err() {
        report.cut_short();
        return;
    }
    let document = Document { definitions };
    report.append_result(&document.format(report.alloc, &Style::default()));
}

/// The report on the first definition of an input and on what is left, with names of a text type.
fn report_first<'a, T: Text<'a>>(alloc: Global, source: &'a str) -> Report {
    let mut report = Report::new(alloc);
    match consume_definition::<T>(alloc, source) {
        Ok((definition, rest)) => {
            report_definition(&mut report, definition);
            report.append(rest);
        }
        Err(error) => report.reject_at(&error),
    }
    report
}

/// The report on the first definition of an input, which must be the same with names of each text type.
pub fn report_of_first(alloc: Global, source: &str) -> Report {
    let mut report = report_first::<&str>(alloc, source);
    report.compare(&report_first::<String>(alloc, source));
    report.compare(&report_first::<CowStr>(alloc, source));
    report
}
