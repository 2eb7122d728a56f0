//! `vectors`: replays cases, and prints how many of the results are those that the cases want.
//!
//! The cases are on standard input, one after another. All lengths are in bytes. A case begins with a line with a word
//! and a length, then an input of that length, and LF. Then comes a line `ok` or `rejected` with a length, and the
//! wanted output or message of that length, and LF. Or there is only a line `accepted` or `rejected`. A heading, which
//! is a line that begins with `#`, can come before a case. The words are
//!
//! - `query` and `lines`: the input is a query document, and wanted is the formatted document, under `lines` in
//!   multi-line style. A level has two spaces, unless another number follows the length;
//! - `tree`: wanted is what `Debug` shows of the query document, in which line ends can replace spaces;
//! - `parts`: wanted is what `Display` shows of the query document, and then of its parts down to the first selections,
//!   each with LF after it;
//! - `rest`: first as many tokens are taken as a number after the length says. Wanted is what `Debug` shows of the
//!   query document that is left, and LF; or the message; or a negative depth, and LF. The count of cuts follows;
//! - `prefixes`: each prefix of the input is parsed as a query document. Wanted is a line for each that is accepted:
//!   its length;
//! - `unlike`: each line of the input is a query document, and no two of them are equal;
//! - `schema`, `schema-lines`, `schema-tree`, `schema-parts`, `schema-rest`, `schema-prefixes` and `schemas-unlike`:
//!   the same for schema documents;
//! - `first`: wanted is the first definition, formatted as a document, and then what is left of the input;
//! - `minify`: wanted is the minified input;
//! - `error`, `schema-error` and `minify-error`: the input is rejected. Wanted is the position of the error and what
//!   `Debug` shows of it, with a space between them, and after LF the message;
//! - `tokens`: wanted is a line for each token and for the end, the last without LF: its position, its offset, the
//!   brackets that are open before it, and the token and its kind. The last line has `end` or the lexical error, and
//!   the count of cuts after it was requested twice;
//! - `quoted` and `block`: wanted is the value of a string or a block string with the input between its quotes;
//! - `string`: wanted is what `Display` shows of a string value with the input as its value;
//! - `float`: wanted is the input itself, or that it is returned as the error;
//! - `boxes`: the input is a number; that many boxes are made and dropped, which is accepted. If one allocation of the
//!   run is made to fail from outside, at a fixed count, the number decides which allocation of the next cases that is.
#![tactic(auto)]

mod cases;
mod definitions;
mod documents;
mod languages;
mod owned;
mod parts;
mod report;
mod schema_parts;
mod streams;
mod tokens;

use crate::cases::{Asked, Case, ReportKind, next_case};
use crate::definitions::report_of_first;
use crate::documents::{report_of, report_of_layouts, report_of_lines, report_of_prefixes};
use crate::languages::report_error;
use crate::report::Report;
use crate::streams::report_of_rest;
use crate::tokens::{
    report_block, report_float, report_items, report_minify_error, report_of_minifying,
    report_quoted, report_string,
};
use std::alloc::Global;
use std::io;
use std::process::ExitCode;

/// Makes as many boxes as a number says, one after another.
fn report_boxes(report: &mut Report, number: &str) {
    match number.parse::<u32>() {
        Ok(count) => {
            for _ in 0..count {
                drop(Box::new(report.alloc, 0u32));
            }
        }
        Err(_) => report.reject(&"no number"),
    }
}

/// The report on the tokens of an input, on the value of one, or on an error.
fn report_of_tokens(alloc: Global, source: &str, asked: Asked) -> Report {
    let mut report = Report::new(alloc);
    match asked {
        Asked::Quoted => report_quoted(&mut report, source),
        Asked::Block => report_block(&mut report, source),
        Asked::StringValue => report_string(&mut report, source),
        Asked::Error(language) => report_error(&mut report, language, source),
        Asked::MinifyError => report_minify_error(&mut report, source),
        Asked::Float => report_float(&mut report, source),
        Asked::Boxes => report_boxes(&mut report, source),
        _ => report_items(&mut report, source),
    }
    report
}

/// The report on the input of a case.
fn report_of_case(alloc: Global, case: &Case<'_>) -> Report {
    match case.asked {
        Asked::Document(language, report_kind @ ReportKind::StyleOptions { .. }) =>
            report_of_layouts(alloc, language, case.source, report_kind),
        Asked::Document(language, report_kind) => report_of(
            alloc,
            language,
            case.source,
            report_kind,
        ),
        Asked::Unlike(language) => report_of_lines(alloc, language, case.source),
        Asked::Prefixes(language) => report_of_prefixes(alloc, language, case.source),
        Asked::First => report_of_first(alloc, case.source),
        Asked::Rest(language, tokens) => report_of_rest(alloc, language, case.source, tokens),
        Asked::Minify => report_of_minifying(alloc, case.source),
        _ => report_of_tokens(alloc, case.source, case.asked),
    }
}

/// How many cases agree, how many are cut short by a failed allocation, and how many there are.
#[derive(Clone, Copy, Default)]
struct Tally {
    agreeing: usize,
    cut_short: usize,
    all: usize,
}

impl Tally {
    /// Counts a case.
    fn add(&mut self, alloc: Global, case: &Case<'_>) {
        let report = report_of_case(alloc, case);
        self.all = self.all.saturating_add(1);
        if report.is_cut_short() {
            self.cut_short = self.cut_short.saturating_add(1);
        } else if case.is_met(&report) {
            self.agreeing = self.agreeing.saturating_add(1);
        }
    }
}

/// Counts the cases; `None` if `text` is not written as cases.
fn count(alloc: Global, text: &str) -> Option<Tally> {
    let mut rest = text;
    let mut tally = Tally::default();
    for _ in 0..text.len() {
        if rest.is_empty() {
            return Some(tally);
        }
        let (case, after) = next_case(rest)?;
        rest = after;
        tally.add(alloc, &case);
    }
    None
}

fn main(rt: HostRuntime) -> ExitCode {
    let Ok(text) = io::read_to_string(rt.alloc(), rt.reader()) else {
        let _ = eprintln!(rt; "vectors: the cases cannot be read");
        return ExitCode::from(2);
    };
    let Some(
        Tally {
            agreeing,
            cut_short,
            all,
        },
    ) = count(rt.alloc(), text.as_str())
    else {
        let _ = eprintln!(rt; "vectors: these are no cases");
        return ExitCode::from(2);
    };
    let _ = print!(rt; "{agreeing} of {all} cases agree");
    if cut_short > 0 {
        let _ = print!(rt; ", {cut_short} cut short by an allocation that failed");
    }
    let _ = println!(rt; "");
    ExitCode::from(if agreeing == all { 0 } else { 1 })
}
