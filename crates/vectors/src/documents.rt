//! Inputs that are documents of a language: their layouts, trees and parts, and which are equal.
use crate::cases::ReportKind;
use crate::languages::{Language, are_equal, report_static, report_with};
use crate::owned::Owned;
use crate::report::Report;
use std::alloc::Global;
use std::borrow::CowStr;

/// The report on the document of an input, which must be the same with names of each text type, and of the document
/// made static.
pub fn report_of(
    alloc: Global,
    language: Language,
    source: &str,
    report_kind: ReportKind,
) -> Report {
    let mut whole = report_with::<&str>(alloc, language, source, report_kind);
    whole.compare(&report_with::<String>(alloc, language, source, report_kind));
    whole.compare(&report_with::<CowStr>(alloc, language, source, report_kind));
    whole.compare(&report_with::<Owned>(alloc, language, source, report_kind));
    whole.compare(&report_static(alloc, language, source, report_kind));
    whole
}

/// The report on a formatted document. In both styles and with three indentations, the output must parse back.
pub fn report_of_layouts(
    alloc: Global,
    language: Language,
    source: &str,
    report_kind: ReportKind,
) -> Report {
    let mut whole = report_of(alloc, language, source, report_kind);
    let tree = report_with::<&str>(alloc, language, source, ReportKind::Tree);
    whole.follow(&tree);
    if tree.is_error() {
        return whole;
    }
    for (indent, multiline) in [
        (0, false),
        (2, false),
        (7, false),
        (0, true),
        (2, true),
        (7, true),
    ] {
        let report_kind = ReportKind::StyleOptions { indent, multiline };
        let layout = report_with::<&str>(alloc, language, source, report_kind);
        parses_back(&mut whole, language, &tree, &layout, report_kind);
    }
    whole
}

/// Checks that a layout parses back to the tree, ignoring positions, and that formatting is idempotent.
fn parses_back(
    whole: &mut Report,
    language: Language,
    tree: &Report,
    layout: &Report,
    report_kind: ReportKind,
) {
    let mut again = report_with::<&str>(whole.alloc, language, layout.text(), report_kind);
    again.compare(layout);
    let read = report_with::<&str>(whole.alloc, language, layout.text(), ReportKind::Tree);
    whole.follow(tree);
    whole.follow(&again);
    whole.follow(&read);
    if again.text() != layout.text() || !are_like(tree.text(), read.text()) {
        whole.find_wrong();
    }
}

/// Whether two trees are shown as the same, ignoring each `Pos(..)`.
fn are_like(one: &str, other: &str) -> bool {
    let mut others = other.split("Pos(");
    for part in one.split("Pos(") {
        match others.next() {
            Some(other) if after_position(part) == after_position(other) => {}
            _ => return false,
        }
    }
    others.next().is_none()
}

fn after_position(part: &str) -> &str {
    match part.split_once(')') {
        Some((_, after)) => after,
        None => part,
    }
}

/// Whether two inputs have equal documents; `None` if one has none, or if text types disagree.
fn are_equal_in_each(alloc: Global, language: Language, one: &str, other: &str) -> Option<bool> {
    let are_equal_borrowed = are_equal::<&str>(alloc, language, one, other)?;
    let are_equal_owned = are_equal::<String>(alloc, language, one, other)?;
    let are_equal_mixed = are_equal::<CowStr>(alloc, language, one, other)?;
    let are_equal_custom = are_equal::<Owned>(alloc, language, one, other)?;
    if are_equal_borrowed == are_equal_owned
        && are_equal_owned == are_equal_mixed
        && are_equal_mixed == are_equal_custom
    {
        Some(are_equal_custom)
    } else {
        None
    }
}

/// Checks that each line is a document, equal to that of the same line and of no other. Nothing is reported.
pub fn report_of_lines(alloc: Global, language: Language, lines: &str) -> Report {
    let mut whole = Report::new(alloc);
    for (i, line) in lines.split('\n').enumerate() {
        for (k, other) in lines.split('\n').enumerate() {
            if are_equal_in_each(alloc, language, line, other) != Some(i == k) {
                whole.find_wrong();
            }
        }
    }
    whole
}

/// Reports a line for each prefix that is a document: its length. The documents must parse back, as above.
pub fn report_of_prefixes(alloc: Global, language: Language, source: &str) -> Report {
    let mut whole = Report::new(alloc);
    let layout = ReportKind::StyleOptions {
        indent: 2,
        multiline: false,
    };
    for length in 0..=source.len() {
        if let Some((prefix, _)) = source.split_at_checked(length) {
            let report = report_of_layouts(alloc, language, prefix, layout);
            whole.follow(&report);
            if !report.is_error() {
                whole.show_line(&length);
            }
        }
    }
    whole
}
