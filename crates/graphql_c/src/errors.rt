//! Errors of sources as JSON.
ghost use Rattle.std.specs.Prelude.{◌≡◌, OnOk, IfOk, map, option_map, string_bytes};
ghost use Rattle.graphql_core.specs.{decimal, quoted};
ghost use Rattle.graphql_json.specs.steps.Pieces.{Appends};
ghost use Rattle.graphql_json.specs.Json.{json_text, separator};
ghost use Rattle.graphql_json.specs.Nodes.{elements_of};
ghost use Rattle.graphql_json.specs.Json as json;
ghost use Rattle.graphql_c.specs.{or_null, report_json, AreReportsOf, HasReportsJson};
ghost use Rattle.graphql_c.specs.steps.{numbers_text, inner_text, words_text};

use graphql_core::format::{Buffer, Sink, print};
use graphql_fmt::{CheckError, ErrorReport, Place, report};
use std::alloc::{AllocError, Global};

/// What has a JSON value.
trait ToJson {
    ghost use Rattle.graphql_json.specs.Json.{Json};

    /// The value.
    ghost as_json: { Self → Json };

    /// Appends the value.
    fn write(&self, out: &mut Buffer) -> Result<(), AllocError>
        ensures { OnOk result (Appends out.old (json_text (as_json self.now)) out.new) };
}

/// Appends a text as it is.
fn write_text(out: &mut Buffer, text: &str) -> Result<(), AllocError>
    ensures { OnOk result (Appends out.old text.now out.new) }
{
    out.push_str(text)
}

/// Appends a string in quotes, with its escapes.
fn write_quoted(out: &mut Buffer, text: &str) -> Result<(), AllocError>
    ensures { OnOk result (Appends out.old (quoted text.now) out.new) }
{
    print::write_quoted(out, text)
}

/// Appends a number.
fn write_number(out: &mut Buffer, number: usize) -> Result<(), AllocError>
    ensures { OnOk result (Appends out.old (decimal number) out.new) }
{
    let mut digits = itoa::Buffer::new();
    write_text(out, digits.format(number))
}

/// Appends a comma if `is_later`.
fn write_separator(out: &mut Buffer, is_later: bool) -> Result<(), AllocError>
    ensures { OnOk result (Appends out.old (separator is_later) out.new) }
{
    if is_later {
        write_text(out, ",")
    } else {
        write_text(out, "")
    }
}

/// Appends an array.
fn write_array<T: ToJson>(out: &mut Buffer, items: &[T]) -> Result<(), AllocError>
    ensures { OnOk result
        (Appends out.old (json_text (json.array (elements_of (map T.as_json items.now)))) out.new) }
{
    write_text(out, "[")?;
    let mut is_later = false;
    'items: for item in items {
        write_separator(out, is_later)?;
        item.write(out)?;
        is_later = true;
    }
    write_text(out, "]")
}

impl ToJson for usize {
    ghost as_json = { json.number };

    fn write(&self, out: &mut Buffer) -> Result<(), AllocError> {
        write_number(out, *self)
    }
}

impl ToJson for &str {
    ghost as_json = { λ text. json.string text.now };

    fn write(&self, out: &mut Buffer) -> Result<(), AllocError> {
        write_quoted(out, self)
    }
}

impl ToJson for String {
    ghost as_json = { λ text. json.string (string_bytes text) };

    fn write(&self, out: &mut Buffer) -> Result<(), AllocError> {
        write_quoted(out, self)
    }
}

impl<T: ToJson> ToJson for Option<T> {
    ghost as_json = { or_null T.as_json };

    fn write(&self, out: &mut Buffer) -> Result<(), AllocError> {
        match self {
            Some(value) => value.write(out),
            None => write_text(out, "null"),
        }
    }
}

impl ToJson for ErrorReport {
    ghost as_json = { report_json };

    fn write(&self, out: &mut Buffer) -> Result<(), AllocError> {
        write_text(out, "{")?;
        write_numbers(out, self)?;
        write_inner(out, self.inner)?;
        write_words(out, self)?;
        write_text(out, "}")
    }
}

/// Appends the members that are numbers.
fn write_numbers(out: &mut Buffer, report: &ErrorReport) -> Result<(), AllocError>
    ensures { OnOk result (Appends out.old (numbers_text report.now) out.new) }
{
    write_text(out, "\"line\":")?;
    write_number(out, report.place.line)?;
    write_text(out, ",\"column\":")?;
    write_number(out, report.place.column)?;
    write_text(out, ",\"offset\":")?;
    write_number(out, report.place.offset)?;
    write_text(out, ",\"length\":")?;
    write_number(out, report.len)
}

fn column_of(place: Option<Place>) -> Option<usize>
    ensures { result ≡ option_map (λ p. p.column) place }
{
    match place {
        Some(place) => Some(place.column),
        None => None,
    }
}

fn offset_of(place: Option<Place>) -> Option<usize>
    ensures { result ≡ option_map (λ p. p.offset) place }
{
    match place {
        Some(place) => Some(place.offset),
        None => None,
    }
}

/// Appends the members with the place inside a string or a number.
fn write_inner(out: &mut Buffer, inner: Option<Place>) -> Result<(), AllocError>
    ensures { OnOk result (Appends out.old (inner_text inner) out.new) }
{
    write_text(out, ",\"inner_column\":")?;
    column_of(inner).write(out)?;
    write_text(out, ",\"inner_offset\":")?;
    offset_of(inner).write(out)
}

/// Appends the members that are words.
fn write_words(out: &mut Buffer, report: &ErrorReport) -> Result<(), AllocError>
    ensures { OnOk result (Appends out.old (words_text report.now) out.new) }
{
    write_text(out, ",\"message\":")?;
    write_quoted(out, &report.message)?;
    write_text(out, ",\"found\":")?;
    report.found.write(out)?;
    write_text(out, ",\"expected\":")?;
    write_array(out, &report.expected)
}

/// What is reported of each error.
fn reports_of(
    alloc: Global,
    source: &str,
    errors: &[CheckError],
) -> Result<Vec<ErrorReport>, AllocError>
    ensures { IfOk result (λ reports. AreReportsOf errors.now reports.items) }
{
    let mut reports = Vec::new(alloc);
    'errors: for error in errors {
        reports.push(report(alloc, source, error)?)?;
    }
    Ok(reports)
}

/// The errors of a source as a JSON array. An error means that an allocation failed.
pub fn errors_to_json(
    alloc: Global,
    source: &str,
    errors: &[CheckError],
) -> Result<String, AllocError>
    ensures { IfOk result (λ text. HasReportsJson errors.now (string_bytes text)) }
{
    let reports = reports_of(alloc, source, errors)?;
    let mut out = Buffer::new(alloc);
    write_array(&mut out, &reports)?;
    Ok(out.into_string())
}
