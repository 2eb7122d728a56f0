//! The languages of documents: queries and schemas.
use crate::cases::ReportKind;
use crate::report::Report;
use crate::{parts, schema_parts};
use graphql_parser::common::Text;
use graphql_parser::tokenizer::TokenStream;
use graphql_parser::{Cause, FormatError, Pos, Style, query, schema};
use std::alloc::{AllocError, Global};
use std::fmt::{Debug, Display};

#[derive(Clone, Copy)]
pub enum Language {
    Query,
    Schema,
}

/// The report on the document of an input, with names of a text type.
pub fn report_with<'a, T: Text<'a>>(
    alloc: Global,
    language: Language,
    source: &'a str,
    report_kind: ReportKind,
) -> Report {
    match language {
        Language::Query => report_as::<query::Document<'a, T>>(alloc, source, report_kind),
        Language::Schema => report_as::<schema::Document<'a, T>>(alloc, source, report_kind),
    }
}

/// The report on the document of an input, with owned names and made static.
pub fn report_static(
    alloc: Global,
    language: Language,
    source: &str,
    report_kind: ReportKind,
) -> Report {
    match language {
        Language::Query => report_static_as::<query::Document<'_, String>>(
            alloc,
            source,
            report_kind,
        ),
        Language::Schema => report_static_as::<schema::Document<'_, String>>(
            alloc,
            source,
            report_kind,
        ),
    }
}

/// Reports the error of parsing an input as a document.
fn report_error_as<'a, D: Document<'a>>(report: &mut Report, source: &'a str) {
    if let Err(error) = D::parse(report.alloc, source) {
        report.reject_as(&error);
    }
}

/// The same, as a document of a language.
pub fn report_error(report: &mut Report, language: Language, source: &str) {
    match language {
        Language::Query => report_error_as::<query::Document<'_, &str>>(report, source),
        Language::Schema => report_error_as::<schema::Document<'_, &str>>(report, source),
    }
}

/// Whether two inputs have equal documents, with names of a text type; `None` if one has none.
pub fn are_equal<'a, T: Text<'a>>(
    alloc: Global,
    language: Language,
    one: &'a str,
    other: &'a str,
) -> Option<bool> {
    match language {
        Language::Query => are_equal_as::<query::Document<'a, T>>(alloc, one, other),
        Language::Schema => are_equal_as::<schema::Document<'a, T>>(alloc, one, other),
    }
}

/// Why an input is rejected.
pub trait ParseFailure: Debug + Display + Drop {
    /// The position of the error.
    fn position(&self) -> Option<Pos>;

    /// What is wrong there.
    fn cause(&self) -> &Cause;
}

impl ParseFailure for query::ParseError {
    fn position(&self) -> Option<Pos> {
        query::ParseError::position(self)
    }

    fn cause(&self) -> &Cause {
        query::ParseError::cause(self)
    }
}

impl ParseFailure for schema::ParseError {
    fn position(&self) -> Option<Pos> {
        schema::ParseError::position(self)
    }

    fn cause(&self) -> &Cause {
        schema::ParseError::cause(self)
    }
}

impl ParseFailure for query::MinifyError {
    fn position(&self) -> Option<Pos> {
        query::MinifyError::position(self)
    }

    fn cause(&self) -> &Cause {
        query::MinifyError::cause(self)
    }
}

/// A document of a language, with names of a text type.
pub trait Document<'a>: Clone + PartialEq + Debug + Drop {
    /// Why an input is not a document.
    type Error: ParseFailure;

    /// Parses an input.
    fn parse(alloc: Global, source: &'a str) -> Result<Self, Self::Error>;

    /// Parses the rest of a stream; `None` if the depth of the stream is negative.
    fn parse_rest(alloc: Global, stream: &mut TokenStream<'a>) -> Option<Result<Self, Self::Error>>;

    /// The document formatted in a style.
    fn formatted(&self, alloc: Global, style: &Style) -> Result<String, FormatError>;

    /// Reports the document and its parts.
    fn report_parts(&self, report: &mut Report);
}

/// A document with owned names.
trait Owning<'a>: Document<'a> {
    /// The same document as one that does not borrow its input.
    fn made_static(self, alloc: Global) -> Result<Self, AllocError>;
}

/// The report on the document of an input. The clone of the document must be equal.
fn report_as<'a, D: Document<'a>>(
    alloc: Global,
    source: &'a str,
    report_kind: ReportKind,
) -> Report {
    let mut report = Report::new(alloc);
    match D::parse(alloc, source) {
        Ok(document) => {
            compare_with_copy(&mut report, &document);
            report_document(&mut report, &document, report_kind);
        }
        Err(error) => report.reject_at(&error),
    }
    report
}

/// The report on the document of an input, made static. A clone that was made before must be equal.
fn report_static_as<'a, D: Owning<'a>>(
    alloc: Global,
    source: &'a str,
    report_kind: ReportKind,
) -> Report {
    let mut report = Report::new(alloc);
    match D::parse(alloc, source) {
        Ok(document) => report_made_static(&mut report, document, report_kind),
        Err(error) => report.reject_at(&error),
    }
    report
}

/// Reports on a document made static what is asked for.
fn report_made_static<'a, D: Owning<'a>>(
    report: &mut Report,
    document: D,
    report_kind: ReportKind,
) {
    let copy: Result<D, AllocError> = document.clone();
    let (Ok(copy), Ok(made)) = (copy, document.made_static(report.alloc)) else {
        report.cut_short();
        return;
    };
    if copy != made {
        report.find_wrong();
    }
    report_document(report, &made, report_kind);
}

/// Marks the report as wrong if the clone of a document is not equal.
fn compare_with_copy<'a, D: Document<'a>>(report: &mut Report, document: &D) {
    match document.clone() {
        Ok(copy) if copy == *document => {}
        Ok(_) => report.find_wrong(),
        Err(_) => report.cut_short(),
    }
}

/// Whether two inputs have equal documents; `None` if one has none.
fn are_equal_as<'a, D: Document<'a>>(alloc: Global, one: &'a str, other: &'a str) -> Option<bool> {
    let one = D::parse(alloc, one).ok()?;
    let other = D::parse(alloc, other).ok()?;
    Some(one == other)
}

/// Reports on a document what is asked for.
fn report_document<'a, D: Document<'a>>(
    report: &mut Report,
    document: &D,
    report_kind: ReportKind,
) {
    match report_kind {
        ReportKind::StyleOptions { indent, multiline } => {
            report.append_result(&document.formatted(report.alloc, &style_of(indent, multiline)));
        }
        ReportKind::Tree => report.show_debug(document),
        ReportKind::Parts => document.report_parts(report),
    }
}

/// The style with `indent` spaces a level.
fn style_of(indent: u32, multiline: bool) -> Style {
    let mut style = Style::default();
    style.indent(indent).multiline_arguments(multiline);
    style
}

impl<'a, T: Text<'a>> Document<'a> for query::Document<'a, T> {
    type Error = query::ParseError;

    fn parse(alloc: Global, source: &'a str) -> Result<Self, query::ParseError> {
        query::parse_query(alloc, source)
    }

    fn parse_rest(
        alloc: Global,
        stream: &mut TokenStream<'a>,
    ) -> Option<Result<Self, query::ParseError>> {
        if stream.depth() < 0 {
            return None;
        }
        Some(query::parse_query_from(alloc, stream))
    }

    fn formatted(&self, alloc: Global, style: &Style) -> Result<String, FormatError> {
        self.format(alloc, style)
    }

    fn report_parts(&self, report: &mut Report) {
        parts::report_parts(report, self);
    }
}

impl<'a, T: Text<'a>> Document<'a> for schema::Document<'a, T> {
    type Error = schema::ParseError;

    fn parse(alloc: Global, source: &'a str) -> Result<Self, schema::ParseError> {
        schema::parse_schema(alloc, source)
    }

    fn parse_rest(
        alloc: Global,
        stream: &mut TokenStream<'a>,
    ) -> Option<Result<Self, schema::ParseError>> {
        if stream.depth() < 0 {
            return None;
        }
        Some(schema::parse_schema_from(alloc, stream))
    }

    fn formatted(&self, alloc: Global, style: &Style) -> Result<String, FormatError> {
        self.format(alloc, style)
    }

    fn report_parts(&self, report: &mut Report) {
        schema_parts::report_parts(report, self);
    }
}

impl<'a> Owning<'a> for query::Document<'a, String> {
    fn made_static(self, alloc: Global) -> Result<Self, AllocError> {
        self.into_static(alloc)
    }
}

impl<'a> Owning<'a> for schema::Document<'a, String> {
    fn made_static(self, alloc: Global) -> Result<Self, AllocError> {
        self.into_static(alloc)
    }
}
