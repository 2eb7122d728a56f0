//! Documents of both languages, and their errors.
use crate::streams::read_streams;
use crate::tally::Tally;
use graphql_parser::common::Text;
use graphql_parser::tokenizer::TokenStream;
use graphql_parser::{Cause, FormatError, Pos, Style, query, schema};
use std::alloc::Global;
use std::fmt::Display;

/// Why an input is rejected.
#[derive(Clone, Copy)]
pub struct ParseFailure {
    /// The position of the error.
    position: Option<Pos>,
    /// Whether an allocation failed. Then there is no position.
    pub ran_out: bool,
}

impl ParseFailure {
    fn new(cause: &Cause, position: Option<Pos>) -> Self {
        ParseFailure {
            position,
            ran_out: matches!(cause, Cause::OutOfMemory) && position.is_none(),
        }
    }

    /// Why an input is not a query document.
    pub fn of_query(error: &query::ParseError) -> Self {
        ParseFailure::new(error.cause(), error.position())
    }

    /// Why an input is not a schema document.
    pub fn of_schema(error: &schema::ParseError) -> Self {
        ParseFailure::new(error.cause(), error.position())
    }

    /// Why an input is not minified.
    pub fn of_minifying(error: &query::MinifyError) -> Self {
        ParseFailure::new(error.cause(), error.position())
    }

    /// Counts an error that must be at this column of the first line.
    pub fn count(self, tally: &mut Tally, column: usize) {
        let place = Pos { line: 1, column };
        tally.add(self.position == Some(place), self.ran_out);
    }
}

/// A document of a language, with names of a text type.
pub trait Document<'a>: Clone + PartialEq + Display + Drop {
    /// Parses an input.
    fn parse(alloc: Global, source: &'a str) -> Result<Self, ParseFailure>;

    /// Parses the rest of a stream; `None` if the depth of the stream is negative.
    fn parse_rest(
        alloc: Global,
        stream: &mut TokenStream<'a>,
    ) -> Option<Result<Self, ParseFailure>>;

    /// The document formatted in the default style.
    fn formatted(&self, alloc: Global) -> Result<String, FormatError>;
}

impl<'a, T: Text<'a>> Document<'a> for query::Document<'a, T> {
    fn parse(alloc: Global, source: &'a str) -> Result<Self, ParseFailure> {
        query::parse_query(alloc, source).map_err(|error| ParseFailure::of_query(&error))
    }

    fn parse_rest(
        alloc: Global,
        stream: &mut TokenStream<'a>,
    ) -> Option<Result<Self, ParseFailure>> {
        if stream.depth() < 0 {
            return None;
        }
        let returned = query::parse_query_from(alloc, stream);
        Some(returned.map_err(|error| ParseFailure::of_query(&error)))
    }

    fn formatted(&self, alloc: Global) -> Result<String, FormatError> {
        self.format(alloc, &Style::default())
    }
}

impl<'a, T: Text<'a>> Document<'a> for schema::Document<'a, T> {
    fn parse(alloc: Global, source: &'a str) -> Result<Self, ParseFailure> {
        schema::parse_schema(alloc, source).map_err(|error| ParseFailure::of_schema(&error))
    }

    fn parse_rest(
        alloc: Global,
        stream: &mut TokenStream<'a>,
    ) -> Option<Result<Self, ParseFailure>> {
        if stream.depth() < 0 {
            return None;
        }
        let returned = schema::parse_schema_from(alloc, stream);
        Some(returned.map_err(|error| ParseFailure::of_schema(&error)))
    }

    fn formatted(&self, alloc: Global) -> Result<String, FormatError> {
        self.format(alloc, &Style::default())
    }
}

/// Inputs for three uses.
#[derive(Clone, Copy)]
pub struct Texts<'a, 'b> {
    /// Inputs to parse, also from a stream, to format and to clone, each with its layout.
    pub read: &'b [(&'a str, &'b str)],
    /// Inputs whose documents are shown, each with its layout.
    pub shown: &'b [(&'a str, &'b str)],
    /// Inputs that are no documents, each with the column of its error.
    pub rejected: &'b [(&'a str, usize)],
}

impl<'a, 'b> Texts<'a, 'b> {
    /// Inputs that are only parsed.
    pub fn read(documents: &'b [(&'a str, &'b str)]) -> Texts<'a, 'b> {
        Texts {
            read: documents,
            shown: &[],
            rejected: &[],
        }
    }

    /// Inputs that are parsed and shown, and inputs that are no documents.
    pub fn all(
        documents: &'b [(&'a str, &'b str)],
        rejected: &'b [(&'a str, usize)],
    ) -> Texts<'a, 'b> {
        Texts {
            read: documents,
            shown: documents,
            rejected,
        }
    }
}

/// Uses inputs as documents.
pub fn use_texts<'a, D: Document<'a>>(alloc: Global, tally: &mut Tally, texts: &Texts<'a, '_>) {
    read_documents::<D>(alloc, tally, texts.read);
    read_streams::<D>(alloc, tally, texts.read);
    show_documents::<D>(alloc, tally, texts.shown);
    reject::<D>(alloc, tally, texts.rejected);
}

/// Parses inputs, and formats and clones their documents.
fn read_documents<'a, D: Document<'a>>(
    alloc: Global,
    tally: &mut Tally,
    texts: &[(&'a str, &str)],
) {
    for (text, layout) in texts {
        match D::parse(alloc, *text) {
            Ok(document) => {
                tally.add(true, false);
                let returned = document.formatted(alloc);
                let out_of_memory = matches!(returned, Err(FormatError::OutOfMemory));
                tally.add_text(&returned, *layout, out_of_memory);
                tally.add_copy(&document);
            }
            Err(parse_failure) => tally.add(false, parse_failure.ran_out),
        }
    }
}

/// Shows the documents of inputs with `Display`.
fn show_documents<'a, D: Document<'a>>(
    alloc: Global,
    tally: &mut Tally,
    texts: &[(&'a str, &str)],
) {
    for (text, layout) in texts {
        match D::parse(alloc, *text) {
            Ok(document) => tally.add_text(&document.to_string(alloc), *layout, true),
            Err(parse_failure) => tally.add(false, parse_failure.ran_out),
        }
    }
}

/// Parses inputs that are no documents, each with the column of its error.
fn reject<'a, D: Document<'a>>(alloc: Global, tally: &mut Tally, texts: &[(&'a str, usize)]) {
    for (text, column) in texts {
        match D::parse(alloc, *text) {
            Ok(_) => tally.add(false, false),
            Err(parse_failure) => parse_failure.count(tally, *column),
        }
    }
}
