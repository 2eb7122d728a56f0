//! The work that is measured.
use graphql_parser::common::Text;
use graphql_parser::tokenizer::TokenStream;
use graphql_parser::{Style, minify_query, query, schema};
use std::alloc::Global;
use std::fmt::Display;
use std::io;
use std::time::{Duration, Instant};

/// A document of a language, with names of a text type.
pub trait Document<'a>: Drop {
    /// Why an input is not a document.
    type Error: Display + Drop;

    /// Parses an input.
    fn parse(alloc: Global, source: &'a str) -> Result<Self, Self::Error>;

    /// The document formatted in the default style; `None` after an error.
    fn formatted(&self, alloc: Global) -> Option<String>;
}

impl<'a, T: Text<'a>> Document<'a> for query::Document<'a, T> {
    type Error = query::ParseError;

    fn parse(alloc: Global, source: &'a str) -> Result<Self, query::ParseError> {
        query::parse_query(alloc, source)
    }

    fn formatted(&self, alloc: Global) -> Option<String> {
        self.format(alloc, &Style::default()).ok()
    }
}

impl<'a, T: Text<'a>> Document<'a> for schema::Document<'a, T> {
    type Error = schema::ParseError;

    fn parse(alloc: Global, source: &'a str) -> Result<Self, schema::ParseError> {
        schema::parse_schema(alloc, source)
    }

    fn formatted(&self, alloc: Global) -> Option<String> {
        self.format(alloc, &Style::default()).ok()
    }
}

/// A kind of work whose time is measured.
#[derive(Clone, Copy, PartialEq)]
pub enum Work {
    /// Tokenizing the input.
    Tokenize,
    /// Parsing it with borrowed names, and dropping the result.
    ParseBorrowed,
    /// Parsing it with owned names, and dropping the result.
    ParseOwned,
    /// Parsing it with borrowed names, without dropping the result.
    ParseAlone,
    /// Dropping a document with borrowed names.
    DropAlone,
    /// Formatting its document.
    Format,
    /// Tokenizing the formatted document.
    TokenizeWritten,
    /// Minifying a copy of it, which is dropped.
    Minify,
}

/// All kinds of work, in the order of a round.
pub const ALL: [Work; 8] = [
    Work::Tokenize,
    Work::ParseBorrowed,
    Work::ParseOwned,
    Work::Format,
    Work::TokenizeWritten,
    Work::ParseAlone,
    Work::DropAlone,
    Work::Minify,
];

/// The name of a kind of work.
pub fn name(work: Work) -> &'static str {
    match work {
        Work::Tokenize => "cut",
        Work::ParseBorrowed => "parse and drop (&str)",
        Work::ParseOwned => "parse and drop (String)",
        Work::ParseAlone => "parse alone (&str)",
        Work::DropAlone => "drop (&str)",
        Work::Format => "format",
        Work::TokenizeWritten => "cut what format writes",
        Work::Minify => "minify",
    }
}

/// The kind of work with this name.
pub fn work_named(word: &str) -> Option<Work> {
    'works: for work in ALL {
        if name(work) == word {
            return Some(work);
        }
    }
    None
}

/// What the work is done on.
#[derive(Drop)]
pub struct Sample<'a, 'b, D> {
    /// The input.
    pub source: &'a str,
    /// Its document.
    pub document: &'b D,
    /// The formatted document.
    pub written: &'b str,
}

/// Tokenizes an input. Returns whether the end was reached.
fn tokenize(source: &str) -> bool {
    if source.len() > usize::MAX / 16 {
        return false;
    }
    let mut stream = TokenStream::new(source);
    'tokens: for _ in 0..u64::MAX {
        match stream.next_token() {
            Ok(Some(_)) => {}
            Ok(None) => return true,
            Err(_) => return false,
        }
    }
    false
}

/// The time to parse an input, without the time to drop the result; `None` if the input is rejected.
fn time_to_parse<'a, D: Document<'a>>(
    rt: &HostRuntime,
    source: &'a str,
) -> io::Result<Option<Duration>> {
    let start = Instant::now(rt)?;
    let parsed = D::parse(rt.alloc(), source);
    let elapsed = start.elapsed(rt)?;
    Ok(parsed.ok().map(|_| elapsed))
}

/// The time to drop the document of an input; `None` if the input is rejected.
fn time_to_drop<'a, D: Document<'a>>(
    rt: &HostRuntime,
    source: &'a str,
) -> io::Result<Option<Duration>> {
    let Ok(document) = D::parse(rt.alloc(), source) else {
        return Ok(None);
    };
    let start = Instant::now(rt)?;
    drop(document);
    Ok(Some(start.elapsed(rt)?))
}

/// The time to minify an input, without the time to copy it; `None` after an error.
fn time_to_minify(rt: &HostRuntime, source: &str) -> io::Result<Option<Duration>> {
    let Ok(copy) = String::from_str(rt.alloc(), source) else {
        return Ok(None);
    };
    let start = Instant::now(rt)?;
    let minified = minify_query(rt.alloc(), copy);
    let elapsed = start.elapsed(rt)?;
    Ok(if minified.is_ok() {
        Some(elapsed)
    } else {
        None
    })
}

/// Does a kind of work once, if all of its time counts. Returns whether it succeeded.
fn run<'a, B: Document<'a>, O: Document<'a>>(
    alloc: Global,
    work: Work,
    sample: &Sample<'a, '_, B>,
) -> bool {
    match work {
        Work::Tokenize => tokenize(sample.source),
        Work::ParseBorrowed => B::parse(alloc, sample.source).is_ok(),
        Work::ParseOwned => O::parse(alloc, sample.source).is_ok(),
        Work::Format => sample.document.formatted(alloc).is_some(),
        Work::TokenizeWritten => tokenize(sample.written),
        _ => false,
    }
}

/// The time that the work takes once, with borrowed names in `B` and owned names in `O`; `None` if it fails.
pub fn time<'a, B: Document<'a>, O: Document<'a>>(
    rt: &HostRuntime,
    work: Work,
    sample: &Sample<'a, '_, B>,
) -> io::Result<Option<Duration>> {
    match work {
        Work::ParseAlone => time_to_parse::<B>(rt, sample.source),
        Work::DropAlone => time_to_drop::<B>(rt, sample.source),
        Work::Minify => time_to_minify(rt, sample.source),
        _ => {
            let start = Instant::now(rt)?;
            let done = run::<B, O>(rt.alloc(), work, sample);
            let elapsed = start.elapsed(rt)?;
            Ok(if done { Some(elapsed) } else { None })
        }
    }
}
