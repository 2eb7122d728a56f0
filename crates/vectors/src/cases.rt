//! Cases: an input, what to do with it, and the wanted result.
use crate::languages::Language;
use crate::report::Report;

/// What a case does with its input.
#[derive(Clone, Copy)]
pub enum Asked {
    /// Parse it as a document of a language, and report on the document.
    Document(Language, ReportKind),
    /// Parse each of its lines as a document of a language. No two of the documents are equal.
    Unlike(Language),
    /// Parse each of its prefixes as a document of a language.
    Prefixes(Language),
    /// Take its first definition.
    First,
    /// Take so many tokens, and parse what is left as a document of a language.
    Rest(Language, u32),
    Minify,
    /// Find the error of parsing it as a document of a language.
    Error(Language),
    /// Find the error of minifying it.
    MinifyError,
    /// Tokenize it.
    Tokens,
    /// Find the value of the string with the input between its quotes.
    Quoted,
    /// Find the value of the block string with the input between its quotes.
    Block,
    /// Make a string value of it.
    StringValue,
    /// Make a float literal of it.
    Float,
    /// Make as many boxes as its number says, one after another.
    Boxes,
}

/// What to report on a document.
#[derive(Clone, Copy)]
pub enum ReportKind {
    /// The document formatted in a style.
    StyleOptions { indent: u32, multiline: bool },
    /// The tree, as `Debug` shows it.
    Tree,
    /// The parts of the tree one by one, as `Display` shows them.
    Parts,
}

/// The wanted result of an input.
#[derive(Clone, Copy)]
pub enum WantedResult<'a> {
    /// This output.
    Text(&'a str),
    /// The input is accepted.
    Accepted,
    /// The input is rejected.
    Rejected,
    /// The input is rejected with this message.
    Message(&'a str),
}

impl WantedResult<'_> {
    /// Whether the report is the wanted result.
    pub fn is_met(self, report: &Report) -> bool {
        match self {
            WantedResult::Text(wanted) => !report.is_error() && report.text() == wanted,
            WantedResult::Accepted => !report.is_error(),
            WantedResult::Rejected => report.is_error(),
            WantedResult::Message(message) => report.is_error() && report.text() == message,
        }
    }
}

/// An input, what to do with it, and the wanted result.
#[derive(Clone, Copy)]
pub struct Case<'a> {
    pub asked: Asked,
    pub source: &'a str,
    pub wanted_result: WantedResult<'a>,
}

impl Case<'_> {
    /// Whether the report is the wanted result. A wanted tree can have line ends in place of spaces.
    pub fn is_met(&self, report: &Report) -> bool {
        if report.is_wrong() {
            return false;
        }
        match (self.asked, self.wanted_result) {
            (Asked::Document(_, ReportKind::Tree), WantedResult::Text(lines)) => !report.is_error()
                && is_in_lines(report.text(), lines),
            _ => self.wanted_result.is_met(report),
        }
    }
}

/// Whether `lines` is `text` with line ends in place of some spaces.
fn is_in_lines(text: &str, lines: &str) -> bool {
    text.len() == lines.len()
        && text.bytes().zip(lines.bytes()).all(|(one, other)| one == other
            || one == b' ' && other == b'\n')
}

/// The first `length` bytes of `text`, and what follows the LF after them.
fn sized<'a>(text: &'a str, length: &str) -> Option<(&'a str, &'a str)> {
    let length: usize = length.parse().ok()?;
    let (sized, after) = text.split_at_checked(length)?;
    Some((sized, after.strip_prefix('\n')?))
}

/// The language and the report that a word asks for, with `indent` spaces a level.
fn read_report_kind(word: &str, indent: u32) -> Option<(Language, ReportKind)> {
    let lines = ReportKind::StyleOptions {
        indent,
        multiline: true,
    };
    let layout = ReportKind::StyleOptions {
        indent,
        multiline: false,
    };
    match word {
        "query" => Some((Language::Query, layout)),
        "lines" => Some((Language::Query, lines)),
        "tree" => Some((Language::Query, ReportKind::Tree)),
        "parts" => Some((Language::Query, ReportKind::Parts)),
        "schema" => Some((Language::Schema, layout)),
        "schema-lines" => Some((Language::Schema, lines)),
        "schema-tree" => Some((Language::Schema, ReportKind::Tree)),
        "schema-parts" => Some((Language::Schema, ReportKind::Parts)),
        _ => None,
    }
}

/// What a word without an indentation asks for. Under two words so many tokens are taken first.
fn read_word(word: &str, tokens: u32) -> Option<Asked> {
    match word {
        "unlike" => Some(Asked::Unlike(Language::Query)),
        "schemas-unlike" => Some(Asked::Unlike(Language::Schema)),
        "prefixes" => Some(Asked::Prefixes(Language::Query)),
        "schema-prefixes" => Some(Asked::Prefixes(Language::Schema)),
        "first" => Some(Asked::First),
        "rest" => Some(Asked::Rest(Language::Query, tokens)),
        "schema-rest" => Some(Asked::Rest(Language::Schema, tokens)),
        "minify" => Some(Asked::Minify),
        "error" => Some(Asked::Error(Language::Query)),
        "schema-error" => Some(Asked::Error(Language::Schema)),
        "minify-error" => Some(Asked::MinifyError),
        "tokens" => Some(Asked::Tokens),
        "quoted" => Some(Asked::Quoted),
        "block" => Some(Asked::Block),
        "string" => Some(Asked::StringValue),
        "float" => Some(Asked::Float),
        "boxes" => Some(Asked::Boxes),
        _ => None,
    }
}

/// What a line asks for, and the length that it names.
fn read_asked(line: &str) -> Option<(Asked, &str)> {
    let (word, numbers) = line.split_once(' ')?;
    let (length, number) = match numbers.split_once(' ') {
        Some((length, number)) => (length, Some(number.parse::<u32>().ok()?)),
        None => (numbers, None),
    };
    let asked = match read_report_kind(word, number.unwrap_or(2)) {
        Some((language, report_kind)) => Asked::Document(language, report_kind),
        None => read_word(word, number.unwrap_or(0))?,
    };
    Some((asked, length))
}

/// The wanted result at the front of `text`, and what follows.
fn read_wanted<'a>(text: &'a str) -> Option<(WantedResult<'a>, &'a str)> {
    let (words, after) = text.split_once('\n')?;
    match words {
        "refused" => Some((WantedResult::Rejected, after)),
        "accepted" => Some((WantedResult::Accepted, after)),
        _ => read_sized_wanted(words, after),
    }
}

/// The same for a result with a length.
fn read_sized_wanted<'a>(words: &str, after: &'a str) -> Option<(WantedResult<'a>, &'a str)> {
    let (word, length) = words.split_once(' ')?;
    let (text, after) = sized(after, length)?;
    match word {
        "ok" => Some((WantedResult::Text(text), after)),
        "refused" => Some((WantedResult::Message(text), after)),
        _ => None,
    }
}

/// What follows the heading at the front of `text`, if there is one.
fn past_heading(text: &str) -> &str {
    match text.split_once('\n') {
        Some((line, after)) if line.starts_with('#') => after,
        _ => text,
    }
}

/// The case at the front of `text`, and what follows. A heading can come before the case.
pub fn next_case<'a>(text: &'a str) -> Option<(Case<'a>, &'a str)> {
    let (line, after) = past_heading(text).split_once('\n')?;
    let (asked, length) = read_asked(line)?;
    let (source, after) = sized(after, length)?;
    let (wanted_result, after) = read_wanted(after)?;
    let case = Case {
        asked,
        source,
        wanted_result,
    };
    Some((case, after))
}
