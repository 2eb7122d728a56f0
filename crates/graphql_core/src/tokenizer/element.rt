//! The first lexical element of an input (October 2021, section 2.1): a token or ignored text.
ghost use Rattle.std.specs.Prelude.{◌≡◌, ◌<◌, ◌≤◌, ◌/◌, length, MatchOption, IfSome};
ghost use Rattle.graphql_core.specs.lexical.{BeginsNone, BeginsWithElement, ignored_kind};

use crate::tokenizer::piece::{byte_at, ignored_of, token_at};
use crate::tokenizer::token::Kind;

/// The kind of a lexical element.
#[derive(Clone, Copy, Debug, PartialEq, Eq)]
pub enum ElementKind {
    /// A token of this kind (section 2.1.6).
    Token(Kind),
    /// A comment (section 2.1.4), with its line end.
    Comment,
    /// Other ignored text (section 2.1.7), one character: a space, a tab, LF, CR, a comma or a byte order mark.
    Ignored,
}

/// The lexical element at the start of an input.
#[derive(Clone, Copy)]
pub struct Element<'a> {
    /// The kind.
    pub kind: ElementKind,
    /// The source slice of the element.
    pub text: &'a str,
    /// The input after the element.
    pub rest: &'a str,
}

/// The kind of ignored text.
fn ignored_kind(ignored: &str) -> ElementKind
    ensures { result ≡ ignored_kind ignored.now }
{
    if byte_at(ignored.as_bytes(), 0) == b'#' {
        ElementKind::Comment
    } else {
        ElementKind::Ignored
    }
}

/// The lexical element at the start of the input, which must have at most `usize::MAX / 16` bytes. Open brackets are
/// not counted.
///
/// `None` if there is none: the input is empty, or it begins with a lexical error.
pub fn first_element(source: &str) -> Option<Element<'_>>
    requires { length source.now ≤ usize.MAX / 16 }
    ensures first { MatchOption result (BeginsNone source.now)
        (λ e. BeginsWithElement source.now e.kind e.text.now e.rest.now) }
    ensures shorter { IfSome result (λ e. length e.rest.now < length source.now) }
{
    if let Some(ignored) = ignored_of(source) {
        let (text, rest) = source.split_at(ignored.len);
        let kind = ignored_kind(text);
        return Some(Element { kind, text, rest });
    }
    let (taken, _) = token_at(source)?;
    let (text, rest) = source.split_at(taken.len);
    let kind = ElementKind::Token(taken.kind);
    Some(Element { kind, text, rest })
}
