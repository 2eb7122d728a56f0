//! The first lexical element of an input (September 2025, section 2.1): a token or ignored text.
ghost use Rattle.std.specs.Prelude.{◌≡◌, ◌<◌, ◌≤◌, ◌/◌, true, false, length, MatchOption, IfSome, IfNone};
ghost use Rattle.graphql_standard.specs.lexical.Elements.{IsElement, IsEither, BeginsNoneOf, BeginsWithOneOf};
ghost use Rattle.graphql_standard.specs.steps.Numbers.{BeginsNoNumber};
ghost use Rattle.graphql_standard.specs.steps.Spellings.{IsStandardSpelling};

use crate::tokenizer::number::{ends_in_digit, number};
use crate::tokenizer::string::is_string;
use graphql_core::tokenizer::{self as core_tokenizer, ElementKind, Kind};

/// The lexical element at the start of an input.
#[derive(Clone, Copy)]
pub struct Element<'a> {
    /// The kind.
    pub kind: ElementKind,
    /// The source slice of the element.
    pub text: &'a str,
    /// The input after the element.
    pub rest: &'a str,
    /// Whether the element is one of September 2025. If not, only `graphql_core` reads it.
    pub is_standard: bool,
}

/// Whether an element of `graphql_core` is one of September 2025.
fn is_standard(kind: ElementKind, text: &str) -> bool
    ensures standard { result ≡ true → IsStandardSpelling kind text.now }
    ensures other { result ≡ false → IsStandardSpelling kind text.now → ⊥ }
{
    match kind {
        ElementKind::Token(Kind::IntValue | Kind::FloatValue) => ends_in_digit(text.as_bytes()),
        ElementKind::Token(Kind::StringValue) => is_string(text),
        _ => true,
    }
}

/// The number of September 2025 at the start of the input.
fn first_number(source: &str) -> Option<Element<'_>>
    ensures number { IfSome result (λ e. BeginsWithOneOf IsElement source.now e.kind e.text.now e.rest.now) }
    ensures standard { IfSome result (λ e. e.is_standard ≡ true) }
    ensures shorter { IfSome result (λ e. length e.rest.now < length source.now) }
    ensures none { IfNone result (BeginsNoNumber source.now) }
{
    let (len, kind) = number(source.as_bytes())?;
    let (text, rest) = source.split_at(len);
    let kind = ElementKind::Token(kind);
    let is_standard = true;
    Some(Element {
        kind,
        text,
        rest,
        is_standard,
    })
}

/// The lexical element at the start of the input, which must have at most `usize::MAX / 16` bytes. Open brackets are
/// not counted.
///
/// The element is one of September 2025, or one that only `graphql_core` reads: a number whose exponent has a sign and
/// no digits, or a string with a CR or an invalid escape. `None` if neither grammar has one: the input is empty, or it
/// begins with a lexical error of both.
pub fn first_element(source: &str) -> Option<Element<'_>>
    requires { length source.now ≤ usize.MAX / 16 }
    ensures first { MatchOption result (BeginsNoneOf IsEither source.now)
        (λ e. BeginsWithOneOf IsEither source.now e.kind e.text.now e.rest.now) }
    ensures standard { IfSome result (λ e. e.is_standard ≡ true
        → BeginsWithOneOf IsElement source.now e.kind e.text.now e.rest.now) }
    ensures not_standard { IfSome result (λ e. e.is_standard ≡ false → BeginsNoneOf IsElement source.now) }
    ensures shorter { IfSome result (λ e. length e.rest.now < length source.now) }
{
    match core_tokenizer::first_element(source) {
        None => first_number(source),
        Some(element) => {
            let is_standard = is_standard(element.kind, element.text);
            let (kind, text, rest) = (element.kind, element.text, element.rest);
            Some(Element {
                kind,
                text,
                rest,
                is_standard,
            })
        }
    }
}
