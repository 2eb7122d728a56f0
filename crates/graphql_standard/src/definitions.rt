//! The next definition after an error.
ghost use Rattle.std.specs.Prelude.{◌≡◌, ◌≢◌, ◌≤◌, ◌<◌, ◌/◌, ◌↔◌, ◌++◌, [], ◌∷◌, ℕ, List, length, IfOk, IfSome, IsTrue, MatchOption, not, true, false};
ghost use Rattle.graphql_core.specs.{is_in_line, sample};
ghost use Rattle.graphql_core.specs.declared.tokenizer.token.Kind.{Kind};
ghost use Rattle.graphql_core.specs.declared.tokenizer.token.Kind.TheVariants.{Name};
ghost use Rattle.graphql_core.specs.declared.tokenizer.element.ElementKind.TheVariants as element;
ghost use Rattle.graphql_standard.specs.Places.{EndsWith};
ghost use Rattle.graphql_standard.specs.Recognizing.{BeginsDocument};
ghost use Rattle.graphql_standard.specs.Terminals.{IsSpellingOf};
ghost use Rattle.graphql_standard.specs.lexical.Elements.{IsElement, BeginsNoneOf, BeginsWithOneOf};
ghost use Rattle.graphql_standard.specs.AllErrors.{BeginsDefinition, IsFirstToken, StartsLine, is_blank, next_line};
ghost use Rattle.graphql_standard.specs.AllErrors.{HasNoDefinition, IsDefinitionAt, IsNextDefinition};

use crate::recognizer::Recognizer;
use crate::terminal::Terminal;
use crate::tokenizer::{Element, first_element};
use graphql_core::tokenizer::{ElementKind, Kind};
use std::alloc::{AllocError, Global};

/// Whether a byte is a tab, a space or a comma.
fn is_blank(byte: u8) -> bool
    ensures { result ≡ is_blank byte }
{
    matches!(byte, b'\t' | b' ' | b',')
}

/// Whether a byte is LF or CR.
fn is_line_end(byte: u8) -> bool
    ensures { result ≡ not (is_in_line byte) }
{
    byte == b'\n' || byte == b'\r'
}

/// Whether only blanks come after the last line end of a text.
fn starts_line(front: &[u8]) -> bool
    ensures { IsTrue result ↔ StartsLine front.now }
{
    let mut rest = front;
    'bytes: while let Some((last, before)) = rest.split_last() {
        if !is_blank(*last) {
            return is_line_end(*last);
        }
        rest = before;
    }
    true
}

/// The text after its first LF.
fn next_line(text: &str) -> &str
    ensures { result.now ≡ next_line text.now }
{
    match text.split_once('\n') {
        Some((_, rest)) => rest,
        None => "",
    }
}

/// The lexical element of September 2025 at the start of a text.
fn standard_element(text: &str) -> Option<Element<'_>>
    requires { length text.now ≤ usize.MAX / 16 }
    ensures first { MatchOption result (BeginsNoneOf IsElement text.now)
        (λ e. BeginsWithOneOf IsElement text.now e.kind e.text.now e.rest.now) }
    ensures shorter { IfSome result (λ e. length e.rest.now < length text.now) }
{
    match first_element(text) {
        Some(element) if element.is_standard => Some(element),
        _ => None,
    }
}

/// The kind and the spelling of the first token of a text.
fn first_token(text: &str) -> Option<(Kind, &str)>
    requires { length text.now ≤ usize.MAX / 16 }
    ensures { MatchOption result ((k : Kind) (bytes : List ℕ) → IsFirstToken text.now k bytes → ⊥)
        (λ first. IsFirstToken text.now first.0 first.1.now × IsSpellingOf first.0 first.1.now) }
{
    let mut rest = text;
    'elements: while let Some(element) = standard_element(rest) {
        if let ElementKind::Token(kind) = element.kind {
            return Some((kind, element.text));
        }
        rest = element.rest;
    }
    None
}

/// Whether some document begins with these two tokens, of which the first is a name.
fn begin_document(alloc: Global, word: &str, kind: Kind, spelling: &str) -> Result<bool, AllocError>
    requires { IsSpellingOf kind spelling.now }
    ensures { IfOk result (λ is. IsTrue is
        ↔ BeginsDocument (sample Name word.now ∷ sample kind spelling.now ∷ [])) }
{
    let mut recognizer = Recognizer::new(alloc)?;
    if !recognizer.advance(Terminal::of(Kind::Name, word))? {
        return Ok(false);
    }
    recognizer.advance(Terminal::of(kind, spelling))
}

/// Whether elements of a kind are names.
fn is_name(kind: ElementKind) -> bool
    ensures name { result ≡ true → kind ≡ element.Token Name }
    ensures other { result ≡ false → kind ≢ element.Token Name }
{
    matches!(kind, ElementKind::Token(Kind::Name))
}

/// Whether a definition begins the text: its keyword, and a token that can follow it.
fn begins_definition(alloc: Global, text: &str) -> Result<bool, AllocError>
    requires { length text.now ≤ usize.MAX / 16 }
    ensures { IfOk result (λ is. IsTrue is ↔ BeginsDefinition text.now) }
{
    let Some(word) = standard_element(text) else {
        return Ok(false);
    };
    let Some((kind, spelling)) = first_token(word.rest) else {
        return Ok(false);
    };
    if !is_name(word.kind) {
        return Ok(false);
    }
    begin_document(alloc, word.text, kind, spelling)
}

/// Whether at this end of a part of a source a definition begins a line, at this offset in the source or later. The one
/// that begins the part does not count.
fn is_definition(
    alloc: Global,
    source: &str,
    part: &str,
    offset: usize,
    end: &str,
) -> Result<bool, AllocError>
    requires ends { EndsWith source.now end.now }
    requires short { length source.now ≤ usize.MAX / 16 }
    ensures { IfOk result (λ is. IsTrue is ↔ IsDefinitionAt source.now part.now offset end.now) }
{
    let (front, _) = source.split_at(source.len() - end.len());
    if end.len() >= part.len() || front.len() < offset || !starts_line(front.as_bytes()) {
        return Ok(false);
    }
    begins_definition(alloc, end)
}

/// The end of a part of a source with the next definition that begins a line at this offset in the source or later, and
/// after the beginning of the part.
pub fn next_definition<'a>(
    alloc: Global,
    source: &'a str,
    part: &'a str,
    offset: usize,
) -> Result<Option<&'a str>, AllocError>
    requires ends { EndsWith source.now part.now }
    requires short { length source.now ≤ usize.MAX / 16 }
    ensures { IfOk result (λ found. MatchOption found (HasNoDefinition source.now part.now offset)
        (λ end. IsNextDefinition source.now part.now offset end.now)) }
{
    let mut end = part;
    'elements: while !end.is_empty() {
        if is_definition(alloc, source, part, offset, end)? {
            return Ok(Some(end));
        }
        end = match standard_element(end) {
            Some(element) => element.rest,
            None => next_line(end),
        };
    }
    Ok(None)
}
