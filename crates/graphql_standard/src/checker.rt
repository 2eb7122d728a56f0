//! Checks a source, without a parse tree.
ghost use Rattle.std.specs.Prelude.{◌≡◌, ◌<◌, ◌≤◌, ◌++◌, ℕ, List, [], length, replicate, slice_index, MatchResult};
ghost use Rattle.std.specs.Prelude.{IfOk, IfSome, IsErrOf};
ghost use Rattle.std.specs.Str.{chars};
ghost use Rattle.std.specs.Char.{len_utf8};
ghost use Rattle.graphql_core.specs.{Piece, Token, sample, max_length};
ghost use Rattle.graphql_standard.specs.Terminals.{IsSpellingOf};
ghost use Rattle.graphql_standard.specs.Places.{IsPlaceBefore};
ghost use Rattle.graphql_standard.specs.lexical.Elements.{IsElement, BeginsNoneOf};
ghost use Rattle.graphql_standard.specs.Recognizing.{IsDocument, HasRead};
ghost use Rattle.graphql_standard.specs.Checking.{ChecksStandard, ChecksNext, HasChecked, HasCheckedTokens};
ghost use Rattle.graphql_standard.specs.Checking.{IsCheckError, IsChecking, IsExpectedAfter, BeginsWithAll, left};
ghost use Rattle.graphql_standard.specs.Checking.{space, tokens_of};
ghost use Rattle.graphql_standard.specs.declared.error.CheckError.TheVariants as error;
ghost use Rattle.graphql_standard.specs.steps.Checking.{HasFront, HasSameRest, ReadsToken};

use crate::brackets::Brackets;
use crate::error::{CheckError, Found, SyntaxError};
use crate::place::Place;
use crate::recognizer::Recognizer;
use crate::terminal::Terminal;
use crate::tokenizer::{Element, first_element};
use graphql_core::common::MAX_LENGTH;
use graphql_core::tokenizer::{ElementKind, Kind};
use std::alloc::Global;

/// Checks the lexical elements of a source in order.
#[derive(Drop)]
pub struct Checker<'a> {
    /// What has read the tokens so far.
    recognizer: Recognizer,
    /// The brackets of these tokens.
    brackets: Brackets,
    /// How many brackets can be open.
    limit: usize,
    /// The whole source.
    source: &'a str,
    /// The source after the elements so far.
    rest: &'a str,
}

/// The number of bytes of the first character.
fn first_len(text: &str) -> usize
    requires { 0 < length text.now }
    ensures { result ≡ len_utf8 (slice_index (chars text.now) 0) }
{
    text.chars().next().unwrap().len_utf8()
}

/// The number of spaces that a text begins with, and the text after them.
fn after_spaces(text: &str) -> (usize, &str)
    ensures { text.now ≡ replicate result.0 32 ++ result.1.now }
{
    let mut count = 0usize;
    let mut rest = text;
    'spaces: while let Some(after) = rest.strip_prefix(' ') {
        count += 1;
        rest = after;
    }
    (count, rest)
}

impl<'a> Checker<'a> {
    /// Returns a checker that has read no element. The error is `TooLong` or `OutOfMemory`.
    pub fn new(alloc: Global, source: &'a str, limit: usize) -> Result<Checker<'a>, CheckError>
        ensures checked { MatchResult result (HasChecked limit source.now []) (IsCheckError limit source.now) }
        ensures too_long { max_length < length source.now → IsErrOf result error.TooLong }
    {
        if source.len() > MAX_LENGTH {
            return Err(CheckError::TooLong);
        }
        let recognizer = Recognizer::new(alloc)?;
        let brackets = Brackets {
            openers: 0,
            closers: 0,
        };
        Ok(Checker {
            recognizer,
            brackets,
            limit,
            source,
            rest: source,
        })
    }

    /// The error after the elements so far.
    fn error(&self, found: Found, len: usize) -> SyntaxError
        requires { HasFront self.now }
        ensures place { IsPlaceBefore self.now.source.now self.now.rest.now result.place }
        ensures found { result.found ≡ found }
        ensures len { result.len ≡ len }
        ensures expected { (ts : List Token) → HasRead ts self.now.recognizer → IsExpectedAfter ts result.expected }
    {
        SyntaxError {
            place: Place::before(self.source, self.rest),
            len,
            found,
            expected: self.recognizer.expected(),
        }
    }

    /// Reads a token. After an error nothing more can be read.
    fn read(&mut self, kind: Kind, spelling: &str) -> Result<(), CheckError>
        requires front { HasFront self.old }
        requires openers { self.old.brackets.openers < usize.MAX }
        requires closers { self.old.brackets.closers < usize.MAX }
        ensures token { (limit : ℕ) (ts : List Token) → HasCheckedTokens limit ts self.old → IsSpellingOf kind spelling.now
            → ReadsToken limit ts (sample kind spelling.now) result self.new }
        ensures same { HasSameRest self.old self.new }
    {
        let terminal = Terminal::of(kind, spelling);
        if !self.recognizer.advance(terminal)? {
            return Err(CheckError::Syntax(self.error(Found::Token(terminal), spelling.len())));
        }
        match self.brackets.after(kind, spelling, self.limit) {
            Some(brackets) => self.brackets = brackets,
            None => return Err(CheckError::TooDeep(Place::before(self.source, self.rest))),
        }
        Ok(())
    }

    /// Returns an error unless the elements so far are the whole source, and a document. No element must follow them.
    fn end(&self) -> Result<(), CheckError>
        requires { HasFront self.now }
        ensures { (limit : ℕ) (source : List ℕ) (ps : List Piece) → HasChecked limit source ps self.now
            → BeginsNoneOf IsElement self.now.rest.now
            → MatchResult result (λ _. BeginsWithAll source ps [] × IsDocument (tokens_of ps)) (IsCheckError limit source) }
    {
        if !self.rest.is_empty() {
            let len = first_len(self.rest);
            Err(CheckError::Syntax(self.error(Found::LexicalError, len)))
        } else if self.recognizer.is_complete() {
            Ok(())
        } else {
            Err(CheckError::Syntax(self.error(Found::EndOfInput, 0)))
        }
    }

    /// Reads the spaces that come next, and returns how many these are.
    pub fn skip_spaces(&mut self) -> usize
        ensures spaces { (limit : ℕ) (source : List ℕ) (ps : List Piece) → HasChecked limit source ps self.old
            → HasChecked limit source (ps ++ replicate result space) self.new }
        ensures left { left self.new ≤ left self.old }
    {
        let (count, rest) = after_spaces(self.rest);
        self.rest = rest;
        count
    }

    /// Reads the next lexical element, and returns it. `None` if the whole source is read, and is a document. After an
    /// error, which is that of the source, nothing more can be read.
    pub fn next_element(&mut self) -> Result<Option<Element<'a>>, CheckError>
        requires { IsChecking self.old }
        ensures next { (limit : ℕ) (source : List ℕ) (ps : List Piece) → HasChecked limit source ps self.old
            → ChecksNext limit source ps result self.new }
        ensures left { IfOk result (λ o. IfSome o (λ _. left self.new < left self.old)) }
    {
        let Some(element) = first_element(self.rest) else {
            self.end()?;
            return Ok(None);
        };
        if !element.is_standard {
            let len = first_len(self.rest);
            return Err(CheckError::Syntax(self.error(Found::LexicalError, len)));
        }
        if let ElementKind::Token(kind) = element.kind {
            self.read(kind, element.text)?;
        }
        self.rest = element.rest;
        Ok(Some(element))
    }
}

/// Checks that a source is a document of the GraphQL specification of September 2025 (section Document), in which at
/// most `limit` brackets are open.
pub fn check(alloc: Global, source: &str, limit: usize) -> Result<(), CheckError>
    ensures { ChecksStandard limit source.now result }
{
    let mut checker = Checker::new(alloc, source, limit)?;
    'elements: while checker.next_element()?.is_some() {}
    Ok(())
}
