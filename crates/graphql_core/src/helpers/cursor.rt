//! A `TokenSource` over a `TokenStream`.
ghost use Rattle.std.specs.Prelude.{◌≡◌, ◌≤◌, ◌/◌, ℕ, List, [], IfOk, length};
ghost use Rattle.graphql_core.specs.lexical.StreamCalls.{AreItemsOfRest};
ghost use Rattle.graphql_core.specs.lexical.BadTexts.{bad_text};
ghost use Rattle.graphql_core.specs.lexical.Items.{HasItems, Item, Stream};
ghost use Rattle.graphql_core.specs.sources.Causes.{no_token, cause_text};
ghost use Rattle.graphql_core.specs.steps.Punctuators.{first_byte, front_byte};
ghost use Rattle.graphql_core.specs.steps.Lookahead.{shown};
ghost use Rattle.graphql_core.specs.declared.position.Pos.{Pos};
ghost use Rattle.graphql_core.specs.sources.ParseFailures.{IsNextFault};
ghost use Rattle.graphql_core.specs.sources.Source.{Items, LastIsError};
ghost use Rattle.graphql_core.specs.steps.Sources.{after, held, items_of_stream, items_of_text};
ghost use Rattle.graphql_core.specs.sources.Source.{then_items, token_of, only_last, place_of};

use crate::common::{BadToken, Cause, Fault, Names, Text};
use crate::helpers::punctuator::Punctuator;
use crate::helpers::sizes::is_long;
use crate::helpers::source::{Lexeme, TokenSource};
use crate::position::Pos;
use crate::tokenizer::{Bad, Kind, Token, TokenStream, is_name_start};
use std::alloc::{AllocError, Global};
use std::marker::{Model, PhantomData};

/// What is next in the input.
#[derive(Clone, Copy)]
pub enum Lookahead<'a> {
    /// A token.
    Token,
    /// The end of input.
    End,
    /// A lexical error.
    Error(Bad<'a>),
}

/// A token stream with one token of lookahead.
#[derive(Drop)]
pub struct Cursor<'a, T: Text<'a>> {
    // The stream after the next token.
    stream: TokenStream<'a>,
    // The `cuts` of the stream when the cursor was made.
    first_cuts: usize,
    position: Pos,
    // The next token, or a token with an empty spelling if there is none.
    token: Token<'a>,
    lookahead: Lookahead<'a>,
    // The first byte of the next token, or 0 if there is none.
    front: u8,
    // Whether the rest of the input was long when the cursor was made.
    is_long: bool,
    names: PhantomData<T>,
}

impl<'a, T: Text<'a>> Model for Cursor<'a, T> {
    ghost use Rattle.std.specs.Prelude.{All, ◌≡◌, ◌-◌, ◌≤◌, ◌^◌};
    ghost use Rattle.graphql_core.specs.steps.Punctuators.{front_byte};
    ghost use Rattle.graphql_core.specs.steps.Lookahead.{shown};
    ghost use Rattle.graphql_core.specs.sources.Source.{Items};
    ghost use Rattle.graphql_core.specs.steps.Sources.{IsLexeme};

    ghost Value = { Items };

    ghost view = { λ c. shown c.first_cuts c.position c.token c.lookahead c.stream };

    ghost invariant = { λ c. All IsLexeme (shown c.first_cuts c.position c.token c.lookahead c.stream).tokens
        × (c.front ≡ front_byte (shown c.first_cuts c.position c.token c.lookahead c.stream).tokens)
        × (c.first_cuts ≤ c.stream.cuts) × (c.stream.cuts ≤ 2 ^ 64 - 1) };
}

/// The first byte, or 0 for an empty string.
#[inline(always)]
pub fn first_byte(text: &str) -> u8
    ensures { result ≡ first_byte text.now }
{
    match text.as_bytes().first() {
        Some(byte) => *byte,
        None => 0,
    }
}

/// What a cursor keeps of a result of its stream.
#[inline(always)]
fn kept_of<'a>(returned: Result<Option<Token<'a>>, Bad<'a>>) -> (Token<'a>, Lookahead<'a>)
    ensures items { (n : ℕ) (place : Pos) (left : Stream)
        → shown n place result.0 result.1 left ≡ held n place returned.entry left }
    ensures front { (n : ℕ) (place : Pos) (left : Stream)
        → first_byte result.0.value.now ≡ front_byte (held n place returned.entry left).tokens }
{
    let none = Token {
        kind: Kind::Punctuator,
        value: "",
    };
    match returned {
        Ok(Some(token)) => (token, Lookahead::Token),
        Ok(None) => (none, Lookahead::End),
        Err(bad) => (none, Lookahead::Error(bad)),
    }
}

impl<'a, T: Text<'a>> Cursor<'a, T> {
    /// The tokens of `source`, which must have at most `usize::MAX / 16` bytes.
    pub fn new(source: &'a str) -> Self
        requires { length source.now ≤ usize.MAX / 16 }
        ensures { (items : List Item) → HasItems source.now items → result ≡ items_of_text items }
    {
        Cursor::over(TokenStream::new(source))
    }

    /// The tokens that `stream` has yet to return.
    pub fn over(mut stream: TokenStream<'a>) -> Self
        ensures items { result ≡ items_of_stream stream.entry }
        ensures rest { (text : List ℕ) × AreItemsOfRest stream.entry.items text }
    {
        let first_cuts = stream.cuts();
        let is_long = is_long(stream.rest());
        let position = stream.position();
        let (token, lookahead) = kept_of(stream.next_token());
        Cursor {
            stream,
            first_cuts,
            position,
            token,
            lookahead,
            front: first_byte(token.value),
            is_long,
            names: PhantomData,
        }
    }

    /// Returns the stream. The stream has returned each consumed token, and the token of lookahead.
    pub fn into_stream(self) -> TokenStream<'a>
        ensures more { self.entry.spent.first_cuts ≤ result.cuts }
        ensures within { result.cuts ≤ self.entry.spent.stream.cuts }
        ensures all { self.entry.tokens ≡ [] → result ≡ self.entry.spent.stream }
    {
        self.stream
    }

    /// Advances past a token: the slow path. The end of input and a lexical error are never passed.
    #[inline(never)]
    fn advance_slow(&mut self)
        ensures { self.new ≡ after self.old }
    {
        if let Lookahead::Token = self.lookahead {
            let position = self.stream.position();
            let (token, lookahead) = kept_of(self.stream.next_token());
            self.position = position;
            self.token = token;
            self.lookahead = lookahead;
            self.front = first_byte(token.value);
        }
    }
}

/// The `Fault` for a token that is not allowed at its position, or for `OutOfMemory`.
pub fn fault_of_token(alloc: Global, token: Token<'_>, position: Pos) -> Fault
    ensures { (after : Items)
        → IsNextFault (then_items (token_of position token.entry.kind token.entry.value.now) after) result }
{
    match String::from_str(alloc, token.value) {
        Ok(text) => Fault::at(
            Cause::UnexpectedToken {
                kind: token.kind,
                text,
            },
            position,
        ),
        Err(_) => Fault::out_of_memory(),
    }
}

/// The cause of a lexical error. Fails only if an allocation fails.
fn cause_of(alloc: Global, bad: Bad<'_>) -> Result<Cause, AllocError>
    ensures { IfOk result (λ cause. cause_text cause ≡ no_token (bad_text bad.entry)) }
{
    let token = match bad {
        Bad::Character(character) => BadToken::Character(character),
        Bad::BareDot => BadToken::BareDot,
        Bad::Integer(run) => BadToken::Integer(String::from_str(alloc, run)?),
        Bad::Float(run) => BadToken::Float(String::from_str(alloc, run)?),
        Bad::UnterminatedString => BadToken::UnterminatedString,
        Bad::UnterminatedBlockString => BadToken::UnterminatedBlockString,
        Bad::TooDeep => return Ok(Cause::TooDeep),
    };
    Ok(Cause::BadToken(token))
}

/// The `Fault` for a lexical error, or for `OutOfMemory`.
pub fn fault_of_bad(alloc: Global, bad: Bad<'_>, position: Pos) -> Fault
    ensures { IsNextFault (only_last (LastIsError (place_of position) (no_token (bad_text bad.entry)))) result }
{
    match cause_of(alloc, bad) {
        Ok(cause) => Fault::at(cause, position),
        Err(_) => Fault::out_of_memory(),
    }
}

impl<'a, T: Text<'a>> TokenSource for Cursor<'a, T> {
    type Text = &'a str;

    type Names = T;

    ghost bytes = { λ t. t.now };

    ghost items = { λ c. c };

    #[inline(always)]
    fn peek(&self) -> Option<Lexeme<&'a str>> {
        match self.lookahead {
            Lookahead::Token => Some(Lexeme {
                kind: self.token.kind,
                text: self.token.value,
                position: self.position,
            }),
            _ => None,
        }
    }

    #[inline(always)]
    fn sees_punctuator(&self, punctuator: Punctuator) -> bool {
        self.front == punctuator.first_byte()
    }

    #[inline(always)]
    fn sees_name(&self) -> bool {
        is_name_start(self.front)
    }

    #[inline(always)]
    fn sees_string(&self) -> bool {
        self.front == b'"'
    }

    #[inline(always)]
    fn position(&self) -> Pos {
        self.position
    }

    #[inline(always)]
    fn is_at_end(&self) -> bool {
        matches!(self.lookahead, Lookahead::End)
    }

    #[inline(always)]
    fn is_long(&self) -> bool {
        self.is_long
    }

    #[inline(never)]
    fn advance(&mut self) {
        if let Lookahead::Token = self.lookahead {
            self.position = self.stream.position();
            match self.stream.fast_token() {
                Some(token) => {
                    self.token = token;
                    self.front = first_byte(token.value);
                }
                None => self.advance_slow(),
            }
        }
    }

    #[cold]
    #[inline(never)]
    fn fault(&self, alloc: Global) -> Fault {
        match self.lookahead {
            Lookahead::Token => fault_of_token(alloc, self.token, self.position),
            Lookahead::End => Fault::at(Cause::UnexpectedEnd, self.position),
            Lookahead::Error(bad) => fault_of_bad(alloc, bad, self.position),
        }
    }

    fn as_str<'v>(text: &'v &'a str) -> &'v str {
        *text
    }

    fn make_name(alloc: Global, text: &'a str) -> Result<<T as Names>::Value, AllocError> {
        T::make(alloc, text)
    }
}
