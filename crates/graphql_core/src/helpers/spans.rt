//! A `TokenSource` that tokenizes the whole input before the first token is read.
ghost use Rattle.std.specs.Prelude.{◌≡◌, ℕ, ◌+◌, ◌≤◌, ◌<◌, ◌*◌, ◌/◌, ◌^◌, List, All, IfOk, length, map, drop, vec_len};
ghost use Rattle.std.specs.Prelude.{vec_capacity};
ghost use Rattle.graphql_core.specs.lexical.Items.{HasItems, Item};
ghost use Rattle.graphql_core.specs.sources.Source.{split};
ghost use Rattle.graphql_core.specs.steps.Sources.{after};
ghost use Rattle.graphql_core.specs.steps.Punctuators.{first_byte, front_byte};
ghost use Rattle.graphql_core.specs.steps.Spans.{Marks, span_token, IsLeft, IsLast, AreAppended, HasSpans};

use crate::common::{Cause, Fault, Names, Text};
use crate::helpers::cursor::{fault_of_bad, fault_of_token, first_byte};
use crate::helpers::punctuator::Punctuator;
use crate::helpers::sizes::is_long;
use crate::helpers::source::{Lexeme, TokenSource};
use crate::helpers::span::{Span, Width};
use crate::position::Pos;
use crate::tokenizer::{Bad, Token, Tokens, is_name_start};
use std::alloc::{AllocError, Global};
use std::marker::{Model, PhantomData};

/// The tokens of an input, up to its end or its first lexical error.
#[derive(Drop)]
struct Spans<'a, W: Width> {
    tokens: Vec<Span<W>>,
    // The position of the end of input or of the lexical error.
    end: Pos,
    bad: Option<Bad<'a>>,
}

/// The tokens of an input that are left.
#[derive(Drop)]
pub struct SpanSource<'a, T: Text<'a>, W: Width> {
    text: &'a str,
    spans: Spans<'a, W>,
    // How many of the tokens are consumed.
    taken: usize,
    // The first byte of the next token, or 0 if there is none.
    front: u8,
    names: PhantomData<T>,
}

impl<'a, T: Text<'a>, W: Width> Model for SpanSource<'a, T, W> {
    ghost use Rattle.std.specs.Prelude.{All, ◌≡◌, ◌≤◌, map, drop, vec_len};
    ghost use Rattle.graphql_core.specs.sources.Source.{Items};
    ghost use Rattle.graphql_core.specs.steps.Punctuators.{front_byte};
    ghost use Rattle.graphql_core.specs.steps.Spans.{Marks, span_token, span_items, last_at};

    ghost Value = { Items };

    ghost view = { λ s. span_items W.number s.text.now (drop s.taken s.spans.tokens.items)
        (last_at s.spans.end s.spans.bad) };

    ghost invariant = { λ s. All (Marks W.number s.text.now) s.spans.tokens.items
        × (s.front ≡ front_byte (map (span_token W.number s.text.now) (drop s.taken s.spans.tokens.items)))
        × (s.taken ≤ vec_len s.spans.tokens) };
}

/// The span of a token with this byte offset and position.
#[inline(always)]
fn span_of<W: Width>(start: usize, position: Pos, token: Token<'_>) -> Span<W>
    requires small { start + length token.value.now < 2 ^ 64 }
    requires end { start + length token.value.now ≤ W.most }
    requires line { position.line ≤ W.most }
    requires column { position.column ≤ W.most }
    ensures kind { result.kind ≡ token.entry.kind }
    ensures front { result.front ≡ first_byte token.entry.value.now }
    ensures start { W.number result.start ≡ start }
    ensures end { W.number result.end ≡ start + length token.entry.value.now }
    ensures line { W.number result.line ≡ position.line }
    ensures column { W.number result.column ≡ position.column }
{
    Span {
        kind: token.kind,
        front: first_byte(token.value),
        start: W::narrow(start),
        end: W::narrow(start + token.value.len()),
        line: W::narrow(position.line),
        column: W::narrow(position.column),
    }
}

/// Appends the spans of the next tokens to `spans`, up to its capacity. Returns the tokens after them, and the lexical
/// error if it stopped at one.
fn append<'a, W: Width>(
    mut tokens: Tokens<'a>,
    spans: &mut Vec<Span<W>>,
) -> (Tokens<'a>, Option<Bad<'a>>)
    requires left { (text : List ℕ) × IsLeft W.most text tokens }
    ensures appends { (text : List ℕ) → IsLeft W.most text tokens.entry
        → AreAppended W.number W.most text tokens.entry spans.old.items spans.new.items result.0 }
    ensures count { length spans.new.items + length result.0 ≡ length spans.old.items + length tokens.entry }
    ensures last { vec_len spans.new < vec_capacity spans.new → IsLast result.0 result.1 }
    ensures capacity { vec_capacity spans.new ≡ vec_capacity spans.old }
{
    'tokens: while spans.len() < spans.capacity() {
        let start = tokens.offset();
        let position = tokens.position();
        let token = match tokens.fast_token() {
            Some(token) => token,
            None => {
                let (item, after) = tokens.slow_token();
                tokens = after;
                match item {
                    Ok(Some(token)) => token,
                    Ok(None) => return (tokens, None),
                    Err(bad) => return (tokens, Some(bad)),
                }
            }
        };
        let span = span_of(start, position, token);
        spans.push_reserved(span);
    }
    (tokens, None)
}

/// Tokenizes the whole of `text`.
fn tokenize<W: Width>(alloc: Global, text: &str) -> Result<Spans<'_, W>, AllocError>
    requires small { length text.now ≤ usize.MAX / 16 }
    requires narrow { 8 * length text.now < W.most }
    ensures { (items : List Item) → HasItems text.now items
        → IfOk result (λ s. HasSpans W.number text.now (split items) s.tokens.items s.end s.bad) }
{
    let mut spans = Vec::with_capacity(alloc, text.len() / 4 + 1)?;
    let mut tokens = Tokens::new(text);
    'batches: loop {
        let (after, bad) = append(tokens, &mut spans);
        if spans.len() < spans.capacity() {
            let end = after.position();
            return Ok(Spans {
                tokens: spans,
                end,
                bad,
            });
        }
        tokens = after;
        spans.reserve(spans.len())?;
    }
}

/// The first byte of the token after the first `taken` tokens, or 0 if there is none.
fn front_of<W: Width>(spans: &[Span<W>], taken: usize) -> u8
    ensures { (text : List ℕ) → All (Marks W.number text) spans.now
        → result ≡ front_byte (map (span_token W.number text) (drop taken spans.now)) }
{
    match spans.get(taken) {
        Some(span) => span.front,
        None => 0,
    }
}

impl<'a, T: Text<'a>, W: Width> SpanSource<'a, T, W> {
    /// The tokens of `text`, which must have at most `usize::MAX / 16` bytes and fewer than an eighth of the largest
    /// value of `W`.
    pub fn new(alloc: Global, text: &'a str) -> Result<Self, AllocError>
        requires small { length text.now ≤ usize.MAX / 16 }
        requires narrow { 8 * length text.now < W.most }
        ensures { (items : List Item) → HasItems text.now items → IfOk result (λ s. s ≡ split items) }
    {
        let spans = tokenize(alloc, text)?;
        let front = front_of(spans.tokens.as_slice(), 0);
        Ok(SpanSource {
            text,
            spans,
            taken: 0,
            front,
            names: PhantomData,
        })
    }
}

#[inline(always)]
fn spelling<'a, W: Width>(text: &'a str, span: Span<W>) -> &'a str
    requires { Marks W.number text.now span }
    ensures { result.now ≡ (span_token W.number text.now span).spelling }
{
    let start = span.start.wide();
    let len = span.end.wide() - start;
    text.split_at(start).1.split_at(len).0
}

#[inline(always)]
fn position_of<W: Width>(span: Span<W>) -> Pos
    ensures line { result.line ≡ W.number span.line }
    ensures column { result.column ≡ W.number span.column }
{
    Pos {
        line: span.line.wide(),
        column: span.column.wide(),
    }
}

impl<'a, T: Text<'a>, W: Width> TokenSource for SpanSource<'a, T, W> {
    type Text = &'a str;

    type Names = T;

    ghost bytes = { λ t. t.now };

    ghost items = { λ s. s };

    #[inline(always)]
    fn peek(&self) -> Option<Lexeme<&'a str>> {
        let span = *self.spans.tokens.get(self.taken)?;
        Some(Lexeme {
            kind: span.kind,
            text: spelling(self.text, span),
            position: position_of(span),
        })
    }

    #[inline(always)]
    fn sees_punctuator(&self, punctuator: Punctuator) -> bool {
        self.front == punctuator.first_byte()
    }

    #[inline(always)]
    fn sees_name(&self) -> bool {
        is_name_start(self.front)
    }

    #[inline(always)]
    fn sees_string(&self) -> bool {
        self.front == b'"'
    }

    #[inline(always)]
    fn position(&self) -> Pos {
        match self.spans.tokens.get(self.taken) {
            Some(span) => position_of(*span),
            None => self.spans.end,
        }
    }

    #[inline(always)]
    fn is_at_end(&self) -> bool {
        self.taken == self.spans.tokens.len() && self.spans.bad.is_none()
    }

    #[inline(always)]
    fn is_long(&self) -> bool {
        is_long(self.text)
    }

    #[inline(always)]
    fn advance(&mut self) {
        let next = self.taken + 1;
        match self.spans.tokens.get(next) {
            Some(span) => {
                self.front = span.front;
                self.taken = next;
            }
            None => {
                self.front = 0;
                self.taken = self.spans.tokens.len();
            }
        }
    }

    #[cold]
    #[inline(never)]
    fn fault(&self, alloc: Global) -> Fault {
        match self.spans.tokens.get(self.taken) {
            Some(span) => {
                let token = Token {
                    kind: span.kind,
                    value: spelling(self.text, *span),
                };
                fault_of_token(alloc, token, position_of(*span))
            }
            None => match self.spans.bad {
                None => Fault::at(Cause::UnexpectedEnd, self.spans.end),
                Some(bad) => fault_of_bad(alloc, bad, self.spans.end),
            },
        }
    }

    fn as_str<'v>(text: &'v &'a str) -> &'v str {
        *text
    }

    fn make_name(alloc: Global, text: &'a str) -> Result<<T as Names>::Value, AllocError> {
        T::make(alloc, text)
    }
}
