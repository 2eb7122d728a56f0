//! The tokens of an input.
ghost use Rattle.std.specs.Prelude.{◌≡◌, List, ◌+◌, ◌-◌, ◌*◌, ◌/◌, ◌<◌, ◌≤◌, ◌^◌, length, pos, IfSome, Ok, Some};
ghost use Rattle.std.specs.Prelude.{None};
ghost use Rattle.graphql_core.specs.lexical.Items.{Item, HasItems, depth_of};
ghost use Rattle.graphql_core.specs.lexical.StreamCalls.{NextItem, BeginsWithNext, AreItemsOfRest, next_place};
ghost use Rattle.graphql_core.specs.steps.Ahead.{NextLexeme, NextItemOrLexeme};

use crate::position::Pos;
use crate::tokenizer::bad::bad_at;
use crate::tokenizer::brackets::Brackets;
use crate::tokenizer::ignored::{after_gap, skip_from_blanks, skip_ignored};
use crate::tokenizer::lanes::LANES;
use crate::tokenizer::piece::{
    begins_with_name, fast_token_at, name_in_one_load, punctuator_in_one_load, slow_token_at,
    token_at,
};
use crate::tokenizer::place::{position_after_flat, position_after_token};
use crate::tokenizer::run::{Blanks, BlanksAndFeeds};
use crate::tokenizer::token::{Bad, Kind, Token};
use std::marker::Model;

/// The tokens of an input, one after another, then its end or its first lexical error. `TokenStream` also counts the
/// calls: a loop over `Tokens` keeps no count.
#[derive(Drop)]
pub struct Tokens<'a> {
    rest: &'a str,
    position: Pos,
    // The length of the whole input in bytes.
    size: usize,
    brackets: Brackets,
}

impl<'a> Model for Tokens<'a> {
    ghost use Rattle.std.specs.Prelude.{ℕ, List, ◌+◌, ◌-◌, ◌*◌, ◌<◌, ◌≤◌, ◌^◌, length};
    ghost use Rattle.graphql_core.specs.steps.Front.{front, IsItem};
    ghost use Rattle.graphql_core.specs.steps.ComputedItems.{items};
    ghost use Rattle.graphql_core.specs.lexical.Items.{Item};

    ghost Value = { List Item };

    ghost view = { λ s. items (record {
      position = s.position;
      offset = s.size - length s.rest.now;
      openers = s.brackets.openers;
      closers = s.brackets.closers;
    }) s.rest.now };

    ghost invariant = { λ s. (s.size < 2 ^ 62) × (s.position.line + length s.rest.now < 2 ^ 62)
        × (s.position.column + 8 * length s.rest.now < 2 ^ 63) × (s.brackets.openers + length s.rest.now ≤ s.size)
        × (s.brackets.closers + length s.rest.now ≤ s.size) × IsItem (front s.rest.now)
        × (s.brackets.openers ≤ s.brackets.closers + 50) };
}

impl<'a> Tokens<'a> {
    /// The tokens of `source`, which must have at most `usize::MAX / 16` bytes.
    pub fn new(source: &'a str) -> Self
        requires { length source.now ≤ usize.MAX / 16 }
        ensures items { HasItems source.now result }
        ensures only { (others : List Item) → HasItems source.now others → others ≡ result }
        ensures none_open { depth_of (next_place result) ≡ pos 0 }
    {
        let start = Pos { line: 1, column: 1 };
        let (rest, position) = skip_ignored(source, start);
        Tokens {
            rest,
            position,
            size: source.len(),
            brackets: Brackets {
                openers: 0,
                closers: 0,
            },
        }
    }

    /// Returns the next token, `None` at the end of input, or the lexical error.
    ///
    /// The end and a lexical error are never passed: the next call returns the same.
    #[inline(always)]
    pub fn next_token(&mut self) -> Result<Option<Token<'a>>, Bad<'a>>
        ensures { NextItem self.old result self.new }
    {
        let Some((taken, is_flat)) = token_at(self.rest) else {
            if self.rest.is_empty() {
                return Ok(None);
            }
            return Err(bad_at(self.rest));
        };
        if self.brackets.is_too_deep(taken.nesting) {
            return Err(Bad::TooDeep);
        }
        let (value, after) = self.rest.split_at(taken.len);
        let end = position_after_token(is_flat, value, self.position);
        let (rest, position) = skip_ignored(after, end);
        self.rest = rest;
        self.position = position;
        self.brackets = self.brackets.after(taken.nesting);
        Ok(Some(Token {
            kind: taken.kind,
            value,
        }))
    }

    /// The result of `next_token`, and the tokens after it: the slow path. A loop need not keep the tokens in memory
    /// for this call, because they are passed by value.
    #[inline(never)]
    pub fn slow_token(mut self) -> (Result<Option<Token<'a>>, Bad<'a>>, Self)
        ensures { NextItem self.entry result.0 result.1 }
    {
        let item = self.next_token();
        (item, self)
    }

    /// Returns the next token, if the fast path recognizes it.
    ///
    /// The token is a short name, a punctuator of one character, a nonempty ASCII string without escapes, or a number
    /// without an exponent. More than 16 bytes of input are left.
    ///
    /// `None` says nothing about the next token, and nothing changes: call `next_token`.
    #[inline(always)]
    pub fn fast_token(&mut self) -> Option<Token<'a>>
        ensures item { IfSome result (λ t. NextItem self.old (Ok (Some t)) self.new) }
        ensures stays { result ≡ None → self.new ≡ self.old }
    {
        if self.rest.len() <= LANES {
            return None;
        }
        if begins_with_name(self.rest) {
            let (len, blanks) = name_in_one_load::<Blanks>(self.rest)?;
            let (value, after) = self.rest.split_at(len);
            let end = position_after_flat(value, self.position);
            let (rest, position) = skip_from_blanks(after, blanks, end);
            self.rest = rest;
            self.position = position;
            let kind = Kind::Name;
            return Some(Token { kind, value });
        }
        let taken = fast_token_at(self.rest)?;
        if self.brackets.is_too_deep(taken.nesting) {
            return None;
        }
        let (value, after) = self.rest.split_at(taken.len);
        let end = position_after_flat(value, self.position);
        let (rest, position) = skip_ignored(after, end);
        self.rest = rest;
        self.position = position;
        self.brackets = self.brackets.after(taken.nesting);
        Some(Token {
            kind: taken.kind,
            value,
        })
    }

    /// Returns the next token, if the fast path recognizes it. This call is faster than `fast_token`, because
    /// `position` is not maintained: what `position`, `offset` and `depth` return later is unspecified.
    ///
    /// `None` says nothing about the next token, and nothing changes: call `next_token`.
    #[inline(always)]
    pub fn fast_lexeme(&mut self) -> Option<Token<'a>>
        ensures item { IfSome result (λ t. NextLexeme self.old t self.new) }
        ensures stays { result ≡ None → self.new ≡ self.old }
    {
        if self.rest.len() <= LANES {
            return None;
        }
        if begins_with_name(self.rest) {
            let (len, gap) = name_in_one_load::<BlanksAndFeeds>(self.rest)?;
            let (value, after) = self.rest.split_at(len);
            self.rest = after_gap(after, gap)?;
            let kind = Kind::Name;
            return Some(Token { kind, value });
        }
        if let Some((nesting, gap)) = punctuator_in_one_load(self.rest) {
            if self.brackets.is_too_deep(nesting) {
                return None;
            }
            let (value, after) = self.rest.split_at(1);
            self.rest = after_gap(after, gap)?;
            self.brackets = self.brackets.after(nesting);
            let kind = Kind::Punctuator;
            return Some(Token { kind, value });
        }
        let taken = fast_token_at(self.rest)?;
        if self.brackets.is_too_deep(taken.nesting) {
            return None;
        }
        let (value, after) = self.rest.split_at(taken.len);
        self.rest = after_gap(after, 0)?;
        self.brackets = self.brackets.after(taken.nesting);
        Some(Token {
            kind: taken.kind,
            value,
        })
    }

    /// The result of `next_token`, and the tokens after it: the slow path of `fast_lexeme`. Like `fast_lexeme`, this
    /// call does not maintain `position`.
    #[inline(never)]
    pub fn slow_lexeme(mut self) -> (Result<Option<Token<'a>>, Bad<'a>>, Self)
        ensures { NextItemOrLexeme self.entry result.0 result.1 }
    {
        let Some(taken) = slow_token_at(self.rest) else {
            return self.slow_token();
        };
        if self.brackets.is_too_deep(taken.nesting) {
            return self.slow_token();
        }
        let (value, after) = self.rest.split_at(taken.len);
        self.rest = skip_ignored(after, self.position).0;
        self.brackets = self.brackets.after(taken.nesting);
        let kind = taken.kind;
        (Ok(Some(Token { kind, value })), self)
    }

    /// The position of the next token, of the end of input, or of the lexical error. Ignored text before it is skipped.
    #[inline(always)]
    pub fn position(&self) -> Pos
        ensures { result ≡ (next_place self.now).position }
    {
        self.position
    }

    /// The offset in bytes of the next token, of the end of input, or of the lexical error.
    pub fn offset(&self) -> usize
        ensures { result ≡ (next_place self.now).offset }
    {
        self.size - self.rest.len()
    }

    /// The rest of the input from the next token, end of input or lexical error on.
    #[inline(always)]
    pub fn rest(&self) -> &'a str
        ensures begins { BeginsWithNext self.now result.now }
        ensures items { AreItemsOfRest self.now result.now }
    {
        self.rest
    }

    /// The number of opening brackets less closing brackets before the next token, possibly negative.
    pub fn depth(&self) -> isize
        ensures { result ≡ depth_of (next_place self.now) }
    {
        self.brackets.openers as isize - self.brackets.closers as isize
    }
}
