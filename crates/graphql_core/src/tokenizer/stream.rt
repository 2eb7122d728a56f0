//! A stream of tokens that counts its calls.
ghost use Rattle.std.specs.Prelude.{◌≡◌, List, Some, None, Ok, IfSome, ◌/◌, ◌≤◌, length, pos};
ghost use Rattle.graphql_core.specs.lexical.Items.{Item, HasItems, depth_of};
ghost use Rattle.graphql_core.specs.lexical.StreamCalls.{NextItem, next_place, one_more, AreItemsOfRest};

use crate::position::Pos;
use crate::tokenizer::token::{Bad, Token};
use crate::tokenizer::tokens::Tokens;
use std::marker::Model;

/// The count plus one, or `usize::MAX` if the count has reached it.
#[inline(always)]
fn one_more(cuts: usize) -> usize
    ensures { result ≡ one_more cuts }
{
    cuts.saturating_add(1)
}

/// The tokens of an input, one after another, then its end or its first lexical error. The stream also counts the items
/// that are requested: see `cuts`.
#[derive(Drop)]
pub struct TokenStream<'a> {
    tokens: Tokens<'a>,
    cuts: usize,
}

impl<'a> Model for TokenStream<'a> {
    ghost use Rattle.graphql_core.specs.lexical.Items.{Stream};

    ghost Value = { Stream };

    ghost view = { λ s. record { items = s.tokens; cuts = s.cuts } };
}

impl<'a> TokenStream<'a> {
    /// The tokens of `source`, which must have at most `common::MAX_LENGTH` (`usize::MAX / 16`) bytes.
    pub fn new(source: &'a str) -> Self
        requires { length source.now ≤ usize.MAX / 16 }
        ensures items { HasItems source.now result.items }
        ensures only { (others : List Item) → HasItems source.now others → others ≡ result.items }
        // no bracket is open
        ensures none_open { depth_of (next_place result.items) ≡ pos 0 }
        ensures cuts { result.cuts ≡ 0 }
    {
        TokenStream {
            tokens: Tokens::new(source),
            cuts: 0,
        }
    }

    /// Returns the next token, `None` at the end of input, or the lexical error.
    ///
    /// The end and a lexical error are never passed: the next call returns the same.
    #[inline(always)]
    pub fn next_token(&mut self) -> Result<Option<Token<'a>>, Bad<'a>>
        ensures item { NextItem self.old.items result self.new.items }
        ensures cuts { self.new.cuts ≡ one_more self.old.cuts }
    {
        self.cuts = one_more(self.cuts);
        self.tokens.next_token()
    }

    /// Returns the next token, if the fast path of `Tokens` recognizes it. `None` says nothing about the next token,
    /// and nothing changes: call `next_token`.
    #[inline(always)]
    pub(crate) fn fast_token(&mut self) -> Option<Token<'a>>
        ensures item { IfSome result (λ t. NextItem self.old.items (Ok (Some t)) self.new.items) }
        ensures cuts { IfSome result (λ t. self.new.cuts ≡ one_more self.old.cuts) }
        ensures stays { result ≡ None → self.new ≡ self.old }
    {
        let token = self.tokens.fast_token()?;
        self.cuts = one_more(self.cuts);
        Some(token)
    }

    /// The position of the next token, of the end of input, or of the lexical error. Ignored text before it is skipped.
    #[inline(always)]
    pub fn position(&self) -> Pos
        ensures { result ≡ (next_place self.now.items).position }
    {
        self.tokens.position()
    }

    /// The offset in bytes of the next token, of the end of input, or of the lexical error.
    pub fn offset(&self) -> usize
        ensures { result ≡ (next_place self.now.items).offset }
    {
        self.tokens.offset()
    }

    /// The rest of the input from the next token, end of input or lexical error on.
    pub(crate) fn rest(&self) -> &'a str
        ensures { AreItemsOfRest self.now.items result.now }
    {
        self.tokens.rest()
    }

    /// The number of opening brackets less closing brackets before the next token, possibly negative.
    pub fn depth(&self) -> isize
        ensures { result ≡ depth_of (next_place self.now.items) }
    {
        self.tokens.depth()
    }

    /// Returns how many items were requested, at most `usize::MAX`: by `next_token`, and by `parse_query_from` and
    /// `parse_schema_from`. An item is a token, the end of the input or the lexical error.
    pub fn cuts(&self) -> usize
        ensures { result ≡ self.now.cuts }
    {
        self.cuts
    }
}
