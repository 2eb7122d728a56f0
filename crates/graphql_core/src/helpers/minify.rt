//! The tokens of an input, with a space between two tokens that are not punctuators, and between a number and `...`.
ghost use Rattle.std.specs.Prelude.{◌≡◌, ◌≤◌, ◌/◌, ℕ, List, IfOk, IfErr, length, string_bytes};
ghost use Rattle.graphql_core.specs.{Token, kind_number, HasItems, Item, IsEnd, split, token_of, AreLexemes, spaced};
ghost use Rattle.graphql_core.specs.{is_number, is_spaced, IsMinified, HasTokens, IsLexicalErrorOf};
ghost use Rattle.graphql_core.specs.declared.position.Pos.{Pos};

use crate::common::Fault;
use crate::format::{Buffer, Sink};
use crate::helpers::cursor::fault_of_bad;
use crate::tokenizer::{Kind, Tokens};
use std::alloc::Global;

#[inline(always)]
fn is_number(kind: Kind) -> bool
    ensures { result ≡ is_number (kind_number kind) }
{
    matches!(kind, Kind::IntValue | Kind::FloatValue)
}

/// Whether a space comes between a token of kind `before` and the next token. The code has no branch on which of the
/// two are punctuators, and seldom one on numbers: few numbers come before a token of three bytes.
#[inline(always)]
pub fn is_spaced(before: Kind, kind: Kind, value: &str) -> bool
    ensures { (at : Pos) → result ≡ is_spaced (kind_number before) (token_of at kind value.now) }
{
    let are_words = (before != Kind::Punctuator) & (kind != Kind::Punctuator);
    are_words | ((is_number(before) & (value.len() == 3)) && value == "...")
}

/// The tokens of an input, joined with the spaces that `is_spaced` names.
///
/// Few inputs gain more spaces than they lose. So the buffer has the capacity of the input from the start, and a long
/// output is not copied as it grows. The loop keeps no positions: after a lexical error the input is tokenized again.
fn spaced(alloc: Global, source: &str) -> Result<String, Fault>
    requires { length source.now ≤ usize.MAX / 16 }
    ensures minified { IfOk result (λ text. IsMinified source.now (string_bytes text)) }
    // An error is the lexical error that ends the tokens, or `OutOfMemory`.
    ensures first_error { (items : List Item) → HasItems source.now items
        → IfErr result (IsLexicalErrorOf (split items)) }
{
    let mut text = Buffer::with_capacity(alloc, source.len())?;
    let mut tokens = Tokens::new(source);
    let mut before = Kind::Punctuator;
    'tokens: loop {
        let from = tokens.rest();
        let token = match tokens.fast_lexeme() {
            Some(token) => token,
            None => {
                let (item, after) = tokens.slow_lexeme();
                tokens = after;
                match item {
                    Ok(Some(token)) => token,
                    Ok(None) => return Ok(text.into_string()),
                    Err(_) => return Err(fault_of_tokens(alloc, Tokens::new(source))),
                }
            }
        };
        text.push_spaced(
            is_spaced(before, token.kind, token.value),
            token.value,
            from,
        )?;
        before = token.kind;
    }
}

/// The `Fault` for the lexical error that ends the tokens, or for `OutOfMemory`.
#[cold]
#[inline(never)]
fn fault_of_tokens(alloc: Global, mut tokens: Tokens<'_>) -> Fault
    requires { IsEnd (split tokens).last → ⊥ }
    ensures { IsLexicalErrorOf (split tokens.entry) result }
{
    'tokens: loop {
        match tokens.next_token() {
            Ok(Some(_)) => {}
            Ok(None) => unreachable!(),
            Err(bad) => return fault_of_bad(alloc, bad, tokens.position()),
        }
    }
}

/// The tokens of an input of at most `usize::MAX / 16` bytes, joined. A space comes between two neighbours that are not
/// punctuators, and between a number and `...`.
pub fn minified(alloc: Global, source: &str) -> Result<String, Fault>
    requires { length source.now ≤ usize.MAX / 16 }
    ensures minified { IfOk result (λ text. IsMinified source.now (string_bytes text)) }
    // The tokens of the output are those of the input, ignoring positions.
    ensures tokens { (items : List Item) → HasItems source.now items
        → IfOk result (λ text. HasTokens (string_bytes text) (split items).tokens) }
    // Minifying is idempotent.
    ensures again { IfOk result (λ text. IsMinified (string_bytes text) (string_bytes text)) }
    // An error is the lexical error that ends the tokens, or `OutOfMemory`.
    ensures first_error { (items : List Item) → HasItems source.now items
        → IfErr result (IsLexicalErrorOf (split items)) }
{
    spaced(alloc, source)
}

/// Tokens joined with these spaces are tokenized into the same tokens.
pub fn spaced_tokens_are_tokenized()
    // Any valid tokens with at most 50 brackets open.
    ensures any { (ts : List Token) → AreLexemes 0 0 ts → HasTokens (spaced ts) ts }
    // Hence the tokens of an input up to its end or its first lexical error.
    ensures of_a_text { (source : List ℕ) (items : List Item) → HasItems source items
        → HasTokens (spaced (split items).tokens) (split items).tokens }
    // An input has at most one minified output. Minifying is idempotent.
    ensures one { (source text other : List ℕ) → IsMinified source text → IsMinified source other → text ≡ other }
    ensures again { (source text : List ℕ) → IsMinified source text → IsMinified text text }
{}
