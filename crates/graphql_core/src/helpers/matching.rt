//! Readers of single tokens. If the next token is another, they return `ReadError::Item` and consume nothing.
ghost use Rattle.std.specs.Prelude.{◌≡◌};
ghost use Rattle.graphql_core.specs.{Spelled, AnyOf, matches, kind_number, class_of, place_of, lexeme_token};
ghost use Rattle.graphql_core.specs.{sees_class, TakesOne};
ghost use Rattle.graphql_core.specs.declared.tokenizer.token.Kind.TheVariants.{Name};

use crate::common::Names;
use crate::helpers::punctuator::Punctuator;
use crate::helpers::read_error::ReadError;
use crate::helpers::source::{Lexeme, TokenSource};
use crate::position::Pos;
use crate::tokenizer::Kind;
use std::alloc::Global;

/// Whether a token is the name with this spelling.
#[inline(always)]
fn is_keyword<S: TokenSource>(token: &Lexeme<S::Text>, spelling: &str) -> bool
    ensures { result ≡ matches (Spelled (kind_number Name) spelling.now) (lexeme_token S.bytes token.now) }
{
    token.kind == Kind::Name && S::as_str(&token.text) == spelling
}

/// Whether the next token is the name with this spelling.
#[inline(always)]
pub fn sees_keyword<S: TokenSource>(source: &S, spelling: &str) -> bool
    ensures { result ≡ sees_class (Spelled (kind_number Name) spelling.now) (S.items source.now) }
{
    match source.peek() {
        Some(token) => is_keyword::<S>(&token, spelling),
        None => false,
    }
}

/// Consumes this punctuator, and returns its position.
#[inline(always)]
pub fn expect_punctuator<S: TokenSource>(
    source: &mut S,
    punctuator: Punctuator,
) -> Result<Pos, ReadError>
    ensures { TakesOne (class_of punctuator) (S.items source.old) (S.items source.new)
        (λ p t. t.place ≡ place_of p) result }
{
    if !source.sees_punctuator(punctuator) {
        return Err(ReadError::Item);
    }
    let position = source.position();
    source.advance();
    Ok(position)
}

/// Consumes the name with this spelling, and returns its position.
#[inline(always)]
pub fn expect_keyword<S: TokenSource>(source: &mut S, spelling: &str) -> Result<Pos, ReadError>
    ensures { TakesOne (Spelled (kind_number Name) spelling.now) (S.items source.old) (S.items source.new)
        (λ p t. t.place ≡ place_of p) result }
{
    match source.peek() {
        Some(token) if is_keyword::<S>(&token, spelling) => {
            source.advance();
            Ok(token.position)
        }
        _ => Err(ReadError::Item),
    }
}

/// Consumes a name, and returns it as the tree stores it.
pub fn expect_name<S: TokenSource>(
    alloc: Global,
    source: &mut S,
) -> Result<<S::Names as Names>::Value, ReadError>
    ensures { TakesOne (AnyOf (kind_number Name)) (S.items source.old) (S.items source.new)
        (λ v t. t.spelling ≡ S.Names.bytes v) result }
{
    match source.peek() {
        Some(token) if source.sees_name() => {
            let name = S::make_name(alloc, token.text)?;
            source.advance();
            Ok(name)
        }
        _ => Err(ReadError::Item),
    }
}
