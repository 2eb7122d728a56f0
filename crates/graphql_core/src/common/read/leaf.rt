//! Readers of values that are one token.
ghost use Rattle.std.specs.Prelude.{◌≡◌, IfOk, string_bytes};
ghost use Rattle.graphql_core.specs.{One, Sym, shared, any, plain_symbol};
ghost use Rattle.graphql_core.specs.{Gives, Shows, word_of, int_of, string_of};
ghost use Rattle.graphql_core.specs.{block_string_of, spelling_at, plain_of, value_view};
ghost use Rattle.graphql_core.specs.declared.tokenizer.token.Kind.TheVariants.{IntValue, FloatValue, StringValue};
ghost use Rattle.graphql_core.specs.declared.tokenizer.token.Kind.TheVariants.{BlockString};

use crate::common::tree::Value;
use crate::common::{FloatLiteral, Number, UnquoteError, unquote_block_string, unquote_string};
use crate::helpers::{Lexeme, ReadError, TokenSource};
use crate::tokenizer::Kind;
use std::alloc::{AllocError, Global};

/// Returns the next token, without consuming it, if it is of this kind.
pub fn next_of<S: TokenSource>(source: &S, kind: Kind) -> Result<Lexeme<S::Text>, ReadError>
    ensures { Shows S.bytes kind (S.items source.now) result }
{
    match source.peek() {
        Some(token) if token.kind == kind => Ok(token),
        _ => Err(ReadError::Item),
    }
}

/// `Int`
#[tactic(auto, using(crate::proofs::readers::Reading::reader_steps))]
fn int_value<S: TokenSource>(source: &mut S) -> Result<Number, ReadError>
    ensures { Gives shared (One (any IntValue)) (S.items source.old) (S.items source.new)
        (λ v x. v ≡ int_of (spelling_at x)) result }
{
    let token = next_of(source, Kind::IntValue)?;
    let Ok(value) = S::as_str(&token.text).parse::<i64>() else {
        return Err(ReadError::Integer);
    };
    source.advance();
    Ok(Number::from_i64(value))
}

/// `Float`
#[tactic(auto, using(crate::proofs::readers::Reading::reader_steps))]
fn float_value<S: TokenSource>(alloc: Global, source: &mut S) -> Result<FloatLiteral, ReadError>
    ensures { Gives shared (One (any FloatValue)) (S.items source.old) (S.items source.new)
        (λ v x. v ≡ spelling_at x) result }
{
    let token = next_of(source, Kind::FloatValue)?;
    let text = String::from_str(alloc, S::as_str(&token.text))?;
    let Ok(value) = FloatLiteral::new(text) else {
        return Err(ReadError::Float);
    };
    source.advance();
    Ok(value)
}

/// `String`
#[tactic(auto, using(crate::proofs::readers::Reading::reader_steps))]
pub fn string_value<S: TokenSource>(alloc: Global, source: &mut S) -> Result<String, ReadError>
    ensures { Gives shared (One (any StringValue)) (S.items source.old) (S.items source.new)
        (λ v x. string_bytes v ≡ string_of (spelling_at x)) result }
{
    let token = next_of(source, Kind::StringValue)?;
    match unquote_string(alloc, S::as_str(&token.text)) {
        Ok(value) => {
            source.advance();
            Ok(value)
        }
        Err(UnquoteError::BadEscape) => Err(ReadError::Escape),
        Err(UnquoteError::OutOfMemory) => Err(ReadError::Memory),
    }
}

/// `Block`
#[tactic(auto, using(crate::proofs::readers::Reading::reader_steps))]
pub fn block_string_value<S: TokenSource>(
    alloc: Global,
    source: &mut S,
) -> Result<String, ReadError>
    ensures { Gives shared (One (any BlockString)) (S.items source.old) (S.items source.new)
        (λ v x. string_bytes v ≡ block_string_of (spelling_at x)) result }
{
    let token = next_of(source, Kind::BlockString)?;
    let value = unquote_block_string(alloc, S::as_str(&token.text))?;
    source.advance();
    Ok(value)
}

/// The value of a name: a boolean, `null` or an enum value.
fn word_value<S: TokenSource>(alloc: Global, text: S::Text) -> Result<Value<S::Names>, AllocError>
    ensures { IfOk result (λ v. value_view S.Names.bytes v ≡ word_of (S.bytes text)) }
{
    match S::as_str(&text) {
        "true" => Ok(Value::Boolean(true)),
        "false" => Ok(Value::Boolean(false)),
        "null" => Ok(Value::Null),
        _ => Ok(Value::Enum(S::make_name(alloc, text)?)),
    }
}

/// `Plain = "true" | "false" | "null" | EnumName | Int | Float | String | Block`
#[tactic(auto, using(crate::proofs::readers::Reading::reader_steps))]
pub fn plain_value<S: TokenSource>(
    alloc: Global,
    source: &mut S,
) -> Result<Value<S::Names>, ReadError>
    ensures { Gives shared (Sym plain_symbol) (S.items source.old) (S.items source.new)
        (λ v x. value_view S.Names.bytes v ≡ plain_of x) result }
{
    let Some(token) = source.peek() else {
        return Err(ReadError::Item);
    };
    match token.kind {
        Kind::Name => {
            let value = word_value::<S>(alloc, token.text)?;
            source.advance();
            Ok(value)
        }
        Kind::IntValue => Ok(Value::Int(int_value(source)?)),
        Kind::FloatValue => Ok(Value::Float(float_value(alloc, source)?)),
        Kind::StringValue => Ok(Value::String(string_value(alloc, source)?)),
        Kind::BlockString => Ok(Value::String(block_string_value(alloc, source)?)),
        Kind::Punctuator => Err(ReadError::Item),
    }
}
