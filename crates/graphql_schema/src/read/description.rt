//! Descriptions.
ghost use Rattle.std.specs.Prelude.{◌≡◌, option_map, string_bytes};
ghost use Rattle.graphql_core.specs.{Sym, optional, sees_class, any, optional_of};
ghost use Rattle.graphql_core.specs.declared.tokenizer.token.Kind.TheVariants.{BlockString};
ghost use Rattle.graphql_schema.specs.{description_symbol, description_of, Reads, sees_description};
ghost use Rattle.graphql_schema.specs.{sees_described_name};

use graphql_core::common::read::leaf::{block_string_value, string_value};
use graphql_core::helpers::{ReadError, TokenSource};
use graphql_core::tokenizer::Kind;
use std::alloc::Global;

/// Whether the next token is a description.
#[inline(always)]
pub fn sees_description<S: TokenSource>(source: &S) -> bool
    ensures { result ≡ sees_description (S.items source.now) }
{
    source.sees_string()
}

/// Whether the next token is a block string.
fn sees_block_string<S: TokenSource>(source: &S) -> bool
    ensures { result ≡ sees_class (any BlockString) (S.items source.now) }
{
    match source.peek() {
        Some(token) => matches!(token.kind, Kind::BlockString),
        None => false,
    }
}

/// Whether the next token is a name or a description.
pub fn sees_described_name<S: TokenSource>(source: &S) -> bool
    ensures { result ≡ sees_described_name (S.items source.now) }
{
    sees_description(source) || source.sees_name()
}

/// `Description = String | Block`
#[inline(never)]
#[tactic(auto, using(graphql_core::proofs::readers::Reading::reader_steps))]
fn description<S: TokenSource>(alloc: Global, source: &mut S) -> Result<String, ReadError>
    ensures { Reads (Sym description_symbol) (S.items source.old) (S.items source.new)
        (λ v x. string_bytes v ≡ description_of x) result }
{
    if sees_block_string(source) {
        return block_string_value(alloc, source);
    }
    string_value(alloc, source)
}

/// `Description?`
#[inline(always)]
#[tactic(auto, using(graphql_core::proofs::readers::Reading::reader_steps))]
pub fn optional_description<S: TokenSource>(
    alloc: Global,
    source: &mut S,
) -> Result<Option<String>, ReadError>
    ensures { Reads (optional (Sym description_symbol)) (S.items source.old) (S.items source.new)
        (λ v x. option_map string_bytes v ≡ optional_of description_of x) result }
{
    if !sees_description(source) {
        return Ok(None);
    }
    Ok(Some(description(alloc, source)?))
}
