//! The name of a field, and its alias.
ghost use Rattle.std.specs.Prelude.{◌≡◌, option_map};
ghost use Rattle.graphql_query.specs.{Reads, first_names, alias_and_name_of};

use graphql_core::common::Names;
use graphql_core::helpers::{Punctuator, ReadError, TokenSource, expect_name, expect_punctuator};
use std::alloc::Global;

/// `Alias? Name`, where `Alias = Name ":"`.
#[tactic(auto, using(graphql_core::proofs::readers::Reading::reader_steps))]
pub fn alias_and_name<S: TokenSource>(
    alloc: Global,
    source: &mut S,
) -> Result<
    (
        Option<<S::Names as Names>::Value>,
        <S::Names as Names>::Value,
    ),
    ReadError,
>
    ensures { Reads first_names (S.items source.old) (S.items source.new)
        (λ v x. (option_map S.Names.bytes v.0, S.Names.bytes v.1) ≡ alias_and_name_of x) result }
{
    let first = expect_name(alloc, source)?;
    if !source.sees_punctuator(Punctuator::Colon) {
        return Ok((None, first));
    }
    expect_punctuator(source, Punctuator::Colon)?;
    let name = expect_name(alloc, source)?;
    Ok((Some(first), name))
}
