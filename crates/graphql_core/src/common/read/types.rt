//! Types.
ghost use Rattle.std.specs.Prelude.{◌≡◌, codes};
ghost use Rattle.graphql_core.specs.{Sym, optional, shared, type_symbol, punctuator, type_of, optional_non_null};
ghost use Rattle.graphql_core.specs.{type_view, Gives};

use crate::common::tree::Type;
use crate::helpers::{Punctuator, ReadError, TokenSource, expect_name, expect_punctuator};
use std::alloc::Global;

/// `"!"?`: returns `inner` as a non-null type if `!` comes next, else unchanged.
#[tactic(auto, using(crate::proofs::readers::Reading::reader_steps))]
fn optional_non_null<S: TokenSource>(
    alloc: Global,
    source: &mut S,
    inner: Type<S::Names>,
) -> Result<Type<S::Names>, ReadError>
    ensures { Gives shared (optional (punctuator (codes "!"))) (S.items source.old) (S.items source.new)
        (λ v x. type_view S.Names.bytes v ≡ optional_non_null x (type_view S.Names.bytes inner)) result }
{
    if source.sees_punctuator(Punctuator::Bang) {
        expect_punctuator(source, Punctuator::Bang)?;
        return Ok(Type::NonNullType(Box::new(alloc, inner)?));
    }
    Ok(inner)
}

/// `Type = Name "!"? | "[" Type "]" "!"?`
#[tactic(auto, using(crate::proofs::readers::Reading::reader_steps))]
pub fn type_reference<S: TokenSource>(
    alloc: Global,
    source: &mut S,
) -> Result<Type<S::Names>, ReadError>
    ensures { Gives shared (Sym type_symbol) (S.items source.old) (S.items source.new)
        (λ v x. type_view S.Names.bytes v ≡ type_of x) result }
{
    if source.sees_punctuator(Punctuator::OpenBracket) {
        expect_punctuator(source, Punctuator::OpenBracket)?;
        let items = type_reference(alloc, source)?;
        expect_punctuator(source, Punctuator::CloseBracket)?;
        return optional_non_null(alloc, source, Type::ListType(Box::new(alloc, items)?));
    }
    let name = expect_name(alloc, source)?;
    optional_non_null(alloc, source, Type::NamedType(name))
}
