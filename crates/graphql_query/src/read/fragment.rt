//! Fragment spreads and type conditions.
ghost use Rattle.std.specs.Prelude.{◌≡◌, [], ◌∷◌, option_map};
ghost use Rattle.graphql_core.specs.{Sym, optional, place_next, sees_class, Adds, optional_of};
ghost use Rattle.graphql_query.specs.{type_condition_view, selection_view, spread_class, spread_name_symbol};
ghost use Rattle.graphql_query.specs.{fragment_spread_rest, type_condition_symbol, type_condition_of, spread_name_of};
ghost use Rattle.graphql_query.specs.{fragment_spread_rest_of, Reads};

use crate::tree::{FragmentSpread, Selection, TypeCondition};
use graphql_core::common::Names;
use graphql_core::common::read::directives;
use graphql_core::helpers::{ReadError, TokenSource, expect_keyword, expect_name, sees_keyword};
use std::alloc::Global;

/// `TypeCondition = "on" Name`
#[tactic(auto, using(graphql_core::proofs::readers::Reading::reader_steps))]
pub fn type_condition<S: TokenSource>(
    alloc: Global,
    source: &mut S,
) -> Result<TypeCondition<S::Names>, ReadError>
    ensures { Reads (Sym type_condition_symbol) (S.items source.old) (S.items source.new)
        (λ v x. type_condition_view S.Names.bytes v ≡ type_condition_of x) result }
{
    expect_keyword(source, "on")?;
    Ok(TypeCondition::On(expect_name(alloc, source)?))
}

/// `TypeCondition?`
#[tactic(auto, using(graphql_core::proofs::readers::Reading::reader_steps))]
pub fn optional_type_condition<S: TokenSource>(
    alloc: Global,
    source: &mut S,
) -> Result<Option<TypeCondition<S::Names>>, ReadError>
    ensures { Reads (optional (Sym type_condition_symbol)) (S.items source.old) (S.items source.new)
        (λ v x. option_map (type_condition_view S.Names.bytes) v ≡ optional_of type_condition_of x) result }
{
    if !sees_keyword(source, "on") {
        return Ok(None);
    }
    Ok(Some(type_condition(alloc, source)?))
}

/// Whether the next token can be the name of a spread.
pub fn sees_spread_name<S: TokenSource>(source: &S) -> bool
    ensures { result ≡ sees_class spread_class (S.items source.now) }
{
    source.sees_name() && !sees_keyword(source, "on")
}

/// `SpreadName = Name other than "on"`
#[tactic(auto, using(graphql_core::proofs::readers::Reading::reader_steps))]
fn spread_name<S: TokenSource>(
    alloc: Global,
    source: &mut S,
) -> Result<<S::Names as Names>::Value, ReadError>
    ensures { Reads (Sym spread_name_symbol) (S.items source.old) (S.items source.new)
        (λ v x. (place_next (S.items source.old), S.Names.bytes v) ≡ spread_name_of x) result }
{
    if !sees_spread_name(source) {
        return Err(ReadError::Item);
    }
    expect_name(alloc, source)
}

/// `SpreadName Directives`: what follows the `...` of a spread. Appends the spread to `selections`.
#[tactic(auto, using(graphql_core::proofs::readers::Reading::reader_steps))]
pub fn fragment_spread_after_dots<S: TokenSource>(
    alloc: Global,
    source: &mut S,
    selections: &mut Vec<Selection<S::Names>>,
) -> Result<(), ReadError>
    ensures { Reads fragment_spread_rest (S.items source.old) (S.items source.new)
        (λ v x. Adds (selection_view S.Names.bytes) selections.old.items selections.new.items
        (fragment_spread_rest_of x ∷ [])) result }
{
    let position = source.position();
    let fragment_name = spread_name(alloc, source)?;
    let directives = directives::directives(alloc, source)?;
    selections.reserve(1)?;
    selections.push_reserved(Selection::FragmentSpread(FragmentSpread {
        position,
        fragment_name,
        directives,
    }));
    Ok(())
}
