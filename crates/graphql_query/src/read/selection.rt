//! Readers of selections: functions that parse one production from `source`, with one token of lookahead.
//!
//! `S.items source` is what is left of the source: its tokens, and then the end of the input or a lexical error. A call
//! turns `source.old` into `source.new`. A source that is only looked at is `source.now`.
//!
//! `Reads e before after (λ value tree. ..) result` says of the production `e`:
//!
//! - `Ok(value)`: the reader consumed tokens that have a parse tree `tree` of `e`, and the relation holds. It stops
//!   only where `e` is complete and cannot continue with the next token.
//! - `Err(error)`: `after` begins with the first token, or the end of the input, with which `e` cannot continue, or
//!   with a token whose value is bad. After `Memory`, an allocation that failed, it can begin anywhere.
//! - In each case the end of the input, or the lexical error that stands for it, is as before.
//!
//! An error is only a reason. `fault_of` adds the position, from what is left of the source. That every document is
//! accepted is a clause of `parse_query`.
//!
//! In clauses, `Sym` is the production of a symbol, and `punctuator` that of a punctuator, whose class of tokens is
//! `punctuator_class`. `.._view` is the model of a value of Rust, and `.._of` what a parse tree denotes.
//! `Adds view old new models` says that the list `new` is `old` and then elements with these models, and `AddsSet` that
//! these are the selections of a set with this span. `OnOk` says nothing of an error.
//!
//! All open selection sets share one list, `selections`. `{ a { b } c }` puts `b` on the list and takes it off at the
//! inner `}`. Then it puts `a`, with its set, and `c` on the list, and takes both off at the outer `}`. So the list of
//! a set is allocated once. After an error nothing is known of `selections`. The readers call one another. Tokens open
//! at most 50 brackets at once, which bounds the depth of these calls.
ghost use Rattle.std.specs.Prelude.{◌≡◌, ◌||◌, OnOk, [], ◌∷◌, codes};
ghost use Rattle.graphql_core.specs.{Then, Sym, Either, optional, place_of, sees_class, punctuator, any, Adds};
ghost use Rattle.graphql_core.specs.{punctuator_class};
ghost use Rattle.graphql_core.specs.declared.tokenizer.token.Kind.TheVariants.{Name};
ghost use Rattle.graphql_query.specs.{selection_view, selection_set_view, field_symbol, selection_set_symbol};
ghost use Rattle.graphql_query.specs.{selection_symbol, fragment_spread_rest, inline_fragment_rest, field_of};
ghost use Rattle.graphql_query.specs.{optional_selection_set_of, inline_fragment_rest_of, selection_of};
ghost use Rattle.graphql_query.specs.{selection_set_of, Reads, AddsSet, after_dots_of};

use crate::read::alias::alias_and_name;
use crate::read::fragment::{
    fragment_spread_after_dots, optional_type_condition, sees_spread_name,
};
use crate::tree::{Field, InlineFragment, Selection, SelectionSet};
use graphql_core::common::read::directives::{self, optional_arguments};
use graphql_core::helpers::{Punctuator, ReadError, TokenSource, expect_punctuator, split_list};
use graphql_core::position::Pos;
use std::alloc::Global;

/// `Field = Alias? Name Arguments? Directives SelectionSet?`, where `Alias = Name ":"`.
/// Appends the field to `selections`.
#[cycle(reading)]
#[tactic(auto, using(graphql_core::proofs::readers::Reading::reader_steps))]
fn field<S: TokenSource>(
    alloc: Global,
    source: &mut S,
    selections: &mut Vec<Selection<S::Names>>,
) -> Result<(), ReadError>
    ensures { Reads (Sym field_symbol) (S.items source.old) (S.items source.new)
        (λ v x. Adds (selection_view S.Names.bytes) selections.old.items selections.new.items
        (field_of x ∷ [])) result }
{
    let position = source.position();
    let (alias, name) = alias_and_name(alloc, source)?;
    let arguments = optional_arguments(alloc, source)?;
    let directives = directives::directives(alloc, source)?;
    let selection_set = optional_selection_set(alloc, source, position, selections)?;
    selections.reserve(1)?;
    selections.push_reserved(Selection::Field(Field {
        position,
        alias,
        name,
        arguments,
        directives,
        selection_set,
    }));
    Ok(())
}

/// `SelectionSet?` of the field at `position`. Without braces, returns a set without items, with this position as the
/// start and the end of its span.
#[cycle(reading)]
#[inline(always)]
#[tactic(auto, using(graphql_core::proofs::readers::Reading::reader_steps))]
fn optional_selection_set<S: TokenSource>(
    alloc: Global,
    source: &mut S,
    position: Pos,
    selections: &mut Vec<Selection<S::Names>>,
) -> Result<SelectionSet<S::Names>, ReadError>
    ensures reads { Reads (optional (Sym selection_set_symbol)) (S.items source.old) (S.items source.new)
        (λ v x. selection_set_view S.Names.bytes v ≡ optional_selection_set_of (place_of position) x) result }
    ensures restored { OnOk result
        (Adds (selection_view S.Names.bytes) selections.old.items selections.new.items []) }
{
    if !source.sees_punctuator(Punctuator::OpenBrace) {
        return Ok(SelectionSet {
            span: (position, position),
            items: Vec::new(alloc),
        });
    }
    selection_set(alloc, source, selections)
}

/// `TypeCondition? Directives SelectionSet`: what follows the `...` of an inline fragment. Appends the fragment to
/// `selections`; its position is that of the token after the dots.
#[cycle(reading)]
#[tactic(auto, using(graphql_core::proofs::readers::Reading::reader_steps))]
fn inline_fragment_after_dots<S: TokenSource>(
    alloc: Global,
    source: &mut S,
    selections: &mut Vec<Selection<S::Names>>,
) -> Result<(), ReadError>
    ensures { Reads inline_fragment_rest (S.items source.old) (S.items source.new)
        (λ v x. Adds (selection_view S.Names.bytes) selections.old.items selections.new.items
        (inline_fragment_rest_of x ∷ [])) result }
{
    let position = source.position();
    let type_condition = optional_type_condition(alloc, source)?;
    let directives = directives::directives(alloc, source)?;
    let selection_set = selection_set(alloc, source, selections)?;
    selections.reserve(1)?;
    selections.push_reserved(Selection::InlineFragment(InlineFragment {
        position,
        type_condition,
        directives,
        selection_set,
    }));
    Ok(())
}

/// `FragmentSpread = "..." SpreadName Directives` or `InlineFragment = "..." TypeCondition? Directives SelectionSet`:
/// a name other than `on` after the dots decides for the first. Appends the selection to `selections`.
#[cycle(reading)]
#[tactic(auto, using(graphql_core::proofs::readers::Reading::reader_steps))]
fn fragment_selection<S: TokenSource>(
    alloc: Global,
    source: &mut S,
    selections: &mut Vec<Selection<S::Names>>,
) -> Result<(), ReadError>
    ensures { Reads (Then (punctuator (codes "...")) (Either fragment_spread_rest inline_fragment_rest))
        (S.items source.old) (S.items source.new)
        (λ v x. Adds (selection_view S.Names.bytes) selections.old.items selections.new.items
        (after_dots_of x ∷ [])) result }
{
    expect_punctuator(source, Punctuator::Spread)?;
    if sees_spread_name(source) {
        return fragment_spread_after_dots(alloc, source, selections);
    }
    inline_fragment_after_dots(alloc, source, selections)
}

/// `Selection = Field | FragmentSpread | InlineFragment`. Appends the selection to `selections`.
#[cycle(reading)]
#[tactic(auto, using(graphql_core::proofs::readers::Reading::reader_steps))]
fn selection<S: TokenSource>(
    alloc: Global,
    source: &mut S,
    selections: &mut Vec<Selection<S::Names>>,
) -> Result<(), ReadError>
    ensures { Reads (Sym selection_symbol) (S.items source.old) (S.items source.new)
        (λ v x. Adds (selection_view S.Names.bytes) selections.old.items selections.new.items
        (selection_of x ∷ [])) result }
{
    if source.sees_punctuator(Punctuator::Spread) {
        return fragment_selection(alloc, source, selections);
    }
    field(alloc, source, selections)
}

/// Whether the next token can begin a selection.
fn sees_selection<S: TokenSource>(source: &S) -> bool
    ensures { result ≡ (sees_class (any Name) (S.items source.now)
        || sees_class (punctuator_class (codes "...")) (S.items source.now)) }
{
    source.sees_name() || source.sees_punctuator(Punctuator::Spread)
}

/// `"{" Selection+ "}"`. Returns the positions of the braces, and appends the selections to `selections`.
#[cycle(reading)]
#[tactic(auto, using(graphql_core::proofs::readers::Reading::reader_steps))]
fn selections_in_braces<S: TokenSource>(
    alloc: Global,
    source: &mut S,
    selections: &mut Vec<Selection<S::Names>>,
) -> Result<(Pos, Pos), ReadError>
    ensures { Reads (Sym selection_set_symbol) (S.items source.old) (S.items source.new)
        (λ v x. AddsSet S.Names.bytes selections.old.items selections.new.items v (selection_set_of x)) result }
{
    let start = expect_punctuator(source, Punctuator::OpenBrace)?;
    selection(alloc, source, selections)?;
    'more: while sees_selection(source) {
        selection(alloc, source, selections)?;
    }
    let end = expect_punctuator(source, Punctuator::CloseBrace)?;
    Ok((start, end))
}

/// `SelectionSet = "{" Selection+ "}"`. The selections are appended to `selections` and then split off.
#[cycle(reading)]
#[inline(always)]
#[tactic(auto, using(graphql_core::proofs::readers::Reading::reader_steps))]
pub fn selection_set<S: TokenSource>(
    alloc: Global,
    source: &mut S,
    selections: &mut Vec<Selection<S::Names>>,
) -> Result<SelectionSet<S::Names>, ReadError>
    ensures reads { Reads (Sym selection_set_symbol) (S.items source.old) (S.items source.new)
        (λ v x. selection_set_view S.Names.bytes v ≡ selection_set_of x) result }
    ensures restored { OnOk result
        (Adds (selection_view S.Names.bytes) selections.old.items selections.new.items []) }
{
    let start = selections.len();
    let span = selections_in_braces(alloc, source, selections)?;
    let items = split_list(alloc, selections, start)?;
    Ok(SelectionSet { span, items })
}
