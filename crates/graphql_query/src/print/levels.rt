//! How many levels of indentation selections open at once, saturating at `usize::MAX`. With `ALL` every level counts,
//! otherwise only those of selection sets.
ghost use Rattle.std.specs.Prelude.{◌≡◌, ◌-◌, ◌^◌, min};
ghost use Rattle.graphql_core.specs.{arguments_depth, directives_depth, arguments_view, directives_view};
ghost use Rattle.graphql_query.specs.{fragment_spread_view, field_view, inline_fragment_view, selection_view};
ghost use Rattle.graphql_query.specs.{selections_view, selection_set_view, selection_depth, selected_depth};
ghost use Rattle.graphql_query.specs.{selections_depth, selection_set_depth, counted};

use crate::tree::{Field, FragmentSpread, InlineFragment, Selection, SelectionSet};
use graphql_core::common::Names;
use graphql_core::common::tree::{Directive, Value};
use graphql_core::format::Style;
use graphql_core::format::print::{levels_in_arguments, levels_in_directives};

#[inline(always)]
fn levels_in_counted_arguments<N: Names, const ALL: bool>(
    arguments: &[(N::Value, Value<N>)],
    style: &Style,
) -> usize
    ensures { result
        ≡ min (arguments_depth (counted ALL style.now) (arguments_view N.bytes arguments.now)) (2 ^ 64 - 1) }
{
    if !ALL {
        return 0;
    }
    levels_in_arguments(arguments, style)
}

#[inline(always)]
fn levels_in_counted_directives<N: Names, const ALL: bool>(
    directives: &[Directive<N>],
    style: &Style,
) -> usize
    ensures { result
        ≡ min (directives_depth (counted ALL style.now) (directives_view N.bytes directives.now)) (2 ^ 64 - 1) }
{
    if !ALL {
        return 0;
    }
    levels_in_directives(directives, style)
}

/// How many levels a fragment spread opens at once.
#[inline(always)]
pub fn levels_in_fragment_spread<N: Names, const ALL: bool>(
    spread: &FragmentSpread<N>,
    style: &Style,
) -> usize
    ensures { result
        ≡ min (selection_depth (counted ALL style.now) (fragment_spread_view N.bytes spread.now)) (2 ^ 64 - 1) }
{
    levels_in_counted_directives::<N, ALL>(&spread.directives, style)
}

/// How many levels a selection set opens at once: one for its lines, and those within.
#[cycle(levels)]
pub fn levels_in_selection_set<N: Names, const ALL: bool>(
    set: &SelectionSet<N>,
    style: &Style,
) -> usize
    ensures { result
        ≡ min (selection_set_depth (counted ALL style.now) (selection_set_view N.bytes set.now)) (2 ^ 64 - 1) }
{
    levels_in_selections::<N, ALL>(&set.items, style).saturating_add(1)
}

#[cycle(levels)]
#[inline(always)]
fn levels_in_selections<N: Names, const ALL: bool>(items: &[Selection<N>], style: &Style) -> usize
    ensures { result ≡ min (selections_depth (counted ALL style.now) (selections_view N.bytes items.now)) (2 ^ 64 - 1) }
{
    let mut most = 0;
    'items: for item in items {
        most = levels_in_selection::<N, ALL>(item, style).max(most);
    }
    most
}

#[cycle(levels)]
#[inline(always)]
fn levels_in_selection<N: Names, const ALL: bool>(selection: &Selection<N>, style: &Style) -> usize
    ensures { result
        ≡ min (selection_depth (counted ALL style.now) (selection_view N.bytes selection.now)) (2 ^ 64 - 1) }
{
    match selection {
        Selection::Field(field) => levels_in_field::<N, ALL>(field, style),
        Selection::FragmentSpread(spread) => levels_in_fragment_spread::<N, ALL>(spread, style),
        Selection::InlineFragment(fragment) => levels_in_inline_fragment::<N, ALL>(fragment, style),
    }
}

/// How many levels a field opens at once.
#[cycle(levels)]
#[inline(always)]
pub fn levels_in_field<N: Names, const ALL: bool>(field: &Field<N>, style: &Style) -> usize
    ensures { result ≡ min (selection_depth (counted ALL style.now) (field_view N.bytes field.now)) (2 ^ 64 - 1) }
{
    let directives = levels_in_counted_directives::<N, ALL>(&field.directives, style);
    let selected = levels_in_selected::<N, ALL>(&field.selection_set, style);
    levels_in_counted_arguments::<N, ALL>(&field.arguments, style)
        .max(directives)
        .max(selected)
}

/// How many levels the selection set of a field opens at once: none if it has no selections.
#[cycle(levels)]
#[inline(always)]
fn levels_in_selected<N: Names, const ALL: bool>(set: &SelectionSet<N>, style: &Style) -> usize
    ensures { result ≡ min (selected_depth (counted ALL style.now) (selection_set_view N.bytes set.now)) (2 ^ 64 - 1) }
{
    if set.items.is_empty() {
        return 0;
    }
    levels_in_selection_set::<N, ALL>(set, style)
}

/// How many levels an inline fragment opens at once.
#[cycle(levels)]
#[inline(always)]
pub fn levels_in_inline_fragment<N: Names, const ALL: bool>(
    fragment: &InlineFragment<N>,
    style: &Style,
) -> usize
    ensures { result
        ≡ min (selection_depth (counted ALL style.now) (inline_fragment_view N.bytes fragment.now)) (2 ^ 64 - 1) }
{
    let selected = levels_in_selection_set::<N, ALL>(&fragment.selection_set, style);
    levels_in_counted_directives::<N, ALL>(&fragment.directives, style).max(selected)
}
