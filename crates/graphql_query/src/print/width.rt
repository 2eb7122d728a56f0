//! Whether a document is too wide. The selection sets alone often show that it is not.
ghost use Rattle.std.specs.Prelude.{◌≡◌, ◌↔◌, ◌+◌, ◌-◌, ◌^◌, ◌≤◌, ℕ, true, false, min, max, length, take, drop, IsTrue};
ghost use Rattle.graphql_core.specs.{most};
ghost use Rattle.graphql_query.specs.{IsTooWide, selection_set_of_definition, selection_set_view, definition_view};
ghost use Rattle.graphql_query.specs.{document_view, definition_depth, in_sets, reach_of, selection_depth};
ghost use Rattle.graphql_query.specs.{selection_set_depth, selections_depth, selection_view, selections_view};

use crate::print::levels::levels_in_selection_set;
use crate::tree::{Definition, Document, OperationDefinition, Selection, SelectionSet};
use graphql_core::common::Names;
use graphql_core::format::Style;
use graphql_core::format::print::{Pretty, is_too_wide};

fn selection_set_of<N: Names>(definition: &Definition<N>) -> &SelectionSet<N>
    ensures { selection_set_view N.bytes result.now
        ≡ selection_set_of_definition (definition_view N.bytes definition.now) }
{
    match definition {
        Definition::Operation(operation) => match operation {
            OperationDefinition::SelectionSet(set) => set,
            OperationDefinition::Query(query) => &query.selection_set,
            OperationDefinition::Mutation(mutation) => &mutation.selection_set,
            OperationDefinition::Subscription(subscription) => &subscription.selection_set,
        },
        Definition::Fragment(fragment) => &fragment.selection_set,
    }
}

/// The most selection sets that `sets_in` collects.
const MOST_SETS: usize = 32;

/// The selection set of a selection, and whether the selection has one. If not, the set is `none`.
#[inline(always)]
fn nested_in<'a, N: Names>(
    selection: &'a Selection<N>,
    none: &'a SelectionSet<N>,
) -> (&'a SelectionSet<N>, bool)
    ensures some { result.1 ≡ true → selection_depth in_sets (selection_view N.bytes selection.now)
        ≡ selection_set_depth in_sets (selection_set_view N.bytes result.0.now) }
    ensures none { result.1 ≡ false → selection_depth in_sets (selection_view N.bytes selection.now) ≡ 0 }
{
    match selection {
        Selection::Field(field) => {
            let set = &field.selection_set;
            (set, !set.items.is_empty())
        }
        Selection::InlineFragment(fragment) => (&fragment.selection_set, true),
        Selection::FragmentSpread(_) => (none, false),
    }
}

/// Appends the selection sets of selections to the first `end` of `sets`, each with the number of sets around it.
/// Returns how many there are then. The code has no branch on which fields have selections.
#[inline(always)]
fn push_nested<'a, N: Names>(
    sets: &mut [(&'a SelectionSet<N>, usize); 32],
    end: usize,
    items: &'a [Selection<N>],
    around: usize,
    none: &'a SelectionSet<N>,
) -> usize
    requires { end + length items.now ≤ 32 }
    ensures within { (end ≤ result) × (result ≤ end + length items.now) }
    ensures long { length sets.new ≡ 32 }
    ensures reach { (k : ℕ) → k ≤ end
        → max around (most (reach_of N.bytes) (drop k (take result sets.new)))
        ≡ max (most (reach_of N.bytes) (drop k (take end sets.old)))
        (around + selections_depth in_sets (selections_view N.bytes items.now)) }
{
    let mut next = end;
    'items: for item in items {
        let (set, is_nested) = nested_in(item, none);
        sets[next] = (set, around);
        next += is_nested as usize;
    }
    next
}

/// How deep a selection set is nested, itself included, saturating at `usize::MAX`. The sets within it are collected in
/// a list. If the list has no room for those of a set, they are counted by recursion.
fn sets_in<N: Names>(set: &SelectionSet<N>, style: &Style) -> usize
    ensures { result ≡ min (selection_set_depth in_sets (selection_set_view N.bytes set.now)) (2 ^ 64 - 1) }
{
    let mut sets = [(set, 0); MOST_SETS];
    let mut next = 0;
    let mut end = 1;
    let mut most = 0;
    'sets: while next < end {
        let (set, around) = sets[next];
        next += 1;
        if set.items.len() > MOST_SETS - end {
            let inside = levels_in_selection_set::<N, false>(set, style);
            most = inside.saturating_add(around).max(most);
        } else {
            let inside = around.saturating_add(1);
            end = push_nested(&mut sets, end, &set.items, inside, set);
            most = inside.max(most);
        }
    }
    most
}

/// How deep selection sets are nested, saturating at `usize::MAX`.
fn sets_in_document<N: Names>(document: &Document<N>, style: &Style) -> usize
    ensures { result ≡ min (most (definition_depth in_sets) (document_view N.bytes document.now)) (2 ^ 64 - 1) }
{
    let mut most = 0;
    'definitions: for definition in &document.definitions {
        let set = selection_set_of(definition);
        most = sets_in(set, style).max(most);
    }
    most
}

/// Whether the selection sets alone show that a document is not too wide in a style.
fn is_narrow_by_sets<N: Names>(document: &Document<N>, style: &Style) -> bool
    ensures { IsTrue result → IsTooWide style.now (document_view N.bytes document.now) → ⊥ }
{
    if style.has_multiline_arguments() {
        return false;
    }
    !is_too_wide(sets_in_document(document, style).saturating_add(1), style)
}

/// Whether a document is too wide in a style. All levels are counted only if the selection sets do not decide.
pub fn is_document_too_wide<N: Names>(document: &Document<N>, style: &Style) -> bool
    ensures { IsTrue result ↔ IsTooWide style.now (document_view N.bytes document.now) }
{
    if is_narrow_by_sets(document, style) {
        return false;
    }
    is_too_wide(document.levels(style), style)
}
