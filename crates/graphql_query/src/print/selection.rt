//! Formatting selections. A line begins with `margin` spaces.
ghost use Rattle.std.specs.Prelude.{◌+◌, ◌*◌, ◌^◌, ◌<◌, ◌++◌, OnOk, option_map};
ghost use Rattle.graphql_core.specs.{text_of};
ghost use Rattle.graphql_query.specs.{type_condition_view, fragment_spread_view, field_view, inline_fragment_view};
ghost use Rattle.graphql_query.specs.{selection_view, selections_view, selection_set_view, IsWellFormedSelection};
ghost use Rattle.graphql_query.specs.{IsWellFormedSet, AreWellFormedSelections, alias_layout, type_condition_layout};
ghost use Rattle.graphql_query.specs.{on_layout, selection_layout, selected_layout, selections_layout};
ghost use Rattle.graphql_query.specs.{selection_set_layout, selection_levels, selected_levels, selections_levels};
ghost use Rattle.graphql_query.specs.{selection_set_levels};

use crate::print::levels::{
    levels_in_field, levels_in_fragment_spread, levels_in_inline_fragment, levels_in_selection_set,
};
use crate::tree::{Field, FragmentSpread, InlineFragment, Selection, SelectionSet, TypeCondition};
use graphql_core::common::Names;
use graphql_core::format::print::{Pretty, write_arguments, write_directives, write_spaces};
use graphql_core::format::{Sink, Style};

/// Appends the alias and its colon, if there is an alias.
fn write_alias<S: Sink, N: Names>(out: &mut S, alias: &Option<N::Value>) -> Result<(), S::Error>
    ensures { OnOk result (S.took out.old (text_of (alias_layout (option_map N.bytes alias.now))) out.new) }
{
    let Some(name) = alias else {
        return Ok(());
    };
    out.push_two(N::view(name), ": ")
}

/// Appends `on` and the name of the type.
pub fn write_type_condition<S: Sink, N: Names>(
    out: &mut S,
    condition: &TypeCondition<N>,
) -> Result<(), S::Error>
    ensures { OnOk result
        (S.took out.old (text_of (type_condition_layout (type_condition_view N.bytes condition.now))) out.new) }
{
    match condition {
        TypeCondition::On(name) => out.push_two("on ", N::view(name)),
    }
}

/// Appends the type condition of an inline fragment, if it has one.
fn write_optional_type_condition<S: Sink, N: Names>(
    out: &mut S,
    condition: &Option<TypeCondition<N>>,
) -> Result<(), S::Error>
    ensures { OnOk result
        (S.took out.old (text_of (on_layout (option_map (type_condition_view N.bytes) condition.now))) out.new) }
{
    let Some(condition) = condition else {
        return Ok(());
    };
    out.push_str(" ")?;
    write_type_condition(out, condition)
}

/// Appends a fragment spread and a line end.
fn write_fragment_spread<S: Sink, N: Names>(
    out: &mut S,
    spread: &FragmentSpread<N>,
    style: &Style,
    margin: usize,
) -> Result<(), S::Error>
    requires { margin + selection_levels style.now (fragment_spread_view N.bytes spread.now) * style.now.indent
        < 2 ^ 32 }
    ensures text { OnOk result (S.took out.old
        (text_of (selection_layout style.now margin (fragment_spread_view N.bytes spread.now))) out.new) }
    ensures well_formed { OnOk result (IsWellFormedSelection (fragment_spread_view N.bytes spread.now)) }
{
    write_spaces(out, margin)?;
    out.push_two("...", N::view(&spread.fragment_name))?;
    write_directives(out, &spread.directives, style, margin)?;
    out.push_str("\n")
}

/// Appends `before` and a selection set in braces. The closing brace is at the margin.
#[cycle(print)]
#[inline(always)]
pub fn write_selection_set<S: Sink, N: Names>(
    out: &mut S,
    before: &str,
    set: &SelectionSet<N>,
    style: &Style,
    margin: usize,
) -> Result<(), S::Error>
    requires { margin + selection_set_levels style.now (selection_set_view N.bytes set.now) * style.now.indent
        < 2 ^ 32 }
    ensures text { OnOk result (S.took out.old
        (before.now ++ text_of (selection_set_layout style.now margin (selection_set_view N.bytes set.now))) out.new) }
    ensures well_formed { OnOk result (IsWellFormedSet (selection_set_view N.bytes set.now)) }
{
    out.push_two(before, "{\n")?;
    let inside = margin + style.indentation() as usize;
    write_selections(out, &set.items, style, inside)?;
    write_spaces(out, margin)?;
    out.push_str("}\n")
}

/// Appends selections, each on separate lines.
#[cycle(print)]
#[inline(never)]
fn write_selections<S: Sink, N: Names>(
    out: &mut S,
    items: &[Selection<N>],
    style: &Style,
    margin: usize,
) -> Result<(), S::Error>
    requires { margin + selections_levels style.now (selections_view N.bytes items.now) * style.now.indent < 2 ^ 32 }
    ensures text { OnOk result
        (S.took out.old (text_of (selections_layout style.now margin (selections_view N.bytes items.now))) out.new) }
    ensures well_formed { OnOk result (AreWellFormedSelections (selections_view N.bytes items.now)) }
{
    'items: for item in items {
        write_selection(out, item, style, margin)?;
    }
    Ok(())
}

/// Appends a selection on separate lines.
#[cycle(print)]
fn write_selection<S: Sink, N: Names>(
    out: &mut S,
    selection: &Selection<N>,
    style: &Style,
    margin: usize,
) -> Result<(), S::Error>
    requires { margin + selection_levels style.now (selection_view N.bytes selection.now) * style.now.indent < 2 ^ 32 }
    ensures text { OnOk result
        (S.took out.old (text_of (selection_layout style.now margin (selection_view N.bytes selection.now))) out.new) }
    ensures well_formed { OnOk result (IsWellFormedSelection (selection_view N.bytes selection.now)) }
{
    match selection {
        Selection::Field(field) => write_field(out, field, style, margin),
        Selection::FragmentSpread(spread) => write_fragment_spread(out, spread, style, margin),
        Selection::InlineFragment(fragment) => write_inline_fragment(out, fragment, style, margin),
    }
}

/// Appends a field and its selection set.
#[cycle(print)]
fn write_field<S: Sink, N: Names>(
    out: &mut S,
    field: &Field<N>,
    style: &Style,
    margin: usize,
) -> Result<(), S::Error>
    requires { margin + selection_levels style.now (field_view N.bytes field.now) * style.now.indent < 2 ^ 32 }
    ensures text { OnOk result
        (S.took out.old (text_of (selection_layout style.now margin (field_view N.bytes field.now))) out.new) }
    ensures well_formed { OnOk result (IsWellFormedSelection (field_view N.bytes field.now)) }
{
    write_spaces(out, margin)?;
    write_alias::<S, N>(out, &field.alias)?;
    out.push_str(N::view(&field.name))?;
    write_arguments(out, &field.arguments, style, margin)?;
    write_directives(out, &field.directives, style, margin)?;
    write_optional_selection_set(out, &field.selection_set, style, margin)
}

/// Appends the selection set of a field, with braces only if it has selections.
#[cycle(print)]
fn write_optional_selection_set<S: Sink, N: Names>(
    out: &mut S,
    set: &SelectionSet<N>,
    style: &Style,
    margin: usize,
) -> Result<(), S::Error>
    requires { margin + selected_levels style.now (selection_set_view N.bytes set.now) * style.now.indent < 2 ^ 32 }
    ensures text { OnOk result
        (S.took out.old (text_of (selected_layout style.now margin (selection_set_view N.bytes set.now))) out.new) }
    ensures well_formed { OnOk result (IsWellFormedSet (selection_set_view N.bytes set.now)) }
{
    if set.items.is_empty() {
        return out.push_str("\n");
    }
    write_selection_set(out, " ", set, style, margin)
}

#[cycle(print)]
fn write_inline_fragment<S: Sink, N: Names>(
    out: &mut S,
    fragment: &InlineFragment<N>,
    style: &Style,
    margin: usize,
) -> Result<(), S::Error>
    requires { margin + selection_levels style.now (inline_fragment_view N.bytes fragment.now) * style.now.indent
        < 2 ^ 32 }
    ensures text { OnOk result (S.took out.old
        (text_of (selection_layout style.now margin (inline_fragment_view N.bytes fragment.now))) out.new) }
    ensures well_formed { OnOk result (IsWellFormedSelection (inline_fragment_view N.bytes fragment.now)) }
{
    write_spaces(out, margin)?;
    out.push_str("...")?;
    write_optional_type_condition(out, &fragment.type_condition)?;
    write_directives(out, &fragment.directives, style, margin)?;
    write_selection_set(out, " ", &fragment.selection_set, style, margin)
}

impl<N: Names> Pretty for SelectionSet<N> {
    ghost lines = { λ style margin s. selection_set_layout style margin (selection_set_view N.bytes s) };

    ghost opens = { λ style s. selection_set_levels style (selection_set_view N.bytes s) };

    ghost well_formed = { λ s. IsWellFormedSet (selection_set_view N.bytes s) };

    fn levels(&self, style: &Style) -> usize {
        levels_in_selection_set::<N, true>(self, style)
    }

    fn write<S: Sink>(&self, out: &mut S, style: &Style, margin: usize) -> Result<(), S::Error> {
        write_selection_set(out, "", self, style, margin)
    }
}

impl<N: Names> Pretty for Field<N> {
    ghost lines = { λ style margin f. selection_layout style margin (field_view N.bytes f) };

    ghost opens = { λ style f. selection_levels style (field_view N.bytes f) };

    ghost well_formed = { λ f. IsWellFormedSelection (field_view N.bytes f) };

    fn levels(&self, style: &Style) -> usize {
        levels_in_field::<N, true>(self, style)
    }

    fn write<S: Sink>(&self, out: &mut S, style: &Style, margin: usize) -> Result<(), S::Error> {
        write_field(out, self, style, margin)
    }
}

impl<N: Names> Pretty for FragmentSpread<N> {
    ghost lines = { λ style margin s. selection_layout style margin (fragment_spread_view N.bytes s) };

    ghost opens = { λ style s. selection_levels style (fragment_spread_view N.bytes s) };

    ghost well_formed = { λ s. IsWellFormedSelection (fragment_spread_view N.bytes s) };

    fn levels(&self, style: &Style) -> usize {
        levels_in_fragment_spread::<N, true>(self, style)
    }

    fn write<S: Sink>(&self, out: &mut S, style: &Style, margin: usize) -> Result<(), S::Error> {
        write_fragment_spread(out, self, style, margin)
    }
}

impl<N: Names> Pretty for InlineFragment<N> {
    ghost lines = { λ style margin f. selection_layout style margin (inline_fragment_view N.bytes f) };

    ghost opens = { λ style f. selection_levels style (inline_fragment_view N.bytes f) };

    ghost well_formed = { λ f. IsWellFormedSelection (inline_fragment_view N.bytes f) };

    fn levels(&self, style: &Style) -> usize {
        levels_in_inline_fragment::<N, true>(self, style)
    }

    fn write<S: Sink>(&self, out: &mut S, style: &Style, margin: usize) -> Result<(), S::Error> {
        write_inline_fragment(out, self, style, margin)
    }
}
