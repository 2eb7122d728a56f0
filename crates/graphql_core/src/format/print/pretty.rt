//! Trees that have a layout: one, several in a row, and several with a separator.
ghost use Rattle.std.specs.Prelude.{◌≡◌, ℕ, ◌+◌, ◌-◌, ◌*◌, ◌^◌, ◌<◌, List, OnOk, min, map};
ghost use Rattle.graphql_core.specs.layouts.TextParts.{text_of, Part};
ghost use Rattle.std.specs.List.{AllByRecursion, flat_map};
ghost use Rattle.graphql_core.specs.layouts.Style.{StyleOptions};
ghost use Rattle.graphql_core.specs.values.TreeDepth.{most};
ghost use Rattle.graphql_core.specs.layouts.Displayed.{Displays};
ghost use Rattle.graphql_core.specs.steps.Joined.{joined};

use crate::format::print::levels::check_width;
use crate::format::{Sink, Style};
use std::fmt;

/// A tree that has a layout.
pub trait Pretty {
    /// The layout in a style, at a margin of this many spaces. Trees that are only written at margin 0 ignore it.
    ghost lines: { StyleOptions → ℕ → Self → List Part };

    /// How many levels the layout opens at once.
    ghost opens: { StyleOptions → Self → ℕ };

    /// What holds of every such tree that a program can make.
    ghost well_formed: { Self → Type 0 };

    /// How many levels the tree opens at once, saturating at `usize::MAX`.
    fn levels(&self, style: &Style) -> usize
        ensures { result ≡ min (opens style.now self.now) (2 ^ 64 - 1) };

    /// Appends the layout in a style, at a margin of this many spaces.
    fn write<S: Sink>(&self, out: &mut S, style: &Style, margin: usize) -> Result<(), S::Error>
        requires { margin + opens style.now self.now * style.now.indent < 2 ^ 32 }
        ensures text { OnOk result (S.took out.old (text_of (lines style.now margin self.now)) out.new) }
        ensures well_formed { OnOk result (well_formed self.now) };
}

/// Formats a tree in the default style. If that is too wide, the result is `fmt::Error`.
pub fn fmt_in_default_style<P: Pretty, W: fmt::Write>(
    part: &P,
    f: &mut fmt::Formatter<W>,
) -> fmt::Result
    ensures { Displays W.write_str_gives f.old result (λ s. P.lines s 0) P.opens part.now f.new }
{
    let style = Style::default();
    check_width(part.levels(&style), &style)?;
    part.write(f, &style, 0)
}

/// The most levels that any of these trees opens at once, saturating at `usize::MAX`.
pub fn levels_in_each<P: Pretty>(parts: &[P], style: &Style) -> usize
    ensures { result ≡ min (most (P.opens style.now) parts.now) (2 ^ 64 - 1) }
{
    let mut most = 0;
    'parts: for part in parts {
        most = part.levels(style).max(most);
    }
    most
}

/// Appends trees, one after another.
pub fn write_each<S: Sink, P: Pretty>(
    out: &mut S,
    parts: &[P],
    style: &Style,
    margin: usize,
) -> Result<(), S::Error>
    requires { margin + most (P.opens style.now) parts.now * style.now.indent < 2 ^ 32 }
    ensures text { OnOk result (S.took out.old (text_of (flat_map (P.lines style.now margin) parts.now)) out.new) }
    ensures well_formed { OnOk result (AllByRecursion P.well_formed parts.now) }
{
    'parts: for part in parts {
        part.write(out, style, margin)?;
    }
    Ok(())
}

/// Appends trees, with a separator between two.
pub fn write_joined<S: Sink, P: Pretty>(
    out: &mut S,
    separator: &str,
    parts: &[P],
    style: &Style,
    margin: usize,
) -> Result<(), S::Error>
    requires { margin + most (P.opens style.now) parts.now * style.now.indent < 2 ^ 32 }
    ensures text { OnOk result
        (S.took out.old (joined separator.now (map (λ p. text_of (P.lines style.now margin p)) parts.now)) out.new) }
    ensures well_formed { OnOk result (AllByRecursion P.well_formed parts.now) }
{
    let Some((first, others)) = parts.split_first() else {
        return Ok(());
    };
    first.write(out, style, margin)?;
    'others: for part in others {
        out.push_str(separator)?;
        part.write(out, style, margin)?;
    }
    Ok(())
}
