//! Lines in braces.
ghost use Rattle.std.specs.Prelude.{◌≡◌, ◌+◌, ◌-◌, ◌*◌, ◌^◌, ◌<◌, OnOk, min};
ghost use Rattle.graphql_core.specs.{text_of, most_enclosed};
ghost use Rattle.std.specs.List.{AllByRecursion};
ghost use Rattle.graphql_schema.specs.{block_layout};

use graphql_core::format::print::{Pretty, levels_in_each, write_each, write_spaces};
use graphql_core::format::{Sink, Style};

/// How many levels trees in braces open at once, saturating at `usize::MAX`; none without trees.
pub fn levels_in_block<P: Pretty>(parts: &[P], style: &Style) -> usize
    ensures { result ≡ min (most_enclosed (P.opens style.now) parts.now) (2 ^ 64 - 1) }
{
    if parts.is_empty() {
        return 0;
    }
    levels_in_each(parts, style).saturating_add(1)
}

/// Appends trees in braces, each on separate lines. Without trees it only ends the line.
pub fn write_block<S: Sink, P: Pretty>(
    out: &mut S,
    parts: &[P],
    style: &Style,
    margin: usize,
) -> Result<(), S::Error>
    requires { margin + most_enclosed (P.opens style.now) parts.now * style.now.indent < 2 ^ 32 }
    ensures text { OnOk result (S.took out.old
        (text_of (block_layout margin (P.lines style.now (margin + style.now.indent)) parts.now)) out.new) }
    ensures well_formed { OnOk result (AllByRecursion P.well_formed parts.now) }
{
    if parts.is_empty() {
        return out.push_str("\n");
    }
    out.push_str(" {\n")?;
    let inside = margin + style.indentation() as usize;
    write_each(out, parts, style, inside)?;
    write_spaces(out, margin)?;
    out.push_str("}\n")
}
