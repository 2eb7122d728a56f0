//! Formatting descriptions: above what they describe, or on the same line.
ghost use Rattle.std.specs.Prelude.{◌≡◌, ◌+◌, ◌*◌, ◌^◌, ◌<◌, OnOk, option_map, string_bytes};
ghost use Rattle.graphql_core.specs.{text_of, description_levels};
ghost use Rattle.graphql_schema.specs.{description_layout, inline_layout};

use graphql_core::format::print::{levels_in_string, write_spaces, write_string};
use graphql_core::format::{Sink, Style};

/// How many levels a description opens: one in block form, otherwise none.
pub fn levels_in_description(description: &Option<String>) -> usize
    ensures { result ≡ description_levels (option_map string_bytes description.now) }
{
    match description {
        Some(text) => levels_in_string(text.as_str()),
        None => 0,
    }
}

/// Appends a description on separate lines, if there is one.
pub fn write_description<S: Sink>(
    out: &mut S,
    description: &Option<String>,
    style: &Style,
    margin: usize,
) -> Result<(), S::Error>
    requires { margin + description_levels (option_map string_bytes description.now) * style.now.indent < 2 ^ 32 }
    ensures { OnOk result (S.took out.old
        (text_of (description_layout style.now margin (option_map string_bytes description.now))) out.new) }
{
    let Some(text) = description else {
        return Ok(());
    };
    write_spaces(out, margin)?;
    write_string(out, text.as_str(), style, margin)?;
    out.push_str("\n")
}

/// Appends a description and a space, if there is one.
pub fn write_inline_description<S: Sink>(
    out: &mut S,
    description: &Option<String>,
    style: &Style,
    margin: usize,
) -> Result<(), S::Error>
    requires { margin + description_levels (option_map string_bytes description.now) * style.now.indent < 2 ^ 32 }
    ensures { OnOk result
        (S.took out.old (text_of (inline_layout style.now margin (option_map string_bytes description.now))) out.new) }
{
    let Some(text) = description else {
        return Ok(());
    };
    write_string(out, text.as_str(), style, margin)?;
    out.push_str(" ")
}
