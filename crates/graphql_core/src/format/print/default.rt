//! Default values.
ghost use Rattle.std.specs.Prelude.{◌≡◌, ◌+◌, ◌-◌, ◌*◌, ◌^◌, ◌<◌, OnOk, min, option_map};
ghost use Rattle.graphql_core.specs.{text_of, IsWellFormed, default_layout, default_levels, value_view};
ghost use Rattle.std.specs.Option.{IfSome};

use crate::common::Names;
use crate::common::tree::Value;
use crate::format::print::levels::levels_in_value;
use crate::format::print::values::write_value;
use crate::format::{Sink, Style};

/// How many levels a default value opens at once, saturating at `usize::MAX`. Without a value it is 0.
pub fn levels_in_default<N: Names>(value: &Option<Value<N>>, style: &Style) -> usize
    ensures { result ≡ min (default_levels style.now (option_map (value_view N.bytes) value.now)) (2 ^ 64 - 1) }
{
    match value {
        Some(value) => levels_in_value(value, style),
        None => 0,
    }
}

/// Appends ` = ` and the default value, if there is one.
pub fn write_default<S: Sink, N: Names>(
    out: &mut S,
    value: &Option<Value<N>>,
    style: &Style,
    margin: usize,
) -> Result<(), S::Error>
    requires { margin + default_levels style.now (option_map (value_view N.bytes) value.now) * style.now.indent
        < 2 ^ 32 }
    ensures text { OnOk result (S.took out.old
        (text_of (default_layout style.now margin (option_map (value_view N.bytes) value.now))) out.new) }
    ensures well_formed { OnOk result (IfSome (option_map (value_view N.bytes) value.now) IsWellFormed) }
{
    let Some(value) = value else {
        return Ok(());
    };
    out.push_str(" = ")?;
    write_value(out, value, style, margin)
}
