//! How many levels a layout opens at once, and whether it is too wide.
ghost use Rattle.std.specs.Prelude.{◌≡◌, ◌-◌, ◌^◌, ◌↔◌, ℕ, IsTrue, IsErr, min};
ghost use Rattle.graphql_core.specs.{object, list, value_view, items_view, members_view, arguments_view};
ghost use Rattle.graphql_core.specs.{directives_view, IsTooWide, arguments_levels, directives_levels, opened};
ghost use Rattle.graphql_core.specs.{string_levels, value_levels};

use crate::common::Names;
use crate::common::tree::{Directive, Value};
use crate::format::Style;
use crate::format::print::block::has_block_form;
use std::collections::BTreeMap;
use std::fmt;

/// The levels of some parts, and one more if the style gives each part a line, saturating at `usize::MAX`.
fn levels_around(style: &Style, levels: usize) -> usize
    ensures { (n : ℕ) → levels ≡ min n (2 ^ 64 - 1) → result ≡ min (opened style.now n) (2 ^ 64 - 1) }
{
    if style.has_multiline_arguments() {
        levels.saturating_add(1)
    } else {
        levels
    }
}

/// How many levels a value opens at once, saturating at `usize::MAX`.
#[cycle(levels)]
pub fn levels_in_value<N: Names>(value: &Value<N>, style: &Style) -> usize
    ensures { result ≡ min (value_levels style.now (value_view N.bytes value.now)) (2 ^ 64 - 1) }
{
    match value {
        Value::String(text) => levels_in_string(text.as_str()),
        Value::List(items) => levels_in_list(items, style),
        Value::Object(members) => levels_in_object(members, style),
        _ => 0,
    }
}

/// How many levels a string opens: one in block form, else none.
pub fn levels_in_string(text: &str) -> usize
    ensures { result ≡ string_levels text.now }
{
    if has_block_form(text) { 1 } else { 0 }
}

#[cycle(levels)]
fn levels_in_list<N: Names>(items: &[Value<N>], style: &Style) -> usize
    ensures { result ≡ min (value_levels style.now (list (items_view N.bytes items.now))) (2 ^ 64 - 1) }
{
    let mut most = 0;
    'items: for item in items {
        most = levels_in_value(item, style).max(most);
    }
    levels_around(style, most)
}

#[cycle(levels)]
fn levels_in_object<N: Names>(members: &BTreeMap<N::Value, Value<N>>, style: &Style) -> usize
    ensures { result ≡ min (value_levels style.now (object (members_view N.bytes members.now.entries))) (2 ^ 64 - 1) }
{
    let mut most = 0;
    'members: for (_name, member) in members.iter() {
        most = levels_in_value(member, style).max(most);
    }
    levels_around(style, most)
}

/// How many levels arguments open at once, saturating at `usize::MAX`.
pub fn levels_in_arguments<N: Names>(arguments: &[(N::Value, Value<N>)], style: &Style) -> usize
    ensures { result ≡ min (arguments_levels style.now (arguments_view N.bytes arguments.now)) (2 ^ 64 - 1) }
{
    if arguments.is_empty() {
        return 0;
    }
    let mut most = 0;
    'arguments: for argument in arguments {
        most = levels_in_value(&argument.1, style).max(most);
    }
    levels_around(style, most)
}

/// How many levels directives open at once, saturating at `usize::MAX`.
pub fn levels_in_directives<N: Names>(directives: &[Directive<N>], style: &Style) -> usize
    ensures { result ≡ min (directives_levels style.now (directives_view N.bytes directives.now)) (2 ^ 64 - 1) }
{
    let mut most = 0;
    'directives: for directive in directives {
        most = levels_in_arguments(&directive.arguments, style).max(most);
    }
    most
}

/// Whether this many levels, open at once, take more than `u32::MAX` spaces.
pub fn is_too_wide(levels: usize, style: &Style) -> bool
    ensures { (n : ℕ) → levels ≡ min n (2 ^ 64 - 1) → IsTrue result ↔ IsTooWide style.now n }
{
    levels.saturating_mul(style.indentation() as usize) > u32::MAX as usize
}

/// Returns `fmt::Error` exactly if this many levels are too wide.
pub fn check_width(levels: usize, style: &Style) -> fmt::Result
    ensures { (n : ℕ) → levels ≡ min n (2 ^ 64 - 1) → IsErr result ↔ IsTooWide style.now n }
{
    if is_too_wide(levels, style) {
        return Err(fmt::Error);
    }
    Ok(())
}
