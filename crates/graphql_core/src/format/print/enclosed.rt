//! Parts between an opener and a closer.
ghost use Rattle.std.specs.Prelude.{◌≡◌, ◌^◌, ◌<◌, ◌++◌, codes, OnOk};
ghost use Rattle.graphql_core.specs.{punctuator_part, text_of};
ghost use Rattle.graphql_core.specs.layouts.ValueLayout as spec;

use crate::format::print::spaces::write_new_line;
use crate::format::{Sink, Style};

/// The margin of the parts, if the margin of the closer is `margin`.
pub fn inside(style: &Style, margin: usize) -> usize
    requires { spec.inside style.now margin < 2 ^ 32 }
    ensures { result ≡ spec.inside style.now margin }
{
    if style.has_multiline_arguments() {
        margin + style.indentation() as usize
    } else {
        margin
    }
}

/// Appends the separator before a part. `is_later` says whether the part is not the first one.
#[inline(always)]
pub fn write_before_part<S: Sink>(
    out: &mut S,
    style: &Style,
    margin: usize,
    is_later: bool,
) -> Result<(), S::Error>
    ensures { OnOk result (S.took out.old (text_of (spec.before_part style.now margin is_later)) out.new) }
{
    if !style.has_multiline_arguments() {
        return if is_later { out.push_str(", ") } else { Ok(()) };
    }
    if is_later {
        out.push_str(",")?;
    }
    write_new_line(out, margin)
}

/// Appends the line end after the parts, if the style has one, and the closer.
#[inline(always)]
pub fn write_closer<S: Sink>(
    out: &mut S,
    style: &Style,
    margin: usize,
    closer: &str,
) -> Result<(), S::Error>
    ensures { OnOk result
        (S.took out.old (text_of (spec.after_parts style.now margin ++ punctuator_part closer.now)) out.new) }
{
    if style.has_multiline_arguments() {
        write_new_line(out, margin)?;
    }
    out.push_str(closer)
}

/// Appends the name of a part, a colon and a space.
#[inline(always)]
pub fn write_label<S: Sink>(out: &mut S, name: &str) -> Result<(), S::Error>
    ensures { OnOk result (S.took out.old (name.now ++ codes ": ") out.new) }
{
    out.push_two(name, ": ")
}
