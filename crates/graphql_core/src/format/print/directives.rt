//! Arguments and directives.
ghost use Rattle.std.specs.Prelude.{◌≡◌, ◌+◌, ◌*◌, ◌^◌, ◌<◌, false, OnOk, length};
ghost use Rattle.graphql_core.specs.{text_of, AreWellFormedArguments, AreWellFormedDirectives, arguments_view};
ghost use Rattle.graphql_core.specs.{directive_view, directives_view, arguments_layout, arguments_levels};
ghost use Rattle.graphql_core.specs.{directive_layout, directives_layout, directives_levels};

use crate::common::Names;
use crate::common::tree::{Directive, Value};
use crate::format::print::enclosed::{inside, write_before_part, write_closer, write_label};
use crate::format::print::values::write_value;
use crate::format::{Sink, Style};

/// Appends one or more arguments in parentheses, each in a line of its own if the style says so.
#[inline(never)]
fn write_argument_lines<S: Sink, N: Names>(
    out: &mut S,
    arguments: &[(N::Value, Value<N>)],
    style: &Style,
    margin: usize,
) -> Result<(), S::Error>
    requires some { 0 < length arguments.now }
    requires width { margin + arguments_levels style.now (arguments_view N.bytes arguments.now) * style.now.indent
        < 2 ^ 32 }
    ensures text { OnOk result
        (S.took out.old (text_of (arguments_layout style.now margin (arguments_view N.bytes arguments.now))) out.new) }
    ensures well_formed { OnOk result (AreWellFormedArguments (arguments_view N.bytes arguments.now)) }
{
    out.push_str("(")?;
    let indented = inside(style, margin);
    let mut is_later = false;
    'arguments: for argument in arguments {
        write_before_part(out, style, indented, is_later)?;
        write_label(out, N::view(&argument.0))?;
        write_value(out, &argument.1, style, indented)?;
        is_later = true;
    }
    write_closer(out, style, margin, ")")
}

/// Appends one or more arguments in parentheses, in one line. A name is appended with what comes before and after it.
#[inline(always)]
fn write_argument_line<S: Sink, N: Names>(
    out: &mut S,
    arguments: &[(N::Value, Value<N>)],
    style: &Style,
    margin: usize,
) -> Result<(), S::Error>
    requires some { 0 < length arguments.now }
    requires in_line { style.now.multiline ≡ false }
    requires width { margin + arguments_levels style.now (arguments_view N.bytes arguments.now) * style.now.indent
        < 2 ^ 32 }
    ensures text { OnOk result
        (S.took out.old (text_of (arguments_layout style.now margin (arguments_view N.bytes arguments.now))) out.new) }
    ensures well_formed { OnOk result (AreWellFormedArguments (arguments_view N.bytes arguments.now)) }
{
    let mut before = "(";
    'arguments: for argument in arguments {
        out.push_three(before, N::view(&argument.0), ": ")?;
        write_value(out, &argument.1, style, margin)?;
        before = ", ";
    }
    out.push_str(")")
}

/// Appends one or more arguments in parentheses.
#[inline(never)]
fn write_some_arguments<S: Sink, N: Names>(
    out: &mut S,
    arguments: &[(N::Value, Value<N>)],
    style: &Style,
    margin: usize,
) -> Result<(), S::Error>
    requires some { 0 < length arguments.now }
    requires width { margin + arguments_levels style.now (arguments_view N.bytes arguments.now) * style.now.indent
        < 2 ^ 32 }
    ensures text { OnOk result
        (S.took out.old (text_of (arguments_layout style.now margin (arguments_view N.bytes arguments.now))) out.new) }
    ensures well_formed { OnOk result (AreWellFormedArguments (arguments_view N.bytes arguments.now)) }
{
    if style.has_multiline_arguments() {
        return write_argument_lines(out, arguments, style, margin);
    }
    write_argument_line(out, arguments, style, margin)
}

/// Appends arguments in parentheses, or nothing if there are none. Most fields have none, so only this test is inlined.
#[inline(always)]
pub fn write_arguments<S: Sink, N: Names>(
    out: &mut S,
    arguments: &[(N::Value, Value<N>)],
    style: &Style,
    margin: usize,
) -> Result<(), S::Error>
    requires { margin + arguments_levels style.now (arguments_view N.bytes arguments.now) * style.now.indent < 2 ^ 32 }
    ensures text { OnOk result
        (S.took out.old (text_of (arguments_layout style.now margin (arguments_view N.bytes arguments.now))) out.new) }
    ensures well_formed { OnOk result (AreWellFormedArguments (arguments_view N.bytes arguments.now)) }
{
    if arguments.is_empty() {
        return Ok(());
    }
    write_some_arguments(out, arguments, style, margin)
}

/// Appends a directive.
#[inline(never)]
pub fn write_directive<S: Sink, N: Names>(
    out: &mut S,
    directive: &Directive<N>,
    style: &Style,
    margin: usize,
) -> Result<(), S::Error>
    requires { margin + arguments_levels style.now (directive_view N.bytes directive.now).arguments * style.now.indent
        < 2 ^ 32 }
    ensures text { OnOk result
        (S.took out.old (text_of (directive_layout style.now margin (directive_view N.bytes directive.now))) out.new) }
    ensures well_formed { OnOk result (AreWellFormedArguments (directive_view N.bytes directive.now).arguments) }
{
    out.push_two("@", N::view(&directive.name))?;
    write_arguments(out, &directive.arguments, style, margin)
}

/// Appends directives, each with a space before it.
#[inline(always)]
pub fn write_directives<S: Sink, N: Names>(
    out: &mut S,
    directives: &[Directive<N>],
    style: &Style,
    margin: usize,
) -> Result<(), S::Error>
    requires { margin + directives_levels style.now (directives_view N.bytes directives.now) * style.now.indent
        < 2 ^ 32 }
    ensures text { OnOk result (S.took out.old
        (text_of (directives_layout style.now margin (directives_view N.bytes directives.now))) out.new) }
    ensures well_formed { OnOk result (AreWellFormedDirectives (directives_view N.bytes directives.now)) }
{
    'directives: for directive in directives {
        out.push_str(" ")?;
        write_directive(out, directive, style, margin)?;
    }
    Ok(())
}
