//! Pieces of JSON texts.
ghost use Rattle.std.specs.Prelude.{[], codes, OnOk};
ghost use Rattle.graphql_core.specs.{decimal, place_of, quoted};
ghost use Rattle.graphql_core.specs.layouts.ValueLayout.{boolean_name};
ghost use Rattle.graphql_json.specs.steps.Pieces.{Appends};
ghost use Rattle.graphql_json.specs.{json_text, separator, one, each, label, later, opening, place_json, located};
ghost use Rattle.graphql_json.specs.{spanned};
ghost use Rattle.graphql_json.specs.Json as json;

use graphql_core::format::{Buffer, Sink, print};
use graphql_core::position::Pos;
use std::alloc::AllocError;

/// Appends a text as it is.
pub fn write_text(out: &mut Buffer, text: &str) -> Result<(), AllocError>
    ensures { OnOk result (Appends out.old text.now out.new) }
{
    out.push_str(text)
}

/// Appends a string in quotes, with its escapes.
fn write_quoted(out: &mut Buffer, text: &str) -> Result<(), AllocError>
    ensures { OnOk result (Appends out.old (quoted text.now) out.new) }
{
    print::write_quoted(out, text)
}

/// Appends a comma if `is_later`.
pub fn write_separator(out: &mut Buffer, is_later: bool) -> Result<(), AllocError>
    ensures { OnOk result (Appends out.old (separator is_later) out.new) }
{
    if is_later {
        write_text(out, ",")
    } else {
        write_text(out, "")
    }
}

/// Appends the name of a member that is not the first one.
pub fn write_label(out: &mut Buffer, name: &str) -> Result<(), AllocError>
    ensures { OnOk result (Appends out.old (label name.now) out.new) }
{
    write_text(out, ",")?;
    write_quoted(out, name)?;
    write_text(out, ":")
}

/// Appends a member whose value is a string.
pub fn write_string(out: &mut Buffer, name: &str, text: &str) -> Result<(), AllocError>
    ensures { OnOk result (Appends out.old (later (one name.now (json.string text.now))) out.new) }
{
    write_label(out, name)?;
    write_quoted(out, text)
}

fn write_truth(out: &mut Buffer, value: bool) -> Result<(), AllocError>
    ensures { OnOk result (Appends out.old (boolean_name value) out.new) }
{
    if value {
        write_text(out, "true")
    } else {
        write_text(out, "false")
    }
}

/// Appends a member whose value is a boolean.
pub fn write_boolean(out: &mut Buffer, name: &str, value: bool) -> Result<(), AllocError>
    ensures { OnOk result (Appends out.old (later (one name.now (json.boolean value))) out.new) }
{
    write_label(out, name)?;
    write_truth(out, value)
}

/// Appends a member whose value is an empty list.
pub fn write_empty_list(out: &mut Buffer, name: &str) -> Result<(), AllocError>
    ensures { OnOk result (Appends out.old (later (each name.now [])) out.new) }
{
    write_label(out, name)?;
    write_text(out, "[]")
}

/// Appends a number.
fn write_number(out: &mut Buffer, number: usize) -> Result<(), AllocError>
    ensures { OnOk result (Appends out.old (decimal number) out.new) }
{
    let mut digits = itoa::Buffer::new();
    write_text(out, digits.format(number))
}

/// Appends a line and a column.
fn write_place(out: &mut Buffer, position: &Pos) -> Result<(), AllocError>
    ensures { OnOk result (Appends out.old (json_text (place_json (place_of position.now))) out.new) }
{
    write_text(out, "{\"line\":")?;
    write_number(out, position.line)?;
    write_text(out, ",\"column\":")?;
    write_number(out, position.column)?;
    write_text(out, "}")
}

/// Appends the position of a node.
pub fn write_position(out: &mut Buffer, position: &Pos) -> Result<(), AllocError>
    ensures { OnOk result (Appends out.old (later (located (place_of position.now))) out.new) }
{
    write_label(out, "position")?;
    write_place(out, position)
}

/// Appends the positions of the first and the last token of a node.
pub fn write_span(out: &mut Buffer, span: &(Pos, Pos)) -> Result<(), AllocError>
    ensures { OnOk result (Appends out.old (later (spanned (place_of span.now.0) (place_of span.now.1))) out.new) }
{
    write_position(out, &span.0)?;
    write_label(out, "endPosition")?;
    write_place(out, &span.1)
}

/// Begins a node with its kind.
pub fn open_node(out: &mut Buffer, kind: &str) -> Result<(), AllocError>
    ensures { OnOk result (Appends out.old (opening kind.now) out.new) }
{
    write_text(out, "{\"kind\":")?;
    write_quoted(out, kind)
}

/// Ends a node.
pub fn close_node(out: &mut Buffer) -> Result<(), AllocError>
    ensures { OnOk result (Appends out.old (codes "}") out.new) }
{
    write_text(out, "}")
}
