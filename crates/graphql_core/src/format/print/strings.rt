//! Strings, in quotes or in block form.
ghost use Rattle.std.specs.Prelude.{◌+◌, ◌*◌, ◌^◌, ◌<◌, OnOk};
ghost use Rattle.graphql_core.specs.{text_of, string_layout, string_levels};

use crate::format::print::block::{has_block_form, write_block};
use crate::format::print::quotes::{is_plain, write_escaped, write_plain};
use crate::format::{Sink, Style};

/// Appends a string: in block form if `has_block_form` returns true, else in quotes. One scan shows that most strings
/// need no escape.
pub fn write_string<S: Sink>(
    out: &mut S,
    text: &str,
    style: &Style,
    margin: usize,
) -> Result<(), S::Error>
    requires { margin + string_levels text.now * style.now.indent < 2 ^ 32 }
    ensures { OnOk result (S.took out.old (text_of (string_layout style.now margin text.now)) out.new) }
{
    if is_plain(text) {
        return write_plain(out, text);
    }
    write_special(out, text, style, margin)
}

/// Appends a string as `write_string` does, with no scan for strings that need no escape.
fn write_special<S: Sink>(
    out: &mut S,
    text: &str,
    style: &Style,
    margin: usize,
) -> Result<(), S::Error>
    requires { margin + string_levels text.now * style.now.indent < 2 ^ 32 }
    ensures { OnOk result (S.took out.old (text_of (string_layout style.now margin text.now)) out.new) }
{
    if has_block_form(text) {
        let inside = margin + style.indentation() as usize;
        write_block(out, text, inside, margin)
    } else {
        write_escaped(out, text)
    }
}
