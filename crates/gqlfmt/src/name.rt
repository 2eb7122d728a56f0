//! File names as the program writes them.

use std::fmt;

/// A file name in a message. An empty name, or one with a character that is not shown as it is, is written in quotes,
/// with escapes.
#[derive(Clone, Copy)]
pub struct Shown<'a>(pub &'a str);

/// A file name in the header of a diff. `patch` and `git apply` would misread a name with a space, a quote, a backslash
/// or a control character. So such a name is written in quotes, with escapes, and so is one with a character that is not
/// shown as it is.
#[derive(Clone, Copy)]
pub struct InHeader<'a>(pub &'a str);

impl fmt::Display for Shown<'_> {
    fn fmt<W: fmt::Write>(&self, f: &mut fmt::Formatter<W>) -> fmt::Result {
        if self.0.is_empty() || self.0.chars().any(is_not_shown) {
            write_quoted(f, self.0)
        } else {
            f.write_str(self.0)
        }
    }
}

impl fmt::Display for InHeader<'_> {
    fn fmt<W: fmt::Write>(&self, f: &mut fmt::Formatter<W>) -> fmt::Result {
        if self.0.chars().any(needs_quotes) {
            write_quoted(f, self.0)
        } else {
            f.write_str(self.0)
        }
    }
}

/// Whether a character changes the direction of the text around it, so that a name reads as another one: the property
/// `Bidi_Control` of Unicode.
fn changes_direction(character: char) -> bool {
    matches!(
        character,
        '\u{61C}' | '\u{200E}' | '\u{200F}' | '\u{202A}'..='\u{202E}' | '\u{2066}'..='\u{2069}',
    )
}

/// Whether a character of a name is not shown as it is: a control character, or one that changes the direction of text.
fn is_not_shown(character: char) -> bool {
    character.is_control() || changes_direction(character)
}

/// Whether a name with this character has to be quoted in the header of a diff.
fn needs_quotes(character: char) -> bool {
    is_not_shown(character) || matches!(character, ' ' | '"' | '\\')
}

/// Writes a name in quotes, as C writes a string.
fn write_quoted<W: fmt::Write>(f: &mut fmt::Formatter<W>, name: &str) -> fmt::Result {
    f.write_char('"')?;
    for character in name.chars() {
        write_escaped(f, character)?;
    }
    f.write_char('"')
}

/// Writes a character as its bytes in UTF-8, each with three octal digits.
fn write_bytes<W: fmt::Write>(f: &mut fmt::Formatter<W>, character: char) -> fmt::Result {
    let mut buffer = [0u8; 4];
    for byte in character.encode_utf8(&mut buffer).bytes() {
        write!(f, "\\{byte:03o}")?;
    }
    Ok(())
}

/// Writes a character of a string of C.
fn write_escaped<W: fmt::Write>(f: &mut fmt::Formatter<W>, character: char) -> fmt::Result {
    match character {
        '"' => f.write_str("\\\""),
        '\\' => f.write_str("\\\\"),
        '\n' => f.write_str("\\n"),
        '\r' => f.write_str("\\r"),
        '\t' => f.write_str("\\t"),
        _ if is_not_shown(character) => write_bytes(f, character),
        _ => f.write_char(character),
    }
}
