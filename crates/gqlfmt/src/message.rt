//! The message for an input that is rejected.
ghost use Rattle.std.specs.Prelude.{◌≡◌, ◌≢◌, false, IfOk};
ghost use Rattle.graphql_standard.specs.declared.error.CheckError.TheVariants.{OutOfMemory};

use crate::arguments::{MessageFormat, MessageOptions};
use crate::name::Shown;
use crate::report::to_json;
use graphql_fmt::{CheckError, MAX_OPEN_BRACKETS, error_len, error_place, last_line, message};
use graphql_standard::check_all;
use std::alloc::{AllocError, Global};
use unicode_width::UnicodeWidthChar;

/// How many characters of a line are shown before the error, and from the error on.
const REACH: usize = 60;

/// Whether a character ends a line.
fn is_line_end(character: char) -> bool {
    matches!(character, '\n' | '\r')
}

/// A character as it is shown, in one line.
fn visible(character: char) -> char {
    if character.is_control() && character != '\t' {
        '\u{FFFD}'
    } else {
        character
    }
}

/// A line of a source as it is shown, and the marks below it.
#[derive(Drop)]
struct Excerpt {
    /// The line.
    line: String,
    /// Spaces and carets, as wide as the line up to the last caret.
    marks: String,
}

impl Excerpt {
    /// Appends a character, and below it marks as wide as it. A tab is below a tab.
    fn push(&mut self, character: char, mark: char) -> Result<(), AllocError> {
        self.line.push(visible(character))?;
        if character == '\t' {
            return self.marks.push('\t');
        }
        for _ in 0..visible(character).width().unwrap_or(0) {
            self.marks.push(mark)?;
        }
        Ok(())
    }

    /// Appends what the line has before the error.
    fn push_before(&mut self, before: &str) -> Result<(), AllocError> {
        let skipped = before.chars().count().saturating_sub(REACH);
        if skipped > 0 {
            self.line.push_str("...")?;
            self.marks.push_str("   ")?;
        }
        for character in before.chars().skip(skipped) {
            self.push(character, ' ')?;
        }
        Ok(())
    }

    /// Appends the line from the error on, with carets below the error, which has this many bytes.
    fn push_from(&mut self, rest: &str, len: usize) -> Result<(), AllocError> {
        for (shown, (index, character)) in rest.char_indices().enumerate() {
            if is_line_end(character) {
                break;
            }
            if shown == REACH {
                self.line.push_str("...")?;
                break;
            }
            if index < len {
                self.push(character, '^')?;
            } else {
                self.line.push(visible(character))?;
            }
        }
        Ok(())
    }
}

/// The line of a source with an error, and below it carets under the error. The error has this many bytes. The source is
/// given before the error and from there on. Of a long line only the part around the place is shown.
fn excerpt_of(alloc: Global, front: &str, rest: &str, len: usize) -> Result<String, AllocError> {
    let mut excerpt = Excerpt {
        line: String::new(alloc),
        marks: String::new(alloc),
    };
    excerpt.push_before(last_line(front))?;
    excerpt.push_from(rest, len)?;
    if !excerpt.marks.contains('^') {
        excerpt.marks.push('^')?;
    }
    let Excerpt { line, marks } = &excerpt;
    format!(in alloc; "{line}\n{marks}\n")
}

/// Whether an allocation failed.
fn is_out_of_memory(error: &CheckError) -> bool
    ensures { result ≡ false → error.now ≢ OutOfMemory }
{
    matches!(error, CheckError::OutOfMemory)
}

/// Appends the message about an error of a source: a line `NAME:LINE:COLUMN: MESSAGE`, and in the long format also the
/// line of the source and carets under the error; in JSON an object in one line. An error without a place is at the
/// start.
fn push_message(
    alloc: Global,
    messages: &mut String,
    name: &str,
    source: &str,
    error: &CheckError,
    format: MessageFormat,
) -> Result<(), AllocError> {
    if format == MessageFormat::Json {
        messages.push_str(&to_json(alloc, name, source, error)?)?;
        return messages.push('\n');
    }
    let name = Shown(name);
    let place = error_place(error);
    let message = message(alloc, source, error)?;
    write!(messages, "{name}:{place}: {message}\n")?;
    if format == MessageFormat::Long {
        let parts = source.split_at_checked(place.offset);
        let (front, rest) = parts.unwrap_or((source, ""));
        messages.push_str(&excerpt_of(alloc, front, rest, error_len(error))?)?;
    }
    Ok(())
}

/// Appends the messages about the errors of a source, except the first.
fn push_later(
    alloc: Global,
    messages: &mut String,
    name: &str,
    source: &str,
    options: &MessageOptions,
) -> Result<(), AllocError> {
    let errors = check_all(alloc, source, MAX_OPEN_BRACKETS)?;
    for error in errors.iter().take(options.max_errors).skip(1) {
        push_message(alloc, messages, name, source, error, options.format)?;
    }
    let more = errors.len().saturating_sub(options.max_errors.max(1));
    if more > 0 && options.format != MessageFormat::Json {
        let name = Shown(name);
        write!(messages, "{name}: and {more} more\n")?;
    }
    Ok(())
}

/// The messages for a source that is rejected with this error: the error, then those of the following definitions, and
/// how many more there are. The error is that an allocation failed, here or when the source was formatted.
pub fn rejection(
    alloc: Global,
    name: &str,
    source: &str,
    error: &CheckError,
    options: &MessageOptions,
) -> Result<String, AllocError>
    ensures { IfOk result (λ message. error.now ≢ OutOfMemory) }
{
    if is_out_of_memory(error) {
        return Err(AllocError);
    }
    let mut messages = String::new(alloc);
    push_message(alloc, &mut messages, name, source, error, options.format)?;
    push_later(alloc, &mut messages, name, source, options)?;
    Ok(messages)
}
