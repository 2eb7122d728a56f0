//! What a byte can begin, by one table lookup.
ghost use Rattle.std.specs.Prelude.{◌≡◌, ◌≤◌};
ghost use Rattle.graphql_core.specs.lexical.Lexical as lexical;
ghost use Rattle.graphql_core.specs.steps.Ahead as ahead;

use crate::tokenizer::piece::Nesting;

// The class of each byte: `a` begins a name, `(` is an opening bracket, `)` is a closing bracket, and `!` is any other
// punctuator of one byte. `n` is a line feed, `r` is a carriage return, `s` is a space or a comma, `t` is a tab, `o`
// begins other ignored text, and `.` is any other byte. Punctuators have the least classes and ignored text the
// greatest: one comparison tests for either.
static CLASSES: [u8; 256] = *b"\
    .........tn..r..................\
    s!.o!.!.()..s.............!..!..\
    !aaaaaaaaaaaaaaaaaaaaaaaaaa(.).a\
    .aaaaaaaaaaaaaaaaaaaaaaaaaa(!)..\
    ................................\
    ................................\
    ................................\
    ...............o................";

// The columns that a space, a comma, a tab or a carriage return takes. The value of any other byte is 0.
static COLUMNS: [u8; 256] = *b"\
    \0\0\0\0\0\0\0\0\0\x08\0\0\0\0\0\0\0\0\0\0\0\0\0\0\0\0\0\0\0\0\0\0\
    \x01\0\0\0\0\0\0\0\0\0\0\0\x01\0\0\0\0\0\0\0\0\0\0\0\0\0\0\0\0\0\0\0\
    \0\0\0\0\0\0\0\0\0\0\0\0\0\0\0\0\0\0\0\0\0\0\0\0\0\0\0\0\0\0\0\0\
    \0\0\0\0\0\0\0\0\0\0\0\0\0\0\0\0\0\0\0\0\0\0\0\0\0\0\0\0\0\0\0\0\
    \0\0\0\0\0\0\0\0\0\0\0\0\0\0\0\0\0\0\0\0\0\0\0\0\0\0\0\0\0\0\0\0\
    \0\0\0\0\0\0\0\0\0\0\0\0\0\0\0\0\0\0\0\0\0\0\0\0\0\0\0\0\0\0\0\0\
    \0\0\0\0\0\0\0\0\0\0\0\0\0\0\0\0\0\0\0\0\0\0\0\0\0\0\0\0\0\0\0\0\
    \0\0\0\0\0\0\0\0\0\0\0\0\0\0\0\0\0\0\0\0\0\0\0\0\0\0\0\0\0\0\0\0";

/// Whether a name can begin with this byte.
#[inline(always)]
pub fn is_name_start(byte: u8) -> bool
    ensures { result ≡ lexical.is_name_start byte }
{
    CLASSES[byte as usize] == b'a'
}

#[inline(always)]
fn is_opener(byte: u8) -> bool
    ensures { result ≡ lexical.is_opener byte }
{
    CLASSES[byte as usize] == b'('
}

#[inline(always)]
fn is_closer(byte: u8) -> bool
    ensures { result ≡ lexical.is_closer byte }
{
    CLASSES[byte as usize] == b')'
}

/// Whether the byte is a punctuator of one character.
#[inline(always)]
pub fn is_punctuator_byte(byte: u8) -> bool
    ensures { result ≡ lexical.is_punctuator_byte byte }
{
    CLASSES[byte as usize] <= b')'
}

/// How the punctuator of this byte changes the number of open brackets.
#[inline(always)]
pub fn nesting_of(byte: u8) -> Nesting
    ensures { result ≡ lexical.nesting_of byte }
{
    if is_opener(byte) {
        Nesting::Opens
    } else if is_closer(byte) {
        Nesting::Closes
    } else {
        Nesting::Unchanged
    }
}

/// Whether ignored text can begin with this byte. A byte order mark has two more bytes.
#[inline(always)]
pub fn can_begin_ignored(byte: u8) -> bool
    ensures { result ≡ ahead.can_begin_ignored byte }
{
    CLASSES[byte as usize] >= b'n'
}

/// Whether the byte is a line feed.
#[inline(always)]
pub fn is_line_feed(byte: u8) -> bool
    ensures { result ≡ ahead.is_line_feed byte }
{
    CLASSES[byte as usize] == b'n'
}

/// Whether the byte is a space or a comma.
#[inline(always)]
pub fn is_space_or_comma(byte: u8) -> bool
    ensures { result ≡ ahead.is_space_or_comma byte }
{
    CLASSES[byte as usize] == b's'
}

/// Whether the byte is a space, a comma, a tab or a carriage return.
#[inline(always)]
pub fn is_spacing(byte: u8) -> bool
    ensures { result ≡ ahead.is_spacing byte }
{
    CLASSES[byte as usize] >= b'r'
}

/// The columns that a space, a comma, a tab or a carriage return takes.
#[inline(always)]
pub fn columns_of(byte: u8) -> usize
    ensures is { result ≡ ahead.columns_of byte }
    ensures most { result ≤ 8 }
{
    COLUMNS[byte as usize] as usize
}
