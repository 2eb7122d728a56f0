//! Strings in quotes.
ghost use Rattle.std.specs.Prelude.{◌≡◌, ◌<◌, ◌≤◌, true, false, length, OnOk};
ghost use Rattle.std.specs.Char.{encode_utf8};
ghost use Rattle.std.specs.List.{prefix_len};
ghost use Rattle.std.specs.Str.{IsCharBoundary};
ghost use Rattle.graphql_core.specs.steps.Unescaped.{is_unescaped};
ghost use Rattle.graphql_core.specs.layouts.ValueLayout as spec;

use crate::format::Sink;
use crate::tokenizer::lanes::first_set;
use crate::tokenizer::run::{Class, class_prefix_len};
use std::simd::prelude::*;

/// Bytes that need no escape in quotes.
struct Unescaped;

impl Class for Unescaped {
    ghost use Rattle.graphql_core.specs.steps.Unescaped.{is_unescaped};

    ghost has = { is_unescaped };

    #[inline(always)]
    fn lanes(bytes: &[u8]) -> usize {
        let v = u8x16::from_slice(bytes);
        let stops = v.simd_eq(u8x16::splat(b'"'))
            | v.simd_eq(u8x16::splat(b'\\'))
            | v.simd_lt(u8x16::splat(32));
        first_set(stops.to_bitmask())
    }
}

/// An upper-case hexadecimal digit.
fn hexadecimal_digit(value: u8) -> char
    requires { value < 16 }
    ensures { result ≡ spec.hexadecimal_digit value }
{
    b"0123456789ABCDEF"[value as usize] as char
}

fn write_character<S: Sink>(out: &mut S, character: char) -> Result<(), S::Error>
    ensures { OnOk result (S.took out.old (encode_utf8 character) out.new) }
{
    let mut bytes = [0; 4];
    out.push_str(character.encode_utf8(&mut bytes))
}

/// Appends the escape of a control character: `\u` and four hexadecimal digits.
fn write_control<S: Sink>(out: &mut S, control: u8) -> Result<(), S::Error>
    requires { control < 32 }
    ensures { OnOk result (S.took out.old (spec.unicode_escape control) out.new) }
{
    if control < 16 {
        out.push_str("\\u000")?;
        write_character(out, hexadecimal_digit(control))
    } else {
        out.push_str("\\u001")?;
        write_character(out, hexadecimal_digit(control - 16))
    }
}

/// How many bytes at the front of a string need no escape in quotes.
#[tactic(auto, using(crate::proofs::strings::QuotedText::unescaped_boundary))]
fn unescaped_len(text: &str) -> usize
    ensures len { result ≡ prefix_len is_unescaped text.now }
    ensures within { result ≤ length text.now }
    ensures cuts { IsCharBoundary text.now result }
{
    class_prefix_len::<Unescaped>(text.as_bytes())
}

fn write_escape<S: Sink>(out: &mut S, byte: u8) -> Result<(), S::Error>
    requires { is_unescaped byte ≡ false }
    ensures { OnOk result (S.took out.old (spec.quoted_byte byte) out.new) }
{
    match byte {
        b'\r' => out.push_str("\\r"),
        b'\n' => out.push_str("\\n"),
        b'\t' => out.push_str("\\t"),
        b'"' => out.push_str("\\\""),
        b'\\' => out.push_str("\\\\"),
        _ => write_control(out, byte),
    }
}

/// Whether a string needs no escape in quotes. Such a string has no line feed, so no block form.
pub fn is_plain(text: &str) -> bool
    ensures plain { result ≡ true → prefix_len is_unescaped text.now ≡ length text.now }
    ensures in_quotes { result ≡ true → spec.has_block_form text.now ≡ false }
{
    unescaped_len(text) == text.len()
}

/// Appends a string that needs no escape, in quotes.
pub fn write_plain<S: Sink>(out: &mut S, text: &str) -> Result<(), S::Error>
    requires { prefix_len is_unescaped text.now ≡ length text.now }
    ensures { OnOk result (S.took out.old (spec.quoted text.now) out.new) }
{
    out.push_three("\"", text, "\"")
}

/// Appends a string in quotes.
pub fn write_quoted<S: Sink>(out: &mut S, text: &str) -> Result<(), S::Error>
    ensures { OnOk result (S.took out.old (spec.quoted text.now) out.new) }
{
    if is_plain(text) {
        return write_plain(out, text);
    }
    write_escaped(out, text)
}

/// Appends a string in quotes, run by run between the bytes that need an escape.
#[inline(never)]
pub fn write_escaped<S: Sink>(out: &mut S, text: &str) -> Result<(), S::Error>
    ensures { OnOk result (S.took out.old (spec.quoted text.now) out.new) }
{
    out.push_str("\"")?;
    let mut rest = text;
    'runs: loop {
        let (run, after) = rest.split_at(unescaped_len(rest));
        out.push_str(run)?;
        let Some(byte) = after.as_bytes().first() else {
            return out.push_str("\"");
        };
        write_escape(out, *byte)?;
        rest = after.split_at(1).1;
    }
}
