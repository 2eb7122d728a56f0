//! Skips ignored text (October 2021, section 2.1.7) at the start of the input.
ghost use Rattle.std.specs.Prelude.{◌≡◌, ◌≤◌, IfSome, length, slice_index, true};
ghost use Rattle.std.specs.List.{prefix_len};
ghost use Rattle.graphql_core.specs.{front, IsItem, CannotOverflow, SkipsTo, HasContentsOf, is_space_or_comma, is_gap};

use crate::position::Pos;
use crate::tokenizer::class::{can_begin_ignored, columns_of, is_line_feed, is_spacing};
use crate::tokenizer::piece::{byte_at, ignored_of, spaces_in_one_load, spaces_of};
use crate::tokenizer::place::{position_after_line, position_after_move, position_after_spaces};

/// Skips any ignored text, one element at a time.
#[cold]
#[inline(never)]
fn skip_elements(text: &str, at: Pos) -> (&str, Pos)
    requires { CannotOverflow text.now at }
    ensures skips { SkipsTo text.now at result.0.now result.1 }
    ensures first { IsItem (front result.0.now) }
{
    let mut rest = text;
    let mut place = at;
    'skips: while let Some(ignored) = ignored_of(rest) {
        let after = rest.split_at(ignored.len).1;
        let spaces = spaces_of(after);
        place = position_after_spaces(spaces, position_after_move(ignored.by, place));
        rest = after.split_at(spaces).1;
    }
    (rest, place)
}

/// Skips any ignored text: the slow path of `skip_ignored`. The call is apart, because a function clears the memory for
/// the results of its calls when it begins.
#[inline(always)]
fn skip_rare(text: &str, at: Pos) -> (&str, Pos)
    requires { CannotOverflow text.now at }
    ensures skips { SkipsTo text.now at result.0.now result.1 }
    ensures first { IsItem (front result.0.now) }
{
    skip_elements(text, at)
}

/// The first byte, or 0 for empty input.
#[inline(always)]
fn first_byte(text: &str) -> u8
    ensures { result ≡ slice_index text.now 0 }
{
    byte_at(text.as_bytes(), 0)
}

/// Skips spaces, commas, tabs and line ends. The flag is true only if all ignored text was skipped. The flag is false
/// before other ignored text, and where one load does not show the end of the spaces after a line feed.
#[inline(always)]
#[tactic(auto, using(crate::proofs::lexical::Tokens::first_bytes))]
fn skip_common(text: &str, at: Pos) -> (&str, Pos, bool)
    requires { CannotOverflow text.now at }
    ensures skips { SkipsTo text.now at result.0.now result.1 }
    ensures first { result.2 ≡ true → IsItem (front result.0.now) }
{
    let mut rest = text;
    let mut place = at;
    'common: loop {
        let byte = first_byte(rest);
        if !can_begin_ignored(byte) {
            return (rest, place, true);
        }
        if is_line_feed(byte) {
            place = position_after_line(place);
            let after = rest.split_at(1).1;
            let Some(spaces) = spaces_in_one_load(after) else {
                return (after, place, false);
            };
            place = position_after_spaces(spaces, place);
            rest = after.split_at(spaces).1;
        } else if is_spacing(byte) {
            place = position_after_spaces(columns_of(byte), place);
            rest = rest.split_at(1).1;
        } else {
            return (rest, place, false);
        }
    }
}

/// Skips spaces, commas, tabs and line ends, without a position. Returns `None` where the flag of `skip_common`
/// is false.
#[inline(always)]
#[tactic(auto, using(crate::proofs::lexical::Tokens::first_bytes))]
fn after_common(text: &str) -> Option<&str>
    ensures skips { IfSome result (λ rest. HasContentsOf rest.now text.now × (length rest.now ≤ length text.now)) }
    ensures first { IfSome result (λ rest. IsItem (front rest.now)) }
{
    let mut rest = text;
    'common: loop {
        let byte = first_byte(rest);
        if !can_begin_ignored(byte) {
            return Some(rest);
        }
        if is_line_feed(byte) {
            let after = rest.split_at(1).1;
            let spaces = spaces_in_one_load(after)?;
            rest = after.split_at(spaces).1;
        } else if is_spacing(byte) {
            rest = rest.split_at(1).1;
        } else {
            return None;
        }
    }
}

/// Whether the input is nonempty and its first byte cannot begin ignored text.
#[inline(always)]
fn shows_item(text: &str) -> bool
    ensures { result ≡ true → IsItem (front text.now) }
{
    !text.is_empty() && !can_begin_ignored(first_byte(text))
}

/// The result of `after_common`, for input that begins with this number of spaces, commas and line feeds.
#[inline(always)]
pub fn after_gap(text: &str, gap: usize) -> Option<&str>
    requires { gap ≤ prefix_len is_gap text.now }
    ensures skips { IfSome result (λ rest. HasContentsOf rest.now text.now × (length rest.now ≤ length text.now)) }
    ensures first { IfSome result (λ rest. IsItem (front rest.now)) }
{
    let rest = text.split_at(gap).1;
    if shows_item(rest) {
        return Some(rest);
    }
    after_common(rest)
}

/// Skips all ignored text.
#[inline(always)]
pub fn skip_ignored(text: &str, at: Pos) -> (&str, Pos)
    requires { CannotOverflow text.now at }
    ensures skips { SkipsTo text.now at result.0.now result.1 }
    ensures first { IsItem (front result.0.now) }
{
    let (rest, place, is_item) = skip_common(text, at);
    if is_item {
        (rest, place)
    } else {
        skip_rare(rest, place)
    }
}

/// Skips all ignored text, which begins with this number of spaces and commas.
#[inline(always)]
pub fn skip_from_blanks(text: &str, blanks: usize, at: Pos) -> (&str, Pos)
    requires no_overflow { CannotOverflow text.now at }
    requires blanks { blanks ≤ prefix_len is_space_or_comma text.now }
    ensures skips { SkipsTo text.now at result.0.now result.1 }
    ensures first { IsItem (front result.0.now) }
{
    let after = text.split_at(blanks).1;
    skip_ignored(after, position_after_spaces(blanks, at))
}
