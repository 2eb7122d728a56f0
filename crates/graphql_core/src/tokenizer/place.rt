//! Positions after ignored text and after tokens.
ghost use Rattle.std.specs.Prelude.{◌≡◌, ◌+◌, ◌<◌, ◌≤◌, ◌^◌, length, true};
ghost use Rattle.std.specs.List.{list_all};
ghost use Rattle.graphql_core.specs.{steps_over, moved, past, is_no_line_feed};
ghost use Rattle.graphql_core.specs.declared.tokenizer.piece.Move.TheVariants.{Over, Down};
ghost use Rattle.graphql_core.specs.steps.Front as steps;

use crate::position::Pos;
use crate::tokenizer::characters::character_count;
use crate::tokenizer::line::line_len;
use crate::tokenizer::piece::{Move, flat_of};

/// The position after ignored text.
#[inline(always)]
pub fn position_after_move(by: Move, at: Pos) -> Pos
    requires line { at.line + 1 < 2 ^ 64 }
    requires column { at.column + steps_over by < 2 ^ 64 }
    ensures { result ≡ moved by at }
{
    match by {
        Move::Stay => at,
        Move::Over(steps) => position_after_spaces(steps, at),
        Move::Down => position_after_line(at),
    }
}

/// The position after some spaces.
#[inline(always)]
pub fn position_after_spaces(spaces: usize, at: Pos) -> Pos
    requires { at.column + spaces < 2 ^ 64 }
    ensures { result ≡ moved (Over spaces) at }
{
    Pos {
        line: at.line,
        column: at.column + spaces,
    }
}

/// The position after a part of a token without a line feed.
#[inline(always)]
fn position_in_line(part: &str, at: Pos) -> Pos
    requires column { at.column + length part.now < 2 ^ 64 }
    requires line { list_all is_no_line_feed part.now ≡ true }
    ensures is { result ≡ past part.now at }
    ensures line { result.line ≡ at.line }
    ensures column { result.column ≤ at.column + length part.now }
{
    Pos {
        line: at.line,
        column: at.column + character_count(part),
    }
}

/// The position after a token that can contain line feeds or non-ASCII characters. Most lines are ASCII.
#[inline(never)]
fn position_after_characters(value: &str, at: Pos) -> Pos
    requires line { at.line + length value.now < 2 ^ 62 }
    requires column { at.column + length value.now < 2 ^ 63 }
    ensures is { result ≡ past value.now at }
    ensures line { result.line ≤ at.line + length value.now }
    ensures column { result.column ≤ at.column + length value.now }
{
    let mut rest = value;
    let mut place = at;
    'lines: loop {
        let (flat, other) = rest.split_at(flat_of(rest));
        place = position_after_flat(flat, place);
        if let Some(lines) = other.strip_prefix('\n') {
            place = position_after_line(place);
            rest = lines;
        } else if other.is_empty() {
            return place;
        } else {
            let (part, after) = other.split_at(line_len(other));
            place = position_in_line(part, place);
            let Some(lines) = after.strip_prefix('\n') else {
                return place;
            };
            place = position_after_line(place);
            rest = lines;
        }
    }
}

/// The position after an ASCII token without a line feed.
#[inline(always)]
#[tactic(auto, using(crate::proofs::lexical::Positions::past_flat))]
pub fn position_after_flat(value: &str, at: Pos) -> Pos
    requires line { at.line + length value.now < 2 ^ 62 }
    requires column { at.column + length value.now < 2 ^ 63 }
    requires flat { list_all steps.is_flat value.now ≡ true }
    ensures is { result ≡ past value.now at }
    ensures line { result.line ≤ at.line + length value.now }
    ensures column { result.column ≤ at.column + length value.now }
{
    Pos {
        line: at.line,
        column: at.column + value.len(),
    }
}

/// The position after a token. `is_flat` must be true only if the token is ASCII without a line feed.
#[inline(always)]
pub fn position_after_token(is_flat: bool, value: &str, at: Pos) -> Pos
    requires line { at.line + length value.now < 2 ^ 62 }
    requires column { at.column + length value.now < 2 ^ 63 }
    requires flat { is_flat ≡ true → list_all steps.is_flat value.now ≡ true }
    ensures is { result ≡ past value.now at }
    ensures line { result.line ≤ at.line + length value.now }
    ensures column { result.column ≤ at.column + length value.now }
{
    if is_flat {
        position_after_flat(value, at)
    } else {
        position_after_characters(value, at)
    }
}

/// The start of the next line.
#[inline(always)]
pub fn position_after_line(at: Pos) -> Pos
    requires { at.line + 1 < 2 ^ 64 }
    ensures { result ≡ moved Down at }
{
    Pos {
        line: at.line + 1,
        column: 1,
    }
}
