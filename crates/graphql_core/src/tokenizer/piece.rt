//! The lexical element (a token or ignored text) at the start of the input.
ghost use Rattle.std.specs.Prelude.{◌≡◌, ◌+◌, ◌<◌, ◌≤◌, ◌^◌, ◌∷◌, true, length, take, drop, slice_index, IfSome, Some};
ghost use Rattle.std.specs.Prelude.{false};
ghost use Rattle.std.specs.List.{prefix_len, list_all};
ghost use Rattle.std.specs.Str.{IsCharBoundary};
ghost use Rattle.graphql_core.specs.declared.tokenizer.piece.Nesting.TheVariants.{Unchanged};
ghost use Rattle.graphql_core.specs.steps.Front.{Takes};
ghost use Rattle.graphql_core.specs.declared.tokenizer.token.Kind.TheVariants.{Name, Punctuator};
ghost use Rattle.graphql_core.specs.steps.Ahead.{is_gap, is_space, is_byte_order_mark, ignored_front, FitsIgnored};
ghost use Rattle.graphql_core.specs.steps.Ahead.{taken, without_flat, FitsTaken};
ghost use Rattle.graphql_core.specs.lexical.Lexical.{is_name_start};
ghost use Rattle.graphql_core.specs.steps.Front as spec;
ghost use Rattle.graphql_core.specs.lexical.Lexical as lexical;

use crate::tokenizer::class::{is_name_start, is_punctuator_byte, is_space_or_comma, nesting_of};
use crate::tokenizer::lanes::{LANES, gap_lanes_from, name_lanes};
use crate::tokenizer::number::{number, plain_number, starts_number};
use crate::tokenizer::quoted::{plain_string_len, quoted};
use crate::tokenizer::run::{
    Flat, Gap, InComment, NameContinue, Space, class_prefix_len, len_in_one_load,
};
use crate::tokenizer::token::Kind;

/// How ignored text moves the position.
#[derive(Clone, Copy)]
pub enum Move {
    /// Not at all.
    Stay,
    /// By some columns.
    Over(usize),
    /// To the first column of the next line.
    Down,
}

/// How a token changes the number of open brackets.
#[derive(Clone, Copy)]
pub enum Nesting {
    /// The token is no bracket.
    Unchanged,
    /// The token opens a bracket.
    Opens,
    /// The token closes a bracket.
    Closes,
}

/// Ignored text at the start of the input.
#[derive(Clone, Copy)]
pub struct Skipped {
    /// The length in bytes.
    pub len: usize,
    pub by: Move,
}

/// The token at the start of the input.
#[derive(Clone, Copy)]
pub struct Taken {
    /// The length in bytes.
    pub len: usize,
    pub kind: Kind,
    pub nesting: Nesting,
}

#[inline(always)]
fn skip(len: usize, by: Move) -> Skipped
    ensures { result ≡ record { len = len; by = by } }
{
    Skipped { len, by }
}

/// A token that is no bracket.
#[inline(always)]
pub fn no_bracket(len: usize, kind: Kind) -> Taken
    ensures { result ≡ record { len = len; kind = kind; nesting = Unchanged } }
{
    let nesting = Nesting::Unchanged;
    Taken { len, kind, nesting }
}

/// The length in bytes of a comment up to its line end.
#[inline]
fn comment_len(bytes: &[u8]) -> usize
    ensures len { result ≡ prefix_len lexical.is_in_line bytes.now }
    ensures within { result ≤ length bytes.now }
{
    class_prefix_len::<InComment>(bytes)
}

/// The byte at `index`, or 0 past the end.
#[inline(always)]
pub fn byte_at(bytes: &[u8], index: usize) -> u8
    ensures { result ≡ slice_index bytes.now index }
{
    bytes.get(index).copied().unwrap_or(0)
}

/// A comment with its `#` and line end. `bytes` begin after the `#`.
#[inline(never)]
#[tactic(auto, unfolding(crate::specs::steps::Front::comment))]
fn comment(bytes: &[u8]) -> Skipped
    requires { length bytes.now < 2 ^ 62 }
    ensures { Some result ≡ ignored_front (spec.comment bytes.now) }
{
    let len = comment_len(bytes);
    match bytes[len..].split_first() {
        None => skip(len + 1, Move::Stay),
        Some((byte, rest)) => {
            if *byte == b'\r' && byte_at(rest, 0) == b'\n' {
                skip(len + 3, Move::Down)
            } else {
                skip(len + 2, Move::Down)
            }
        }
    }
}

/// The token that begins with a dot: `...` or none.
#[inline]
fn dots(bytes: &[u8]) -> Option<Taken>
    ensures { result ≡ taken (spec.dots bytes.now) }
{
    if byte_at(bytes, 1) == b'.' && byte_at(bytes, 2) == b'.' {
        Some(no_bracket(3, Kind::Punctuator))
    } else {
        None
    }
}

/// The token that begins with `byte`, the first of `bytes`, which must not begin a name.
#[tactic(auto, unfolding(crate::specs::steps::Front::other_token))]
#[inline(always)]
fn token_of(byte: u8, bytes: &[u8]) -> Option<Taken>
    requires some { 0 < length bytes.now }
    requires small { length bytes.now < 2 ^ 62 }
    ensures { result ≡ taken (spec.other_token byte bytes.now) }
{
    if is_punctuator_byte(byte) {
        Some(Taken {
            len: 1,
            kind: Kind::Punctuator,
            nesting: nesting_of(byte),
        })
    } else if byte == b'"' {
        quoted(bytes)
    } else if byte == b'.' {
        dots(bytes)
    } else if starts_number(byte) {
        number(bytes)
    } else {
        None
    }
}

/// The token at the start of `bytes`, of any kind: the slow path.
#[inline(never)]
#[tactic(auto, unfolding(crate::specs::steps::Front::front))]
fn other_token_bytes(bytes: &[u8]) -> Option<Taken>
    requires { length bytes.now < 2 ^ 62 }
    ensures { result ≡ taken (spec.front bytes.now) }
{
    match bytes.split_first() {
        None => None,
        Some((byte, rest)) => {
            if is_name_start(*byte) {
                let len = class_prefix_len::<NameContinue>(rest) + 1;
                return Some(no_bracket(len, Kind::Name));
            }
            token_of(*byte, bytes)
        }
    }
}

/// The length and kind of a string or number at the start of `bytes`, if the fast path recognizes it. This code is
/// apart from `fast_token_bytes`, because tokenizing is slower by a fifteenth with its parts there.
#[inline(always)]
fn fast_value(byte: u8, rest: &[u8], bytes: &[u8]) -> Option<(usize, Kind)>
    requires whole { bytes.now ≡ byte ∷ rest.now }
    requires small { length bytes.now < 2 ^ 62 }
    ensures is { IfSome result (λ t. spec.front bytes.now ≡ Takes t.0 t.1 Unchanged) }
    ensures flat { IfSome result (λ t. list_all spec.is_flat (take t.0 bytes.now) ≡ true) }
{
    if byte == b'"' {
        let len = plain_string_len(rest)?;
        return Some((len + 1, Kind::StringValue));
    }
    if starts_number(byte) {
        return plain_number(bytes);
    }
    None
}

/// The token at the start of `bytes`, if the fast path recognizes it: a short name, a punctuator of one character, a
/// nonempty ASCII string without escapes, or a number without an exponent. Each is ASCII without a line feed.
#[inline(always)]
fn fast_token_bytes(bytes: &[u8]) -> Option<Taken>
    requires { length bytes.now < 2 ^ 62 }
    ensures is { IfSome result (λ t. Some t ≡ taken (spec.front bytes.now)) }
    ensures flat { IfSome result (λ t. list_all spec.is_flat (take t.len bytes.now) ≡ true) }
{
    let (byte, rest) = bytes.split_first()?;
    if is_name_start(*byte) {
        let len = len_in_one_load::<NameContinue>(rest)?;
        return Some(no_bracket(len + 1, Kind::Name));
    }
    if is_punctuator_byte(*byte) {
        return Some(Taken {
            len: 1,
            kind: Kind::Punctuator,
            nesting: nesting_of(*byte),
        });
    }
    let (len, kind) = fast_value(*byte, rest, bytes)?;
    Some(no_bracket(len, kind))
}

/// Whether a token of this kind can contain line feeds or non-ASCII characters.
#[inline(always)]
fn is_quoted(kind: Kind) -> bool
    ensures { result ≡ spec.is_quoted kind }
{
    matches!(kind, Kind::StringValue | Kind::BlockString)
}

/// The token at the start of `bytes`, of any kind: the slow path of `token_bytes`. This code is apart, because a
/// function clears the memory for the results of its calls when it begins.
#[inline(always)]
fn slow_token_bytes(bytes: &[u8]) -> Option<(Taken, bool)>
    requires { length bytes.now < 2 ^ 62 }
    ensures is { without_flat result ≡ taken (spec.front bytes.now) }
    ensures flat { IfSome result (λ t. t.1 ≡ true → list_all spec.is_flat (take t.0.len bytes.now) ≡ true) }
{
    let taken = other_token_bytes(bytes)?;
    Some((taken, !is_quoted(taken.kind)))
}

/// The token at the start of `bytes`. The flag is true only if the token is ASCII without a line feed.
#[inline(always)]
fn token_bytes(bytes: &[u8]) -> Option<(Taken, bool)>
    requires { length bytes.now < 2 ^ 62 }
    ensures is { without_flat result ≡ taken (spec.front bytes.now) }
    ensures flat { IfSome result (λ t. t.1 ≡ true → list_all spec.is_flat (take t.0.len bytes.now) ≡ true) }
{
    match fast_token_bytes(bytes) {
        Some(taken) => Some((taken, true)),
        None => slow_token_bytes(bytes),
    }
}

/// The token at the start of the input, if the fast path recognizes it.
#[inline(always)]
#[tactic(auto, using(crate::proofs::lexical::Tokens::found_fits))]
pub fn fast_token_at(text: &str) -> Option<Taken>
    requires { length text.now < 2 ^ 62 }
    ensures is { IfSome result (λ t. Some t ≡ taken (spec.front text.now)) }
    ensures fits { FitsTaken text.now result }
    ensures flat { IfSome result (λ t. list_all spec.is_flat (take t.len text.now) ≡ true) }
{
    fast_token_bytes(text.as_bytes())
}

/// The token at the start of the input. The flag is true only if the token is ASCII without a line feed.
#[inline(always)]
#[tactic(auto, using(crate::proofs::lexical::Tokens::taken_fits))]
pub fn token_at(text: &str) -> Option<(Taken, bool)>
    requires { length text.now < 2 ^ 62 }
    ensures is { without_flat result ≡ taken (spec.front text.now) }
    ensures fits { FitsTaken text.now (without_flat result) }
    ensures flat { IfSome result (λ t. t.1 ≡ true → list_all spec.is_flat (take t.0.len text.now) ≡ true) }
{
    token_bytes(text.as_bytes())
}

/// The token at the start of the input: the slow path of `fast_token_at`.
#[inline(always)]
#[tactic(auto, using(crate::proofs::lexical::Tokens::taken_fits))]
pub fn slow_token_at(text: &str) -> Option<Taken>
    requires { length text.now < 2 ^ 62 }
    ensures is { result ≡ taken (spec.front text.now) }
    ensures fits { FitsTaken text.now result }
{
    other_token_bytes(text.as_bytes())
}

#[inline(always)]
fn is_byte_order_mark(byte: u8, rest: &[u8]) -> bool
    ensures { result ≡ is_byte_order_mark byte rest.now }
{
    byte == 0xEF && (byte_at(rest, 0) == 0xBB && byte_at(rest, 1) == 0xBF)
}

/// The first lexical element if it is ignored text.
#[inline(always)]
#[tactic(auto, unfolding(crate::specs::steps::Front::front))]
fn ignored_bytes(bytes: &[u8]) -> Option<Skipped>
    requires { length bytes.now < 2 ^ 62 }
    ensures { result ≡ ignored_front (spec.front bytes.now) }
{
    match bytes.split_first() {
        None => None,
        Some((byte, rest)) => {
            if *byte == b'\t' {
                Some(skip(1, Move::Over(8)))
            } else if *byte == b'\n' {
                Some(skip(1, Move::Down))
            } else if *byte == b'\r' {
                Some(skip(1, Move::Stay))
            } else if is_space_or_comma(*byte) {
                Some(skip(1, Move::Over(1)))
            } else if *byte == b'#' {
                Some(comment(rest))
            } else if is_byte_order_mark(*byte, rest) {
                Some(skip(3, Move::Stay))
            } else {
                None
            }
        }
    }
}

/// The first lexical element if it is ignored text.
#[inline(always)]
#[tactic(auto, using(crate::proofs::lexical::Spaces::ignored_fits))]
pub fn ignored_of(text: &str) -> Option<Skipped>
    requires { length text.now < 2 ^ 62 }
    ensures is { result ≡ ignored_front (spec.front text.now) }
    ensures fits { FitsIgnored text.now result }
{
    ignored_bytes(text.as_bytes())
}

/// The number of spaces at the start of the input, if one load shows their end.
#[inline(always)]
#[tactic(auto, using(crate::proofs::lexical::Spaces::found_boundary))]
pub fn spaces_in_one_load(text: &str) -> Option<usize>
    ensures len { IfSome result (λ n. n ≡ prefix_len is_space text.now) }
    ensures within { IfSome result (λ n. n ≤ length text.now) }
    ensures cuts { IfSome result (λ n. IsCharBoundary text.now n) }
{
    len_in_one_load::<Space>(text.as_bytes())
}

/// The number of spaces at the start of the input.
#[inline(always)]
#[tactic(auto, using(crate::proofs::lexical::Spaces::spaces_boundary))]
pub fn spaces_of(text: &str) -> usize
    ensures len { result ≡ prefix_len is_space text.now }
    ensures within { result ≤ length text.now }
    ensures cuts { IsCharBoundary text.now result }
{
    class_prefix_len::<Space>(text.as_bytes())
}

/// The number of bytes before the first line feed or non-ASCII character.
#[inline(always)]
#[tactic(auto, using(crate::proofs::lexical::Spaces::flat_boundary))]
pub fn flat_of(text: &str) -> usize
    ensures len { result ≡ prefix_len spec.is_flat text.now }
    ensures within { result ≤ length text.now }
    ensures cuts { IsCharBoundary text.now result }
{
    class_prefix_len::<Flat>(text.as_bytes())
}

/// Whether the input begins with a name.
#[inline(always)]
pub fn begins_with_name(text: &str) -> bool
    ensures { result ≡ is_name_start (slice_index text.now 0) }
{
    is_name_start(byte_at(text.as_bytes(), 0))
}

/// The length of the name at the start of the input, and of the gap after it, as far as one load shows them. `None` if
/// the load does not show the end of the name.
#[inline(always)]
pub fn name_in_one_load<G: Gap>(text: &str) -> Option<(usize, usize)>
    requires begins { is_name_start (slice_index text.now 0) ≡ true }
    requires long { 17 ≤ length text.now }
    requires small { length text.now < 2 ^ 62 }
    ensures is { IfSome result (λ n. taken (Takes n.0 Name Unchanged) ≡ taken (spec.front text.now)) }
    ensures gap { IfSome result (λ n. n.1 ≤ prefix_len G.has (drop n.0 text.now)) }
    ensures cuts { IfSome result (λ n. IsCharBoundary text.now n.0) }
{
    let (_, rest) = text.as_bytes().split_first()?;
    let len = name_lanes(rest);
    if len == LANES {
        return None;
    }
    Some((len + 1, G::lanes_from(rest, len)))
}

/// How the punctuator of one character at the start of the input changes the number of open brackets, and the length of
/// the gap after it, as far as one load shows it. `None` if no such punctuator is there.
#[inline(always)]
pub fn punctuator_in_one_load(text: &str) -> Option<(Nesting, usize)>
    requires other { is_name_start (slice_index text.now 0) ≡ false }
    requires long { 17 ≤ length text.now }
    ensures is { IfSome result (λ n. taken (Takes 1 Punctuator n.0) ≡ taken (spec.front text.now)) }
    ensures gap { IfSome result (λ n. n.1 ≤ prefix_len is_gap (drop 1 text.now)) }
    ensures cuts { IfSome result (λ n. IsCharBoundary text.now 1) }
{
    let (byte, rest) = text.as_bytes().split_first()?;
    if !is_punctuator_byte(*byte) {
        return None;
    }
    Some((nesting_of(*byte), gap_lanes_from(rest, 0)))
}
