//! Lengths of runs of bytes of a class, 16 bytes at a time.
ghost use Rattle.std.specs.Prelude.{◌≡◌, ◌<◌, ◌≤◌, length, IfSome};
ghost use Rattle.std.specs.List.{prefix_len};

use crate::tokenizer::lanes::{
    LANES, blank_lanes_from, block_lanes, digit_lanes, flat_lanes, gap_lanes_from, in_string_lanes,
    line_lanes, name_lanes, no_backslash_lanes, no_feed_lanes, space_lanes, string_lanes,
};

/// A class of bytes.
pub trait Class {
    ghost use Rattle.std.specs.Prelude.{◌≡◌, ◌≤◌, ℕ, Bool, length, take};
    ghost use Rattle.std.specs.List.{prefix_len};

    ghost has: { ℕ → Bool };

    /// How many of the first 16 bytes, from the first on, are in the class.
    fn lanes(bytes: &[u8]) -> usize
        requires { 16 ≤ length bytes.now }
        ensures { result ≡ prefix_len has (take 16 bytes.now) };
}

/// The bytes that can continue a name.
pub struct NameContinue;

impl Class for NameContinue {
    ghost use Rattle.graphql_core.specs.lexical.Lexical.{is_name_continue};

    ghost has = { is_name_continue };

    #[inline(always)]
    fn lanes(bytes: &[u8]) -> usize {
        name_lanes(bytes)
    }
}

/// The space.
pub struct Space;

impl Class for Space {
    ghost use Rattle.graphql_core.specs.steps.Ahead.{is_space};

    ghost has = { is_space };

    #[inline(always)]
    fn lanes(bytes: &[u8]) -> usize {
        space_lanes(bytes)
    }
}

/// ASCII except quote, backslash and line feed.
pub struct PlainInString;

impl Class for PlainInString {
    ghost use Rattle.graphql_core.specs.steps.Ahead.{is_plain_in_string};

    ghost has = { is_plain_in_string };

    #[inline(always)]
    fn lanes(bytes: &[u8]) -> usize {
        string_lanes(bytes)
    }
}

/// All bytes except quote, backslash and line feed.
pub struct InString;

impl Class for InString {
    ghost use Rattle.graphql_core.specs.steps.Ahead.{is_in_string};

    ghost has = { is_in_string };

    #[inline(always)]
    fn lanes(bytes: &[u8]) -> usize {
        in_string_lanes(bytes)
    }
}

/// All bytes except quote and backslash.
pub struct PlainInBlock;

impl Class for PlainInBlock {
    ghost use Rattle.graphql_core.specs.steps.Ahead.{is_plain_in_block};

    ghost has = { is_plain_in_block };

    #[inline(always)]
    fn lanes(bytes: &[u8]) -> usize {
        block_lanes(bytes)
    }
}

/// ASCII except line feed: each such byte takes one column.
pub struct Flat;

impl Class for Flat {
    ghost use Rattle.graphql_core.specs.steps.Front.{is_flat};

    ghost has = { is_flat };

    #[inline(always)]
    fn lanes(bytes: &[u8]) -> usize {
        flat_lanes(bytes)
    }
}

/// All bytes except line feed.
pub struct NoLineFeed;

impl Class for NoLineFeed {
    ghost use Rattle.graphql_core.specs.steps.Ahead.{is_no_line_feed};

    ghost has = { is_no_line_feed };

    #[inline(always)]
    fn lanes(bytes: &[u8]) -> usize {
        no_feed_lanes(bytes)
    }
}

/// All bytes except backslash.
pub struct NoBackslash;

impl Class for NoBackslash {
    ghost use Rattle.graphql_core.specs.steps.Ahead.{is_no_backslash};

    ghost has = { is_no_backslash };

    #[inline(always)]
    fn lanes(bytes: &[u8]) -> usize {
        no_backslash_lanes(bytes)
    }
}

/// A digit.
pub struct Digit;

impl Class for Digit {
    ghost use Rattle.std.specs.Char.{is_ascii_digit};

    ghost has = { is_ascii_digit };

    #[inline(always)]
    fn lanes(bytes: &[u8]) -> usize {
        digit_lanes(bytes)
    }
}

/// The bytes that can continue a comment: all except line feed and carriage return.
pub struct InComment;

impl Class for InComment {
    ghost use Rattle.graphql_core.specs.lexical.Lexical.{is_in_line};

    ghost has = { is_in_line };

    #[inline(always)]
    fn lanes(bytes: &[u8]) -> usize {
        line_lanes(bytes)
    }
}

/// Bytes of ignored text that one load can show after a name.
pub trait Gap {
    ghost use Rattle.std.specs.Prelude.{◌≡◌, ◌≤◌, ◌<◌, ◌-◌, ℕ, Bool, length, take, drop};
    ghost use Rattle.std.specs.List.{prefix_len};

    ghost has: { ℕ → Bool };

    /// The length of the run of these bytes from index `start` on, in 16 bytes.
    fn lanes_from(bytes: &[u8], start: usize) -> usize
        requires some { 16 ≤ length bytes.now }
        requires within { start < 16 }
        ensures { result ≡ prefix_len has (take (16 - start) (drop start bytes.now)) };
}

/// Spaces and commas.
pub struct Blanks;

impl Gap for Blanks {
    ghost use Rattle.graphql_core.specs.steps.Ahead.{is_space_or_comma};

    ghost has = { is_space_or_comma };

    #[inline(always)]
    fn lanes_from(bytes: &[u8], start: usize) -> usize {
        blank_lanes_from(bytes, start)
    }
}

/// Spaces, commas and line feeds.
pub struct BlanksAndFeeds;

impl Gap for BlanksAndFeeds {
    ghost use Rattle.graphql_core.specs.steps.Ahead.{is_gap};

    ghost has = { is_gap };

    #[inline(always)]
    fn lanes_from(bytes: &[u8], start: usize) -> usize {
        gap_lanes_from(bytes, start)
    }
}

/// The length of the run at the start of `bytes`, which are fewer than one load. Zeros fill the load.
fn len_in_short_slice<C: Class>(bytes: &[u8]) -> usize
    requires { length bytes.now < 16 }
    ensures len { result ≡ prefix_len C.has bytes.now }
    ensures within { result ≤ length bytes.now }
{
    let mut block = [0; LANES];
    block[..bytes.len()].copy_from_slice(bytes);
    C::lanes(&block).min(bytes.len())
}

/// Half of the bytes in one load.
const HALF: usize = LANES / 2;

/// The length of the run at the start of `bytes`, which are fewer than one load, but at least half of one. The load has
/// the first bytes in its first half and the last ones in its second, so a byte can be in both.
#[inline(always)]
fn len_in_halves<C: Class>(bytes: &[u8]) -> usize
    requires { (8 ≤ length bytes.now) × (length bytes.now < 16) }
    ensures len { result ≡ prefix_len C.has bytes.now }
    ensures within { result ≤ length bytes.now }
{
    let last = bytes.len() - HALF;
    let mut block = [0; LANES];
    block[..HALF].copy_from_slice(&bytes[..HALF]);
    block[HALF..].copy_from_slice(&bytes[last..]);
    let run = C::lanes(&block);
    if run < HALF { run } else { last + run - HALF }
}

/// The length of the run at the start of `bytes`: the slow path. The last load takes the last 16 bytes, which can
/// include bytes of the load before it.
#[inline(never)]
fn len_by_loads<C: Class>(bytes: &[u8]) -> usize
    ensures len { result ≡ prefix_len C.has bytes.now }
    ensures within { result ≤ length bytes.now }
{
    if bytes.len() < HALF {
        return len_in_short_slice::<C>(bytes);
    }
    if bytes.len() < LANES {
        return len_in_halves::<C>(bytes);
    }
    let last = bytes.len() - LANES;
    let mut start = 0;
    'loads: while start < last {
        let run = C::lanes(&bytes[start..]);
        if run < LANES {
            return start + run;
        }
        start += LANES;
    }
    last + C::lanes(&bytes[last..])
}

/// The length of the run at the start of `bytes`, if one load shows its end.
#[inline(always)]
pub fn len_in_one_load<C: Class>(bytes: &[u8]) -> Option<usize>
    ensures len { IfSome result (λ n. n ≡ prefix_len C.has bytes.now) }
    ensures within { IfSome result (λ n. n ≤ length bytes.now) }
{
    if bytes.len() < LANES {
        return None;
    }
    let run = C::lanes(bytes);
    if run == LANES {
        return None;
    }
    Some(run)
}

/// The length of the run at the start of `bytes`.
#[inline(always)]
pub fn class_prefix_len<C: Class>(bytes: &[u8]) -> usize
    ensures len { result ≡ prefix_len C.has bytes.now }
    ensures within { result ≤ length bytes.now }
{
    match len_in_one_load::<C>(bytes) {
        Some(len) => len,
        None => len_by_loads::<C>(bytes),
    }
}
