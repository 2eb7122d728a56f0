//! The number of characters of a string, 16 bytes at a time.
ghost use Rattle.std.specs.Prelude.{◌≡◌, ◌+◌, ◌<◌, ◌≤◌, length};
ghost use Rattle.std.specs.List.{count_by};
ghost use Rattle.std.specs.Str.{chars};
ghost use Rattle.graphql_core.specs.steps.Ahead.{continues_character};

use crate::tokenizer::lanes::{LANES, continuing_lanes};

/// How many of these bytes, which are fewer than one load, continue a character. Zeros fill the load.
fn continuing_in_short_slice(bytes: &[u8]) -> usize
    requires { length bytes.now < 16 }
    ensures { result ≡ count_by continues_character bytes.now }
{
    let mut block = [0; LANES];
    block[..bytes.len()].copy_from_slice(bytes);
    continuing_lanes(&block)
}

/// How many of these bytes continue a character.
fn continuing_count(bytes: &[u8]) -> usize
    ensures { result ≡ count_by continues_character bytes.now }
{
    let mut count = 0;
    let mut rest = bytes;
    'loads: while rest.len() >= LANES {
        count += continuing_lanes(rest);
        rest = &rest[LANES..];
    }
    count + continuing_in_short_slice(rest)
}

/// The number of characters of a string.
#[inline(always)]
pub fn character_count(text: &str) -> usize
    ensures is { result ≡ length (chars text.now) }
    ensures within { result ≤ length text.now }
{
    text.len() - continuing_count(text.as_bytes())
}
