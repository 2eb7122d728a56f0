//! Runs of bytes of a class at the start of 16 bytes, and how many of 16 bytes continue a character.
ghost use Rattle.std.specs.Prelude.{◌≡◌, ◌<◌, ◌≤◌, ◌-◌, ◌/◌, ◌^◌, length, take, drop};
ghost use Rattle.std.specs.List.{prefix_len, count_by};
ghost use Rattle.std.specs.Char.{is_ascii_digit};
ghost use Rattle.graphql_core.specs.{is_in_line, is_name_continue, is_gap, is_space, is_plain_in_string};
ghost use Rattle.graphql_core.specs.{is_space_or_comma};
ghost use Rattle.graphql_core.specs.{is_in_string, is_plain_in_block, first_set, is_flat};
ghost use Rattle.graphql_core.specs.{is_no_line_feed, is_no_backslash, continues_character};

use std::simd::prelude::*;

/// The number of bytes in one SIMD load.
pub const LANES: usize = 16;

/// The index of the lowest set bit, or 16 if none is set.
#[inline(always)]
pub fn first_set(mask: u64) -> usize
    ensures { result ≡ first_set mask 16 }
{
    if mask == 0 {
        LANES
    } else {
        mask.trailing_zeros() as usize
    }
}

/// The number of clear bits from `start` to the next set bit, of 16 bits.
#[inline(always)]
fn first_set_from(mask: u64, start: usize) -> usize
    requires { start < 16 }
    ensures { result ≡ first_set (mask / 2 ^ start) (16 - start) }
{
    let rest = mask >> (start as u32);
    if rest == 0 {
        LANES - start
    } else {
        rest.trailing_zeros() as usize
    }
}

/// The length of the run of bytes that continue a name, at the start of 16 bytes.
#[inline(always)]
pub fn name_lanes(bytes: &[u8]) -> usize
    requires { 16 ≤ length bytes.now }
    ensures { result ≡ prefix_len is_name_continue (take 16 bytes.now) }
{
    let v = u8x16::from_slice(bytes);
    let from_a = (v | u8x16::splat(0x20)) - u8x16::splat(b'a');
    let from_0 = v - u8x16::splat(b'0');
    let stops = from_a.simd_ge(u8x16::splat(26))
        & from_0.simd_ge(u8x16::splat(10))
        & v.simd_ne(u8x16::splat(b'_'));
    first_set(stops.to_bitmask())
}

/// The length of the run of spaces at the start of 16 bytes.
#[inline(always)]
pub fn space_lanes(bytes: &[u8]) -> usize
    requires { 16 ≤ length bytes.now }
    ensures { result ≡ prefix_len is_space (take 16 bytes.now) }
{
    let stops = u8x16::from_slice(bytes).simd_ne(u8x16::splat(b' '));
    first_set(stops.to_bitmask())
}

/// How many of the first 16 bytes come before a quote or a backslash.
#[inline(always)]
pub fn block_lanes(bytes: &[u8]) -> usize
    requires { 16 ≤ length bytes.now }
    ensures { result ≡ prefix_len is_plain_in_block (take 16 bytes.now) }
{
    let v = u8x16::from_slice(bytes);
    let stops = v.simd_eq(u8x16::splat(b'"')) | v.simd_eq(u8x16::splat(b'\\'));
    first_set(stops.to_bitmask())
}

/// The length of the run of ASCII except line feed at the start of 16 bytes.
#[inline(always)]
pub fn flat_lanes(bytes: &[u8]) -> usize
    requires { 16 ≤ length bytes.now }
    ensures { result ≡ prefix_len is_flat (take 16 bytes.now) }
{
    let v = u8x16::from_slice(bytes);
    let stops = v.simd_eq(u8x16::splat(b'\n')) | v.simd_ge(u8x16::splat(0x80));
    first_set(stops.to_bitmask())
}

/// How many of the first 16 bytes come before a line feed.
#[inline(always)]
pub fn no_feed_lanes(bytes: &[u8]) -> usize
    requires { 16 ≤ length bytes.now }
    ensures { result ≡ prefix_len is_no_line_feed (take 16 bytes.now) }
{
    let stops = u8x16::from_slice(bytes).simd_eq(u8x16::splat(b'\n'));
    first_set(stops.to_bitmask())
}

/// How many of the first 16 bytes come before a backslash.
#[inline(always)]
pub fn no_backslash_lanes(bytes: &[u8]) -> usize
    requires { 16 ≤ length bytes.now }
    ensures { result ≡ prefix_len is_no_backslash (take 16 bytes.now) }
{
    let stops = u8x16::from_slice(bytes).simd_eq(u8x16::splat(b'\\'));
    first_set(stops.to_bitmask())
}

/// How many of the first 16 bytes continue a character, wherever they are.
#[inline(always)]
pub fn continuing_lanes(bytes: &[u8]) -> usize
    requires { 16 ≤ length bytes.now }
    ensures { result ≡ count_by continues_character (take 16 bytes.now) }
{
    let from_0x80 = u8x16::from_slice(bytes) - u8x16::splat(0x80);
    let continuing = from_0x80.simd_lt(u8x16::splat(0x40));
    continuing.to_bitmask().count_ones() as usize
}

/// The length of the run of ASCII except quote, backslash and line feed at the start of 16 bytes.
#[inline(always)]
pub fn string_lanes(bytes: &[u8]) -> usize
    requires { 16 ≤ length bytes.now }
    ensures { result ≡ prefix_len is_plain_in_string (take 16 bytes.now) }
{
    let v = u8x16::from_slice(bytes);
    let stops = v.simd_eq(u8x16::splat(b'"'))
        | v.simd_eq(u8x16::splat(b'\\'))
        | v.simd_eq(u8x16::splat(b'\n'))
        | v.simd_ge(u8x16::splat(0x80));
    first_set(stops.to_bitmask())
}

/// How many of the first 16 bytes come before a quote, a backslash or a line feed.
#[inline(always)]
pub fn in_string_lanes(bytes: &[u8]) -> usize
    requires { 16 ≤ length bytes.now }
    ensures { result ≡ prefix_len is_in_string (take 16 bytes.now) }
{
    let v = u8x16::from_slice(bytes);
    let stops = v.simd_eq(u8x16::splat(b'"'))
        | v.simd_eq(u8x16::splat(b'\\'))
        | v.simd_eq(u8x16::splat(b'\n'));
    first_set(stops.to_bitmask())
}

/// The length of the run of digits at the start of 16 bytes.
#[inline(always)]
pub fn digit_lanes(bytes: &[u8]) -> usize
    requires { 16 ≤ length bytes.now }
    ensures { result ≡ prefix_len is_ascii_digit (take 16 bytes.now) }
{
    let stops = (u8x16::from_slice(bytes) - u8x16::splat(b'0')).simd_ge(u8x16::splat(10));
    first_set(stops.to_bitmask())
}

/// How many of the first 16 bytes come before a line feed or a carriage return.
#[inline(always)]
pub fn line_lanes(bytes: &[u8]) -> usize
    requires { 16 ≤ length bytes.now }
    ensures { result ≡ prefix_len is_in_line (take 16 bytes.now) }
{
    let v = u8x16::from_slice(bytes);
    let stops = v.simd_eq(u8x16::splat(b'\n')) | v.simd_eq(u8x16::splat(b'\r'));
    first_set(stops.to_bitmask())
}

/// The length of the run of spaces and commas from index `start` on, in 16 bytes.
#[inline(always)]
pub fn blank_lanes_from(bytes: &[u8], start: usize) -> usize
    requires some { 16 ≤ length bytes.now }
    requires within { start < 16 }
    ensures { result ≡ prefix_len is_space_or_comma (take (16 - start) (drop start bytes.now)) }
{
    let v = u8x16::from_slice(bytes);
    let stops = v.simd_ne(u8x16::splat(b' ')) & v.simd_ne(u8x16::splat(b','));
    first_set_from(stops.to_bitmask(), start)
}

/// The length of the run of spaces, commas and line feeds from index `start` on, in 16 bytes.
#[inline(always)]
pub fn gap_lanes_from(bytes: &[u8], start: usize) -> usize
    requires some { 16 ≤ length bytes.now }
    requires within { start < 16 }
    ensures { result ≡ prefix_len is_gap (take (16 - start) (drop start bytes.now)) }
{
    let v = u8x16::from_slice(bytes);
    let stops = v.simd_ne(u8x16::splat(b' '))
        & v.simd_ne(u8x16::splat(b','))
        & v.simd_ne(u8x16::splat(b'\n'));
    first_set_from(stops.to_bitmask(), start)
}
