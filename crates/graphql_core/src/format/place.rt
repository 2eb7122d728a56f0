//! Copying bytes into a buffer that is long enough. A short copy is two overlapping copies of a fixed size.
ghost use Rattle.std.specs.Prelude.{◌≡◌, ◌+◌, ◌<◌, ◌≤◌, length, take};
ghost use Rattle.graphql_core.specs.{space_if, Placed};

use std::simd::Simd;

#[inline(never)]
fn place_slice(buffer: &mut [u8], at: usize, text: &[u8]) -> usize
    requires { at + length text.now ≤ length buffer.old }
    ensures { Placed buffer.old buffer.new at text.now result }
{
    let end = at + text.len();
    buffer[at..end].copy_from_slice(text);
    end
}

/// Copies the first `N` bytes: one load and one store.
#[inline(always)]
fn copy_front<const N: usize>(buffer: &mut [u8], at: usize, text: &[u8]) -> usize
    requires { (N ≤ length text.now) × (at + N ≤ length buffer.old) }
    ensures { Placed buffer.old buffer.new at (take N text.now) result }
{
    Simd::<u8, N>::from_slice(text).copy_to_slice(&mut buffer[at..]);
    at + N
}

/// Copies the first and the last `N` bytes, which together are all.
#[inline(always)]
fn copy_ends<const N: usize>(buffer: &mut [u8], at: usize, text: &[u8]) -> usize
    requires fits { at + length text.now ≤ length buffer.old }
    requires covers { (N ≤ length text.now) × (length text.now ≤ N + N) }
    ensures { Placed buffer.old buffer.new at text.now result }
{
    let last = text.len() - N;
    copy_front::<N>(buffer, at, text);
    copy_front::<N>(buffer, at + last, &text[last..])
}

/// Copies 4 to 16 bytes, without a branch on how many: four at each end, and from nine bytes on the four next to them.
#[inline(always)]
fn copy_halves(buffer: &mut [u8], at: usize, text: &[u8]) -> usize
    requires fits { at + length text.now ≤ length buffer.old }
    requires covers { (4 ≤ length text.now) × (length text.now ≤ 16) }
    ensures { Placed buffer.old buffer.new at text.now result }
{
    let last = text.len() - 4;
    let step = (text.len() - 1) / 8 * 4;
    let to = &mut buffer[at..];
    copy_front::<4>(to, 0, text);
    copy_front::<4>(to, step, &text[step..]);
    copy_front::<4>(to, last - step, &text[last - step..]);
    copy_front::<4>(to, last, &text[last..]);
    at + text.len()
}

/// Copies at most three bytes.
#[inline(always)]
fn copy_short(buffer: &mut [u8], at: usize, text: &[u8]) -> usize
    requires fits { at + length text.now ≤ length buffer.old }
    requires few { length text.now < 4 }
    ensures { Placed buffer.old buffer.new at text.now result }
{
    let len = text.len();
    if len == 1 {
        copy_front::<1>(buffer, at, text)
    } else if len == 0 {
        at
    } else {
        copy_ends::<2>(buffer, at, text)
    }
}

/// Copies bytes to index `at`. Returns the index after the last of them.
#[inline(always)]
pub fn copy_text(buffer: &mut [u8], at: usize, text: &[u8]) -> usize
    requires { at + length text.now ≤ length buffer.old }
    ensures { Placed buffer.old buffer.new at text.now result }
{
    let len = text.len();
    if len < 4 {
        copy_short(buffer, at, text)
    } else if len <= 16 {
        copy_halves(buffer, at, text)
    } else if len <= 32 {
        copy_ends::<16>(buffer, at, text)
    } else {
        place_slice(buffer, at, text)
    }
}

/// How many bytes `copy_prefix` stores at once.
pub const LOAD: usize = 16;

/// Copies at most `LOAD` bytes to index `at`: one load from `from`, which must begin with them, and one store. Returns
/// the index after the last of them.
#[inline(always)]
pub fn copy_prefix(buffer: &mut [u8], at: usize, text: &[u8], from: &[u8]) -> usize
    requires fits { at + 16 ≤ length buffer.old }
    requires short { (length text.now ≤ 16) × (16 ≤ length from.now) }
    requires begins { take (length text.now) from.now ≡ text.now }
    ensures { Placed buffer.old buffer.new at text.now result }
{
    copy_front::<LOAD>(buffer, at, from);
    at + text.len()
}

/// Writes a space at index `at` if `is_spaced`, without a branch. Returns the index after it, else `at`.
#[inline(always)]
pub fn copy_space(buffer: &mut [u8], at: usize, is_spaced: bool) -> usize
    requires { at + 1 ≤ length buffer.old }
    ensures { Placed buffer.old buffer.new at (space_if is_spaced) result }
{
    copy_front::<1>(buffer, at, b" ");
    at + is_spaced as usize
}
