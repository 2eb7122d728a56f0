//! Strings and block strings.
ghost use Rattle.std.specs.Prelude.{◌≡◌, ◌≢◌, ◌+◌, ◌<◌, ◌≤◌, ◌^◌, ◌∷◌, ℕ, true, false, length, take, drop, IfSome};
ghost use Rattle.std.specs.Prelude.{slice_index, None};
ghost use Rattle.std.specs.List.{list_all};
ghost use Rattle.graphql_core.specs.{is_flat};
ghost use Rattle.graphql_core.specs.declared.tokenizer.token.Kind.TheVariants.{StringValue};
ghost use Rattle.graphql_core.specs.declared.tokenizer.piece.Nesting.TheVariants.{Unchanged};
ghost use Rattle.graphql_core.specs.steps.Front.{Takes, quoted_front};
ghost use Rattle.graphql_core.specs.steps.Ahead.{taken};
ghost use Rattle.graphql_core.specs.lexical.Lexical as lexical;
ghost use Rattle.graphql_core.specs.steps.Quoted as spec;

use crate::tokenizer::piece::{Taken, byte_at, no_bracket};
use crate::tokenizer::run::{InString, PlainInBlock, PlainInString, class_prefix_len};
use crate::tokenizer::token::Kind;

/// Whether the input begins with `"""`.
#[inline]
pub fn begins_quotes(bytes: &[u8]) -> bool
    ensures { result ≡ lexical.begins_quotes bytes.now }
{
    byte_at(bytes, 0) == b'"' && (byte_at(bytes, 1) == b'"' && byte_at(bytes, 2) == b'"')
}

/// Whether the input begins with `\"""`.
#[inline]
fn begins_escape(bytes: &[u8]) -> bool
    ensures { result ≡ lexical.begins_escape bytes.now }
{
    match bytes.split_first() {
        None => false,
        Some((byte, rest)) => *byte == b'\\' && begins_quotes(rest),
    }
}

/// Whether the input begins with a backslash and a byte other than a line feed.
#[inline]
fn begins_escaped(bytes: &[u8]) -> bool
    ensures { result ≡ spec.begins_escaped bytes.now }
{
    match bytes.split_first() {
        None => false,
        Some((byte, rest)) => *byte == b'\\' && !rest.is_empty() && byte_at(rest, 0) != b'\n',
    }
}

/// How many bytes of a string to skip: those before the next quote, backslash or line feed, or a whole escape. `None`
/// if the string cannot be continued.
fn characters_len(bytes: &[u8]) -> Option<usize>
    requires some { 0 < length bytes.now }
    requires small { length bytes.now < 2 ^ 62 }
    requires open { slice_index bytes.now 0 ≢ 34 }
    ensures skips { IfSome result (λ k. (n : ℕ) → spec.string_end n false bytes.now
        ≡ spec.string_end (n + k) false (drop k bytes.now)) }
    ensures some { IfSome result (λ k. 0 < k) }
    ensures within { IfSome result (λ k. k ≤ length bytes.now) }
    ensures none { result ≡ None → (n : ℕ) → spec.string_end n false bytes.now ≡ None }
{
    let plain = class_prefix_len::<InString>(bytes);
    if plain > 0 {
        Some(plain)
    } else if begins_escaped(bytes) {
        Some(2)
    } else {
        None
    }
}

/// The length of a string after its opening quote, with the closing quote. `None` if the string is unterminated.
fn string_len(bytes: &[u8]) -> Option<usize>
    requires { length bytes.now < 2 ^ 62 }
    ensures end { result ≡ spec.string_end 0 false bytes.now }
    ensures within { IfSome result (λ n. n ≤ length bytes.now) }
{
    let mut len = 0;
    'characters: while len < bytes.len() {
        let rest = &bytes[len..];
        if byte_at(rest, 0) == b'"' {
            return Some(len + 1);
        }
        len += characters_len(rest)?;
    }
    None
}

/// How many bytes of a block string to skip: those before the next quote or backslash, a whole `\"""`, or one byte.
fn units_len(bytes: &[u8]) -> usize
    requires some { 0 < length bytes.now }
    requires small { length bytes.now < 2 ^ 62 }
    requires open { lexical.begins_quotes bytes.now ≡ false }
    ensures skips { (n : ℕ) → spec.block_end n 0 bytes.now ≡ spec.block_end (n + result) 0 (drop result bytes.now) }
    ensures some { 0 < result }
    ensures within { result ≤ length bytes.now }
{
    let plain = class_prefix_len::<PlainInBlock>(bytes);
    if plain > 0 {
        plain
    } else if begins_escape(bytes) {
        4
    } else {
        1
    }
}

/// The length of a block string after its opening quotes, with the closing quotes. `None` if the block string is
/// unterminated.
fn block_len(bytes: &[u8]) -> Option<usize>
    requires { length bytes.now < 2 ^ 62 }
    ensures end { result ≡ spec.block_end 0 0 bytes.now }
    ensures within { IfSome result (λ n. n ≤ length bytes.now) }
{
    let mut len = 0;
    'units: while len < bytes.len() {
        let rest = &bytes[len..];
        if begins_quotes(rest) {
            return Some(len + 3);
        }
        len += units_len(rest);
    }
    None
}

/// The string or block string whose opening quote is the first byte. `None` if it is unterminated.
#[tactic(auto, unfolding(crate::specs::steps::Front::quoted_front))]
#[inline(never)]
pub fn quoted(bytes: &[u8]) -> Option<Taken>
    requires some { 0 < length bytes.now }
    requires small { length bytes.now < 2 ^ 62 }
    ensures { result ≡ taken (quoted_front bytes.now) }
{
    if begins_quotes(bytes) {
        let len = block_len(&bytes[3..])?;
        return Some(no_bracket(len + 3, Kind::BlockString));
    }
    let len = string_len(&bytes[1..])?;
    Some(no_bracket(len + 1, Kind::StringValue))
}

/// The length of a string after its opening quote, with the closing quote. `None` unless the string is nonempty ASCII
/// without escapes.
#[inline(never)]
pub fn plain_string_len(bytes: &[u8]) -> Option<usize>
    requires { length bytes.now < 2 ^ 62 }
    ensures is { IfSome result (λ n. quoted_front (34 ∷ bytes.now) ≡ Takes (n + 1) StringValue Unchanged) }
    ensures flat { IfSome result (λ n. list_all is_flat (take n bytes.now) ≡ true) }
    ensures within { IfSome result (λ n. n ≤ length bytes.now) }
{
    let len = class_prefix_len::<PlainInString>(bytes);
    if len == 0 {
        return None;
    }
    if byte_at(bytes, len) != b'"' {
        return None;
    }
    Some(len + 1)
}
