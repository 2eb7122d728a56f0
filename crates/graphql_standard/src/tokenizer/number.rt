//! Numbers (September 2025, sections 2.10.1, Int Value, and 2.10.2, Float Value).
ghost use Rattle.std.specs.Prelude.{◌≡◌, ◌≤◌, length, slice_index};
ghost use Rattle.graphql_core.specs.steps.Numbers.{digits_len};
ghost use Rattle.graphql_standard.specs.lexical.Numbers as lexical;
ghost use Rattle.graphql_standard.specs.steps.Numbers as spec;

use graphql_core::tokenizer::Kind;

/// The byte at `index`, or 0 past the end.
fn byte_at(bytes: &[u8], index: usize) -> u8
    ensures { result ≡ slice_index bytes.now index }
{
    bytes.get(index).copied().unwrap_or(0)
}

/// The number of digits at the start of `bytes`.
fn digits_len(bytes: &[u8]) -> usize
    ensures len { result ≡ digits_len bytes.now }
    ensures within { result ≤ length bytes.now }
{
    bytes.iter().take_while(|b| b.is_ascii_digit()).count()
}

/// The length of a natural number: `0` alone, or all digits. 0 if there is no digit.
fn natural_len(bytes: &[u8]) -> usize
    ensures len { result ≡ spec.natural_len bytes.now }
    ensures within { result ≤ length bytes.now }
{
    if byte_at(bytes, 0) == b'0' {
        1
    } else {
        digits_len(bytes)
    }
}

/// The length of the IntegerPart, an optional `-` and a natural number. 0 if there is none.
#[tactic(auto, unfolding(crate::specs::steps::Numbers::integer_len))]
fn integer_len(bytes: &[u8]) -> usize
    ensures len { result ≡ spec.integer_len bytes.now }
    ensures within { result ≤ length bytes.now }
{
    if byte_at(bytes, 0) != b'-' {
        return natural_len(bytes);
    }
    match natural_len(&bytes[1..]) {
        0 => 0,
        len => len + 1,
    }
}

/// The length of the FractionalPart, a dot and digits. 0 if there is none.
#[tactic(auto, unfolding(crate::specs::steps::Numbers::fraction_len))]
fn fraction_len(bytes: &[u8]) -> usize
    ensures len { result ≡ spec.fraction_len bytes.now }
    ensures within { result ≤ length bytes.now }
{
    if byte_at(bytes, 0) != b'.' {
        return 0;
    }
    match digits_len(&bytes[1..]) {
        0 => 0,
        len => len + 1,
    }
}

/// The length of the ExponentPart: `e` or `E`, an optional sign, and digits. 0 if there is none.
#[tactic(auto, unfolding(crate::specs::steps::Numbers::exponent_len))]
fn exponent_len(bytes: &[u8]) -> usize
    ensures len { result ≡ spec.exponent_len bytes.now }
    ensures within { result ≤ length bytes.now }
{
    if !matches!(byte_at(bytes, 0), b'e' | b'E') {
        return 0;
    }
    let head = if matches!(byte_at(bytes, 1), b'+' | b'-') {
        2
    } else {
        1
    };
    match digits_len(&bytes[head..]) {
        0 => 0,
        len => head + len,
    }
}

/// Whether the byte cannot follow a number: it is a digit, a dot, a letter or `_`.
fn continues_number(byte: u8) -> bool
    ensures { result ≡ lexical.continues_number byte }
{
    byte.is_ascii_alphanumeric() || byte == b'_' || byte == b'.'
}

/// The length and the kind of the number at the start of `bytes`.
#[tactic(auto, unfolding(crate::specs::steps::Numbers::number_front))]
pub fn number(bytes: &[u8]) -> Option<(usize, Kind)>
    ensures { result ≡ spec.number_front bytes.now }
{
    let integer = integer_len(bytes);
    let after_integer = &bytes[integer..];
    let fraction = fraction_len(after_integer);
    let after_fraction = &after_integer[fraction..];
    let exponent = exponent_len(after_fraction);
    let rest = &after_fraction[exponent..];
    if integer == 0 || continues_number(byte_at(rest, 0)) {
        return None;
    }
    let kind = if fraction + exponent == 0 {
        Kind::IntValue
    } else {
        Kind::FloatValue
    };
    Some((integer + (fraction + exponent), kind))
}

/// Whether the last byte is a digit.
pub fn ends_in_digit(bytes: &[u8]) -> bool
    ensures { result ≡ spec.ends_in_digit bytes.now }
{
    bytes.last().is_some_and(|byte| byte.is_ascii_digit())
}
