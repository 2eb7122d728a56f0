//! Numbers: the run at the start of the input, and whether the run is a number.
ghost use Rattle.std.specs.Prelude.{◌≡◌, ◌≤◌, ◌||◌, ◌==◌, true, false, length, take, IfSome};
ghost use Rattle.std.specs.List.{prefix_len, list_all};
ghost use Rattle.graphql_core.specs.{is_quoted};
ghost use Rattle.graphql_core.specs.declared.tokenizer.piece.Nesting.TheVariants.{Unchanged};
ghost use Rattle.graphql_core.specs.steps.Front.{Takes, number};
ghost use Rattle.graphql_core.specs.steps.Ahead.{taken};
ghost use Rattle.std.specs.Char as char;
ghost use Rattle.graphql_core.specs.lexical.Lexical as lexical;
ghost use Rattle.graphql_core.specs.steps.Numbers as spec;

use crate::tokenizer::class::is_punctuator_byte;
use crate::tokenizer::piece::{Taken, byte_at, no_bracket};
use crate::tokenizer::run::{Digit, class_prefix_len};
use crate::tokenizer::token::Kind;

#[inline(always)]
fn is_in_run(byte: u8) -> bool
    ensures { result ≡ lexical.is_in_run byte }
{
    !(byte == b' '
        || byte == b'\n'
        || byte == b'\r'
        || byte == b'\t'
        || byte == b','
        || byte == b'#'
        || is_punctuator_byte(byte))
}

/// Whether a number can begin with this byte.
#[inline(always)]
pub fn starts_number(byte: u8) -> bool
    ensures { result ≡ spec.starts_number byte }
{
    byte == b'-' || byte.is_ascii_digit()
}

/// The length of the run at the start of `bytes`.
pub fn run_len(bytes: &[u8]) -> usize
    ensures len { result ≡ prefix_len lexical.is_in_run bytes.now }
    ensures within { result ≤ length bytes.now }
{
    bytes.iter().take_while(|b| is_in_run(**b)).count()
}

/// The number of digits at the start of `bytes`.
fn digits_len(bytes: &[u8]) -> usize
    ensures len { result ≡ spec.digits_len bytes.now }
    ensures within { result ≤ length bytes.now }
{
    class_prefix_len::<Digit>(bytes)
}

fn is_digits(bytes: &[u8]) -> bool
    ensures { result ≡ list_all char.is_ascii_digit bytes.now }
{
    bytes.iter().all(|b| b.is_ascii_digit())
}

/// Whether `bytes` is one digit, or a digit 1 to 9 and then any digits.
fn is_natural(bytes: &[u8]) -> bool
    ensures { result ≡ lexical.is_natural bytes.now }
{
    match bytes.split_first() {
        None => false,
        Some((byte, rest)) => {
            if rest.is_empty() {
                byte.is_ascii_digit()
            } else {
                *byte >= b'1' && *byte <= b'9' && is_digits(rest)
            }
        }
    }
}

fn is_integer(run: &[u8]) -> bool
    ensures { result ≡ lexical.is_integer run.now }
{
    match run.split_first() {
        None => false,
        Some((byte, rest)) => {
            if *byte == b'-' {
                is_natural(rest)
            } else {
                is_natural(run)
            }
        }
    }
}

/// Whether the byte can follow the `e` of an exponent: a sign, or a digit 1 to 8.
fn goes_on_exponent(byte: u8) -> bool
    ensures { result ≡ (byte == 43 || byte == 45 || lexical.is_in 49 56 byte) }
{
    byte == b'+' || byte == b'-' || (byte >= b'1' && byte <= b'8')
}

/// Whether `bytes` is `e` or `E`, and then a sign and any digits, or a digit 1 to 8 and any digits.
fn is_exponent(bytes: &[u8]) -> bool
    ensures { result ≡ lexical.is_exponent bytes.now }
{
    match bytes.split_first() {
        None => false,
        Some((mark, rest)) => match rest.split_first() {
            None => false,
            Some((first, digits)) => {
                (*mark == b'e' || *mark == b'E') && goes_on_exponent(*first) && is_digits(digits)
            }
        },
    }
}

/// Whether `bytes` can complete a float after its dot.
#[tactic(auto, unfolding(crate::specs::steps::Numbers::is_after_dot))]
fn is_after_dot(bytes: &[u8]) -> bool
    ensures { result ≡ spec.is_after_dot bytes.now }
{
    let len = digits_len(bytes);
    let tail = &bytes[len..];
    len != 0 && (tail.is_empty() || is_exponent(tail))
}

/// Whether `bytes` can complete a float after its integer part.
#[tactic(auto, unfolding(crate::specs::steps::Numbers::is_after_integer))]
fn is_after_integer(bytes: &[u8]) -> bool
    ensures { result ≡ spec.is_after_integer bytes.now }
{
    match bytes.split_first() {
        None => false,
        Some((byte, rest)) => {
            if *byte == b'.' {
                is_after_dot(rest)
            } else {
                is_exponent(bytes)
            }
        }
    }
}

#[tactic(auto, unfolding(crate::specs::steps::Numbers::is_unsigned))]
fn is_unsigned(bytes: &[u8]) -> bool
    ensures { result ≡ spec.is_unsigned bytes.now }
{
    let len = digits_len(bytes);
    is_natural(&bytes[..len]) && is_after_integer(&bytes[len..])
}

/// Whether `run` is an integer with a fraction, an exponent, or both. A signed exponent can lack digits, and one
/// without a sign begins with 1 to 8.
#[tactic(auto, unfolding(crate::specs::steps::Numbers::is_float))]
pub fn is_float(run: &[u8]) -> bool
    ensures { result ≡ spec.is_float run.now }
{
    match run.split_first() {
        None => false,
        Some((byte, rest)) => {
            if *byte == b'-' {
                is_unsigned(rest)
            } else {
                is_unsigned(run)
            }
        }
    }
}

/// The number of digits at the start of `bytes`, if they are a natural number.
fn natural_len(bytes: &[u8]) -> Option<usize>
    ensures is { IfSome result (λ n. lexical.is_natural (take n bytes.now) ≡ true) }
    ensures within { IfSome result (λ n. n ≤ length bytes.now) }
{
    let len = digits_len(bytes);
    if len == 0 {
        return None;
    }
    if len > 1 && byte_at(bytes, 0) == b'0' {
        return None;
    }
    Some(len)
}

/// The length of the integer at the start of `bytes`.
fn integer_len(bytes: &[u8]) -> Option<usize>
    ensures is { IfSome result (λ n. lexical.is_integer (take n bytes.now) ≡ true) }
    ensures within { IfSome result (λ n. n ≤ length bytes.now) }
{
    let (byte, rest) = bytes.split_first()?;
    if *byte == b'-' {
        let len = natural_len(rest)?;
        Some(len + 1)
    } else {
        natural_len(bytes)
    }
}

/// The length of the fraction at the start of `bytes`.
fn fraction_len(bytes: &[u8]) -> Option<usize>
    ensures is { IfSome result (λ n. lexical.is_fraction (take n bytes.now) ≡ true) }
    ensures within { IfSome result (λ n. n ≤ length bytes.now) }
{
    let (byte, rest) = bytes.split_first()?;
    if *byte != b'.' {
        return None;
    }
    let len = digits_len(rest);
    if len == 0 {
        return None;
    }
    Some(len + 1)
}

/// Whether a run ends before these bytes.
fn ends_run(bytes: &[u8]) -> bool
    ensures { result ≡ true → lexical.EndsRun bytes.now }
{
    match bytes.first() {
        None => true,
        Some(byte) => !is_in_run(*byte),
    }
}

/// The length and kind of the number at the start of `bytes`, if the number has no exponent.
#[inline(never)]
pub fn plain_number(bytes: &[u8]) -> Option<(usize, Kind)>
    ensures is { IfSome result (λ t. number bytes.now ≡ Takes t.0 t.1 Unchanged) }
    ensures kind { IfSome result (λ t. is_quoted t.1 ≡ false) }
{
    let whole = integer_len(bytes)?;
    let rest = &bytes[whole..];
    if ends_run(rest) {
        return Some((whole, Kind::IntValue));
    }
    let fraction = fraction_len(rest)?;
    if ends_run(&rest[fraction..]) {
        return Some((whole + fraction, Kind::FloatValue));
    }
    None
}

/// The number at the start of `bytes`, if the whole run is a number.
#[tactic(auto, unfolding(crate::specs::steps::Front::number))]
fn number_of_run(bytes: &[u8]) -> Option<Taken>
    ensures { result ≡ taken (number bytes.now) }
{
    let len = run_len(bytes);
    let run = &bytes[..len];
    if is_integer(run) {
        Some(no_bracket(len, Kind::IntValue))
    } else if is_float(run) {
        Some(no_bracket(len, Kind::FloatValue))
    } else {
        None
    }
}

/// The number at the start of `bytes`.
#[inline(never)]
pub fn number(bytes: &[u8]) -> Option<Taken>
    ensures { result ≡ taken (number bytes.now) }
{
    match plain_number(bytes) {
        Some((len, kind)) => Some(no_bracket(len, kind)),
        None => number_of_run(bytes),
    }
}
