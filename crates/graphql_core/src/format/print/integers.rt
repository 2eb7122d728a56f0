//! Integers in decimal digits.
ghost use Rattle.std.specs.Prelude.{◌≡◌, ◌+◌, ◌-◌, ◌/◌, ◌%◌, ◌<◌, ◌≤◌, ◌∷◌, ◌++◌, length, drop, OnOk};
ghost use Rattle.std.specs.Fmt.{decimal, signed_decimal};

use crate::format::Sink;
use std::str;

/// The most digits that a `u64` can have.
const MOST_DIGITS: usize = 20;

/// Stores the two digits of `pair` before index `end`.
#[inline(always)]
fn put_pair(digits: &mut [u8; 20], end: usize, pair: u64)
    requires below { pair < 100 }
    requires within { (2 ≤ end) × (end ≤ 20) }
    ensures { drop (end - 2) digits.new ≡ (48 + pair / 10) ∷ (48 + pair % 10) ∷ drop end digits.old }
{
    digits[end - 1] = b'0' + (pair % 10) as u8;
    digits[end - 2] = b'0' + (pair / 10) as u8;
}

/// Stores the one or two digits of `first` before index `end`. Returns the index of the first digit.
#[inline(always)]
fn put_first(digits: &mut [u8; 20], end: usize, first: u64) -> usize
    requires below { first < 100 }
    requires within { (length (decimal first) ≤ end) × (end ≤ 20) }
    ensures start { result ≤ 20 }
    ensures digits { drop result digits.new ≡ decimal first ++ drop end digits.old }
{
    if first >= 10 {
        put_pair(digits, end, first);
        return end - 2;
    }
    digits[end - 1] = b'0' + first as u8;
    end - 1
}

/// Stores the digits of a number at the end, two at a time. Returns the index of the first digit.
#[inline(always)]
fn put_digits(digits: &mut [u8; 20], number: u64) -> usize
    ensures start { result ≤ 20 }
    ensures digits { drop result digits.new ≡ decimal number }
{
    let mut end = MOST_DIGITS;
    let mut rest = number;
    'pairs: while rest >= 100 {
        put_pair(digits, end, rest % 100);
        end -= 2;
        rest /= 100;
    }
    put_first(digits, end, rest)
}

/// Appends a number in decimal digits.
fn write_digits<S: Sink>(out: &mut S, number: u64) -> Result<(), S::Error>
    ensures { OnOk result (S.took out.old (decimal number) out.new) }
{
    let mut digits = [0; MOST_DIGITS];
    let start = put_digits(&mut digits, number);
    // SAFETY: from `start` on there are only ASCII digits.
    out.push_str(unsafe { str::from_utf8_unchecked(&digits[start..]) })
}

/// Appends an integer in decimal digits, after a minus sign if it is negative.
pub fn write_integer<S: Sink>(out: &mut S, value: i64) -> Result<(), S::Error>
    ensures { OnOk result (S.took out.old (signed_decimal value) out.new) }
{
    if value >= 0 {
        return write_digits(out, value.unsigned_abs());
    }
    out.push_str("-")?;
    write_digits(out, value.unsigned_abs())
}
