//! Values of numbers.
ghost use Rattle.std.specs.Prelude.{◌≡◌, ◌-◌, ℕ, List, length, get_or, Decides, OkIff, IfErr, Some, nat_eq};
ghost use Rattle.std.specs.Prelude.{string_bytes};
ghost use Rattle.std.specs.Cmp.{partial_equiv_from_equiv};
ghost use Rattle.std.specs.Cmp.Lexicographic.{nat_list_eq_equiv, pointwise};
ghost use Rattle.std.specs.Char.{is_ascii_digit};
ghost use Rattle.graphql_core.specs.strings.Literals.{IsFloatLiteral};

use crate::tokenizer::number::is_float;
use std::alloc::AllocError;
use std::marker::Model;

/// Whether the last byte is a digit. A float that does not end in a digit has an exponent without one.
fn ends_in_digit(bytes: &[u8]) -> bool
    ensures { result ≡ is_ascii_digit (get_or bytes.now (length bytes.now - 1) 0) }
{
    match bytes.last() {
        Some(byte) => byte.is_ascii_digit(),
        None => false,
    }
}

fn is_float_literal(bytes: &[u8]) -> bool
    ensures { Decides result (IsFloatLiteral bytes.now) }
{
    is_float(bytes) && ends_in_digit(bytes)
}

/// The spelling of a number with a fraction or an exponent (GraphQL, October 2021, section 2.9.2). An exponent without
/// a sign begins with 1 to 8 here: `1e+9` is a float literal, and `1e9` is not.
#[derive(Debug, Drop)]
pub struct FloatLiteral {
    text: String,
}

impl Model for FloatLiteral {
    ghost Value = { List ℕ };

    ghost view = { λ literal. string_bytes literal.text };

    ghost invariant = { λ literal. IsFloatLiteral (string_bytes literal.text) };
}

impl FloatLiteral {
    /// Returns the literal with this spelling. If it is no float literal, the error is the string itself.
    pub fn new(text: String) -> Result<FloatLiteral, String>
        ensures accepted { OkIff result (IsFloatLiteral (string_bytes text)) (string_bytes text) }
        ensures rejected { IfErr result (λ t. t ≡ text) }
    {
        if is_float_literal(text.as_bytes()) {
            Ok(FloatLiteral { text })
        } else {
            Err(text)
        }
    }

    /// Returns the spelling.
    pub fn as_str(&self) -> &str
        ensures text { result.now ≡ self.now }
        ensures literal { IsFloatLiteral self.now }
    {
        self.text.as_str()
    }
}

impl Clone for FloatLiteral {
    ghost is_clone = { λ literal copy. copy ≡ literal };

    fn clone(&self) -> Result<FloatLiteral, AllocError> {
        let text = self.text.clone()?;
        Ok(FloatLiteral { text })
    }
}

impl PartialEq for FloatLiteral {
    ghost eq = { λ a b. pointwise nat_eq a b };

    ghost laws = { partial_equiv_from_equiv nat_list_eq_equiv };

    fn eq(&self, other: &FloatLiteral) -> bool {
        self.as_str() == other.as_str()
    }
}

/// An integer (GraphQL, October 2021, section 2.9.1).
#[derive(Clone, Copy, Debug, PartialEq)]
pub struct Number(i64);

impl Model for Number {
    ghost use Rattle.std.specs.Prelude.{ℤ};

    ghost Value = { ℤ };

    ghost view = { λ number. number.0 };

    ghost inverse = { λ value. record { 0 = value } };
}

impl Number {
    /// Returns the number with this value.
    pub fn from_i64(value: i64) -> Number
        ensures { result ≡ value }
    {
        Number(value)
    }

    /// Returns the value; never `None`.
    pub fn as_i64(&self) -> Option<i64>
        ensures { result ≡ Some self.now }
    {
        Some(self.0)
    }
}

impl From<i32> for Number {
    ghost from_gives = { λ value number. number ≡ value };

    fn from(value: i32) -> Number {
        Number(i64::from(value))
    }
}
