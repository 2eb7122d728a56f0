//! Laws of the values of leaf tokens: the computed values agree with the definitions.
ghost use Rattle.std.specs.Prelude.{◌≡◌, ◌↔◌, ℕ, true, List, Some};
ghost use Rattle.std.specs.Int.RustNames.{FitsSigned};
ghost use Rattle.graphql_core.specs.{IsFloat, is_integer, IsFloatLiteral, HasValue, int_of, is_in_range};
ghost use Rattle.graphql_core.specs.{has_whole_exponent, unquoted};
ghost use mir.Syntax.{w64};

/// `unquoted` computes exactly a string's value. A float has a value exactly if it is a float literal, and an integer
/// exactly if it fits an `i64`.
pub fn values_of_leaves()
    ensures string { (body value : List ℕ) → (unquoted body ≡ Some value) ↔ HasValue body value }
    ensures float { (run : List ℕ) → IsFloat run → (has_whole_exponent run ≡ true) ↔ IsFloatLiteral run }
    ensures integer { (run : List ℕ) → is_integer run ≡ true → (is_in_range run ≡ true) ↔ FitsSigned w64 (int_of run) }
{}
