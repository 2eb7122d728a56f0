//! Laws of the lexical definitions alone.
ghost use Rattle.std.specs.Prelude.{◌≡◌, ℕ, List};
ghost use Rattle.graphql_core.specs.{Piece};
ghost use Rattle.graphql_standard.specs.lexical.Elements.{IsElement, IsEither, IsDividedInto};
ghost use Rattle.graphql_standard.specs.examples.LexicalExamples as example;

/// Each input has exactly one division into lexical elements of either grammar, and at most one into those of September
/// 2025.
pub fn one_division()
    ensures some { (text : List ℕ) → (ps : List Piece) × (stop : List ℕ) × IsDividedInto IsEither text ps stop }
    ensures standard { (text : List ℕ) (ps qs : List Piece) (s t : List ℕ) → IsDividedInto IsElement text ps s
        → IsDividedInto IsElement text qs t → (ps ≡ qs) × (s ≡ t) }
    ensures either { (text : List ℕ) (ps qs : List Piece) (s t : List ℕ) → IsDividedInto IsEither text ps s
        → IsDividedInto IsEither text qs t → (ps ≡ qs) × (s ≡ t) }
{}

/// Lexical elements of some small inputs.
pub fn worked_examples()
    ensures exponents { example.Exponents }
    ensures neighbours { example.Neighbours }
    ensures no_numbers { example.NoNumbers }
    ensures bare_exponent { example.BareExponent }
    ensures surrogates { example.Surrogates }
    ensures in_braces { example.InBraces }
    ensures leading_alone { example.LeadingAlone }
    ensures past_the_last { example.PastTheLast }
    ensures unknown_escape { example.UnknownEscape }
    ensures raw_return { example.RawReturn }
    ensures empty_strings { example.EmptyStrings }
{}
