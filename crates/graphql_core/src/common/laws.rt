//! Laws of the values of strings.
ghost use Rattle.std.specs.Prelude.{◌≡◌, ℕ, List};
ghost use Rattle.graphql_core.specs.{HasValue};
ghost use Rattle.graphql_core.specs.examples.StringExamples as example;

/// The content of a string in quotes has at most one value.
pub fn one_value()
    ensures { (body value other : List ℕ) → HasValue body value → HasValue body other → value ≡ other }
{}

/// The values of some small strings and block strings.
pub fn worked_values()
    ensures letters { example.Letters }
    ensures digits { example.Digits }
    ensures bad_escapes { example.BadEscapes }
    ensures unindented { example.Unindented }
    ensures first_line { example.FirstLine }
    ensures blank { example.Blank }
    ensures return_feed { example.ReturnFeed }
    ensures return_in_line { example.ReturnInLine }
    ensures ideographic_space { example.IdeographicSpace }
    ensures blank_between { example.BlankBetween }
    ensures escaped_quotes { example.EscapedQuotes }
{}
