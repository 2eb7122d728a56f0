//! The lines of a string, which line feeds separate.
ghost use Rattle.std.specs.Prelude.{◌≡◌, ◌<◌, ◌≤◌, ◌∷◌, [], length, IfSome};
ghost use Rattle.std.specs.Option.{MatchOption};
ghost use Rattle.std.specs.List.{prefix_len};
ghost use Rattle.std.specs.Str.{IsCharBoundary};
ghost use Rattle.graphql_core.specs.layouts.ValueLayout.{lines_of};
ghost use Rattle.graphql_core.specs.steps.Ahead.{is_no_line_feed};

use crate::tokenizer::run::{NoLineFeed, class_prefix_len};

/// How many bytes the first line of a string has.
#[inline(always)]
#[tactic(auto, using(crate::proofs::strings::TextLines::line_ends_whole))]
pub fn line_len(text: &str) -> usize
    ensures len { result ≡ prefix_len is_no_line_feed text.now }
    ensures within { result ≤ length text.now }
    ensures cuts { IsCharBoundary text.now result }
{
    class_prefix_len::<NoLineFeed>(text.as_bytes())
}

/// The first line of a string, and the lines after it, if there are any.
#[inline(always)]
pub fn split_line(text: &str) -> (&str, Option<&str>)
    ensures shorter { IfSome result.1 (λ rest. length rest.now < length text.now) }
    ensures lines { MatchOption result.1 (lines_of text.now ≡ result.0.now ∷ [])
        (λ rest. lines_of text.now ≡ result.0.now ∷ lines_of rest.now) }
{
    let (line, rest) = text.split_at(line_len(text));
    (line, rest.strip_prefix('\n'))
}
