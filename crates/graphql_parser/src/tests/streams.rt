//! What is left of a stream, parsed, and definitions that are parsed one at a time.
ghost use Rattle.std.specs.Prelude.{IfOk, ◌≡◌, ◌≤ℤ◌, ◌+◌, ◌-◌, ◌^◌, pos, min, length, string_bytes};
ghost use Rattle.graphql_core.specs.{depth_of, next_place, IsAtEnd, split};
ghost use Rattle.graphql_query.specs.{document_view, IsDocument};

use crate::query::{self, consume_definition, parse_query_from};
use crate::tokenizer::TokenStream;
use std::alloc::Global;

/// The rest of a stream as a document; `None` if it closed more brackets than it opened, if the rest is no document,
/// or if an allocation fails.
fn rest_of<'a>(alloc: Global, stream: &mut TokenStream<'a>) -> Option<query::Document<'a, String>> {
    if stream.depth() < 0 {
        return None;
    }
    parse_query_from::<String>(alloc, stream).ok()
}

/// The same, where no bracket was closed that was not opened. After a document the stream is at its end, and was
/// asked for each item once.
fn rest_read_once<'a>(
    alloc: Global,
    stream: &mut TokenStream<'a>,
) -> Result<query::Document<'a, String>, query::ParseError>
    requires { pos 0 ≤ℤ depth_of (next_place stream.old.items) }
    ensures document { IfOk result (λ d. IsDocument (split stream.old.items) (document_view string_bytes d)) }
    ensures cuts { IfOk result (λ d. stream.new.cuts ≡ min (stream.old.cuts + length stream.old.items) (2 ^ 64 - 1)) }
    ensures end { IfOk result (λ d. IsAtEnd (split stream.new.items)) }
{
    parse_query_from::<String>(alloc, stream)
}

/// The stream of a text past its first tokens, if it has so many.
fn past<'a>(source: &'a str, tokens: usize) -> Option<TokenStream<'a>> {
    if source.len() > usize::MAX / 16 {
        return None;
    }
    let mut stream = TokenStream::new(source);
    for _ in 0..tokens {
        stream.next_token().ok()??;
    }
    Some(stream)
}

/// The count of definitions in the rest of a text past its first tokens, how many items were cut, and whether both
/// functions above return the same document.
fn read_past(alloc: Global, source: &str, tokens: usize) -> Option<(usize, usize, bool)> {
    let mut stream = past(source, tokens)?;
    if stream.depth() < 0 {
        return None;
    }
    let document = rest_read_once(alloc, &mut stream).ok()?;
    let other = rest_of(alloc, &mut past(source, tokens)?)?;
    Some((document.definitions.len(), stream.cuts(), other == document))
}

/// Whether the rest of a text past its first tokens is no document, if there are so many tokens.
fn is_rejected_past(alloc: Global, source: &str, tokens: usize) -> Option<bool> {
    let mut stream = past(source, tokens)?;
    Some(rest_of(alloc, &mut stream).is_none())
}

#[test]
fn a_document_after_three_tokens(rt: HostRuntime) {
    let read = read_past(rt.alloc(), "{ a } { b }", 3);
    assert_eq!(rt; read, Some((1, 7, true)));
    assert_eq!(rt; is_rejected_past(rt.alloc(), "} { a }", 1), Some(true));
}

/// How many definitions a source begins with, one after another.
fn count_leading_definitions(alloc: Global, source: &str) -> usize {
    let mut count = 0usize;
    let mut rest = source;
    'definitions: while let Ok((_, after)) = consume_definition::<&str>(alloc, rest) {
        count = count.saturating_add(1);
        rest = after;
    }
    count
}

#[test]
fn definitions_are_taken_one_at_a_time(rt: HostRuntime) {
    for (source, count) in [("", 0), ("{ a } # b", 1), ("{ a } query { b } ; { c }", 2)] {
        assert_eq!(rt; count_leading_definitions(rt.alloc(), source), count);
    }
}
