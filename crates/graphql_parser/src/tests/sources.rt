//! Both sources of tokens have the same items.
ghost use Rattle.std.specs.Prelude.{◌≤◌, ◌<◌, ◌*◌, ◌/◌, length};

use crate::tests::page::Page;
use crate::tokenizer::Token;
use graphql_core::common::Fault;
use graphql_core::helpers::{Cursor, Lexeme, SpanSource, TokenSource, WIDE_TEXT, Width};
use std::alloc::{AllocError, Global};

pub const QUERY: &str = "query Q($a: [Int!]! = [1, 2]) @d(x: $a) { b: c ... on T @e { f } ...G }";

const SCHEMA: &str = "    schema {
        query: Query
    }
    type Query {
        users: [User!]!,
    }
    \"\"\"
       Example user object

       This is just a demo comment.
    \"\"\"
    type User {
        name: String!,
    }
";

const STRING: &str = "{ a(s: \"é\") b }";

const BLOCK_STRING: &str = "{ a(s: \"\"\"x\né\"\"\") b }";

// Spans of it are cut in several pieces, since each of its tokens is one byte.
const MARKS: &str = "{[(:!|&=@$)]}{[(:!|&=@$)]}?";

/// A token of a source.
fn token_of(lexeme: Lexeme<&str>) -> Token<'_> {
    Token {
        kind: lexeme.kind,
        value: lexeme.text,
    }
}

/// Whether two errors have the same cause and position.
fn are_alike(one: &Fault, other: &Fault) -> bool {
    one.cause == other.cause && one.position == other.position
}

/// Whether the next item, or the end, and the error for it are the same from a cursor and from spans.
fn is_same_item<'a, W: Width>(
    alloc: Global,
    cursor: &Cursor<'a, String>,
    spans: &SpanSource<'a, String, W>,
) -> bool {
    cursor.peek().map(token_of) == spans.peek().map(token_of)
        && cursor.position() == spans.position()
        && cursor.is_at_end() == spans.is_at_end()
        && are_alike(&cursor.fault(alloc), &spans.fault(alloc))
}

/// Whether the items of a text, and its end, are the same from a cursor and from spans of this width.
fn have_same_items<W: Width>(alloc: Global, source: &str) -> bool
    requires small { length source.now ≤ usize.MAX / 16 }
    requires narrow { 8 * length source.now < W.most }
{
    let made: Result<SpanSource<'_, String, W>, AllocError> = SpanSource::new(alloc, source);
    let Ok(mut spans) = made else {
        return false;
    };
    let mut cursor: Cursor<'_, String> = Cursor::new(source);
    let mut are_same = true;
    'items: for _ in 0..=source.len() {
        are_same &= is_same_item(alloc, &cursor, &spans);
        cursor.advance();
        spans.advance();
    }
    are_same && cursor.peek().is_none()
}

/// Whether the items are the same at both widths, for every prefix of a source that ends between two characters.
fn have_same_beginnings(alloc: Global, source: &str) -> bool {
    let mut are_same = true;
    'beginnings: for len in 0..=source.len() {
        if let Some((text, _)) = source.split_at_checked(len) {
            are_same &= text.len() < WIDE_TEXT
                && have_same_items::<u32>(alloc, text)
                && have_same_items::<usize>(alloc, text);
        }
    }
    are_same
}

#[test]
fn each_beginning(rt: HostRuntime) {
    'texts: for text in [QUERY, SCHEMA, STRING, BLOCK_STRING, MARKS] {
        assert!(rt; have_same_beginnings(rt.alloc(), text), "{text}");
    }
}

/// Shows the errors at the next four items of a source.
fn show_faults<S: TokenSource>(page: &mut Page, alloc: Global, source: &mut S) {
    for _ in 0..4 {
        page.debug(&source.fault(alloc));
        source.advance();
    }
}

/// Shows the errors at the first four items of a text from spans of this width.
fn show_faults_of_spans<W: Width>(page: &mut Page, alloc: Global, source: &str)
    requires small { length source.now ≤ usize.MAX / 16 }
    requires narrow { 8 * length source.now < W.most }
{
    let made: Result<SpanSource<'_, String, W>, AllocError> = SpanSource::new(alloc, source);
    if let Ok(mut spans) = made {
        show_faults(page, alloc, &mut spans);
    }
}

/// The errors at the first four items of a text: from a cursor, and from spans of both widths.
fn shown_faults(alloc: Global, source: &str) -> Page {
    let mut page = Page::new(alloc);
    if source.len() < WIDE_TEXT {
        let mut cursor: Cursor<'_, String> = Cursor::new(source);
        show_faults(&mut page, alloc, &mut cursor);
        show_faults_of_spans::<u32>(&mut page, alloc, source);
        show_faults_of_spans::<usize>(&mut page, alloc, source);
    }
    page
}

/// The errors at a brace and a string, and at what follows them twice: all of them three times.
fn wanted_faults(alloc: Global, last: &str) -> Page {
    const BRACE: &str =
        "Fault { cause: UnexpectedToken { kind: Punctuator, text: \"{\" }, position: Some(Pos(1:1)) }";
    const STRING: &str =
        "Fault { cause: UnexpectedToken { kind: StringValue, text: \"\\\"é\\\"\" }, position: Some(Pos(2:2)) }";
    let mut page = Page::new(alloc);
    for _ in 0..3 {
        page.show(&BRACE);
        page.show(&STRING);
        page.show(&last);
        page.show(&last);
    }
    page
}

#[test]
fn faults_of_items(rt: HostRuntime) {
    for (text, last) in [
        (
            "{\n \"é\"",
            "Fault { cause: UnexpectedEnd, position: Some(Pos(2:5)) }",
        ),
        (
            "{\n \"é\" ;",
            "Fault { cause: BadToken(Character(';')), position: Some(Pos(2:6)) }",
        ),
        (
            "{\n \"é\",01 a",
            "Fault { cause: BadToken(Integer(\"01\")), position: Some(Pos(2:6)) }",
        ),
    ] {
        assert_eq!(rt;
            shown_faults(rt.alloc(), text).text(),
            wanted_faults(rt.alloc(), last).text()
        );
    }
}
