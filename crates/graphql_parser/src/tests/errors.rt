//! What an error says, and the tokens before it, as docs/CALLING.md and docs/MIGRATING.md show it.
use crate::query::ParseError;
use crate::tests::names::with_borrowed_names;
use crate::tests::page::Page;
use crate::tokenizer::{Kind, TokenStream};
use crate::{Cause, Pos};
use std::alloc::{AllocError, Global};

/// The position of an error, and whether a number is its cause.
fn error_summary(error: &ParseError) -> (Option<Pos>, bool) {
    let is_number = matches!(error.cause(), Cause::IntOutOfRange | Cause::MalformedFloat);
    (error.position(), is_number)
}

/// The position and the message for an editor; `None` if parsing was out of memory.
fn mark(alloc: Global, error: &ParseError) -> Result<Option<(Pos, String)>, AllocError> {
    match error.position() {
        Some(position) => Ok(Some((position, error.cause().to_string(alloc)?))),
        None => Ok(None),
    }
}

/// How many names come before the end of a source or its first lexical error; `None` if the source is too long.
fn count_names(source: &str) -> Option<usize> {
    if source.len() > usize::MAX / 16 {
        return None;
    }
    let mut stream = TokenStream::new(source);
    let mut count = 0usize;
    'tokens: for _ in 0..u64::MAX {
        match stream.next_token() {
            Ok(Some(token)) if token.kind == Kind::Name => count = count.saturating_add(1),
            Ok(Some(_)) => {}
            Ok(None) | Err(_) => return Some(count),
        }
    }
    None
}

/// Why an input is rejected.
fn error_of(alloc: Global, source: &str) -> Option<ParseError> {
    with_borrowed_names(alloc, source).err()
}

/// The position of the error, and whether a number is its cause.
fn rejected_at(alloc: Global, source: &str) -> Option<(Option<Pos>, bool)> {
    Some(error_summary(&error_of(alloc, source)?))
}

/// The position and the message of the error.
fn marked(alloc: Global, source: &str) -> Option<String> {
    let (position, message) = mark(alloc, &error_of(alloc, source)?).ok()??;
    format!(in alloc; "{position} {message}").ok()
}

#[test]
fn errors_have_a_position_and_a_cause(rt: HostRuntime) {
    let alloc = rt.alloc();
    let mut page = Page::new(alloc);
    page.debug(&rejected_at(alloc, "{ a(x: 1e+) }"));
    page.add(marked(alloc, "{ a"));
    page.debug(&count_names("{ a(b: 1) } ; c"));
    assert_eq!(rt;
        page.text(),
        "Some((Some(Pos(1:8)), true))\n1:4 Unexpected end of input\nSome(2)\n"
    );
}
