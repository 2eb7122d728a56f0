//! Parsing from borrowed streams.
use crate::documents::{Document, ParseFailure};
use crate::tally::Tally;
use graphql_parser::tokenizer::TokenStream;
use std::alloc::Global;

/// Counts what was parsed from a stream. After a document the stream must be at its end.
fn count<'a, D: Document<'a>>(
    alloc: Global,
    tally: &mut Tally,
    returned: Result<D, ParseFailure>,
    stream: &mut TokenStream<'a>,
    layout: &str,
) {
    match returned {
        Ok(document) => {
            tally.check(stream.next_token() == Ok(None));
            tally.add_text(&document.formatted(alloc), layout, true);
        }
        Err(parse_failure) => tally.add(false, parse_failure.ran_out),
    }
}

/// Parses inputs, each with its layout, from borrowed streams.
pub fn read_streams<'a, D: Document<'a>>(
    alloc: Global,
    tally: &mut Tally,
    texts: &[(&'a str, &str)],
) {
    for (text, layout) in texts {
        if text.len() > usize::MAX / 16 {
            tally.check(false);
            continue;
        }
        let mut stream = TokenStream::new(*text);
        match D::parse_rest(alloc, &mut stream) {
            Some(returned) => count::<D>(alloc, tally, returned, &mut stream, *layout),
            None => tally.check(false),
        }
    }
}
