//! Parsing whole documents of any language.
ghost use Rattle.std.specs.Prelude.{ℕ, ◌*◌, ◌/◌, ◌<◌, ◌≤◌, List, length};
ghost use Rattle.graphql_core.specs.lexical.Items.{HasItems, Item};
ghost use Rattle.graphql_core.specs.lexical.StreamCalls.{AreItemsOfRest};
ghost use Rattle.graphql_core.specs.sources.Source.{split};
ghost use Rattle.graphql_core.specs.steps.Readable.{IsReadable};
ghost use Rattle.graphql_core.specs.documents.Parsing.{ReadsDocument, ParsesDocument, ParsesStream};

use crate::common::{Fault, MAX_LENGTH, Names, Text};
use crate::helpers::{Cursor, SpanSource, TokenSource, WIDE_TEXT, Width};
use crate::tokenizer::TokenStream;
use std::alloc::Global;
use std::mem;

/// A document of a language, with names of the text type `N`.
pub trait ReadDocument<N: Names>: Drop {
    ghost use Rattle.std.specs.Prelude.{◌≡◌, IfOk};
    ghost use Rattle.graphql_core.specs.sources.Source.{IsAtEnd};
    ghost use Rattle.graphql_core.specs.steps.Sources.{kept};
    ghost use Rattle.graphql_core.specs.documents.Languages.{Language};
    ghost use Rattle.graphql_core.specs.documents.Parsing.{ReadsDocument};

    // the models of documents, the language, and how a document maps to its model
    ghost Tree: { Type 0 };

    ghost language: { Language Tree };

    ghost view: { Self → Tree };

    /// Parses all tokens of a source as a document.
    fn read<S: TokenSource<Names = N>>(alloc: Global, source: &mut S) -> Result<Self, Fault>
        ensures reads { ReadsDocument language view (S.items source.old) result }
        // After a document the source is at its end. The other state of the source is unchanged.
        ensures end { IfOk result (λ d. IsAtEnd (S.items source.new)) }
        ensures kept { kept (S.items source.new) ≡ kept (S.items source.old) };
}

/// Parses an input whose positions fit `W`.
fn read_spans<'a, N: Text<'a>, W: Width, D: ReadDocument<N>>(
    alloc: Global,
    source: &'a str,
) -> Result<D, Fault>
    requires small { length source.now ≤ usize.MAX / 16 }
    requires narrow { 8 * length source.now < W.most }
    ensures { (items : List Item) → HasItems source.now items
        → ReadsDocument D.language D.view (split items) result }
{
    let mut tokens: SpanSource<'a, N, W> = SpanSource::new(alloc, source)?;
    D::read(alloc, &mut tokens)
}

/// Parses an input as a document. An input of more than `MAX_LENGTH` bytes is rejected before any allocation.
///
/// The clause is for a language whose rules pass the tests of `IsReadable`.
pub fn parse<'a, N: Text<'a>, D: ReadDocument<N>>(
    alloc: Global,
    source: &'a str,
) -> Result<D, Fault>
    ensures { IsReadable D.language → ParsesDocument D.language D.view source.now result }
{
    if source.len() > MAX_LENGTH {
        return Err(Fault::text_too_long());
    }
    if source.len() < WIDE_TEXT {
        read_spans::<N, u32, D>(alloc, source)
    } else {
        read_spans::<N, usize, D>(alloc, source)
    }
}

/// Parses the rest of a stream as a document, from its next token. The first clause is for a language whose rules pass
/// the tests of `IsReadable`.
pub fn parse_from<'a, N: Text<'a>, D: ReadDocument<N>>(
    alloc: Global,
    stream: &mut TokenStream<'a>,
) -> Result<D, Fault>
    ensures parses { IsReadable D.language → ParsesStream D.language D.view stream.old stream.new result }
    // The items are those of some input, in which at most 50 brackets are open at the first item.
    ensures rest { (text : List ℕ) × AreItemsOfRest stream.old.items text }
{
    let mut cursor: Cursor<'a, N> = Cursor::over(mem::replace(stream, TokenStream::new("")));
    let read = D::read(alloc, &mut cursor);
    *stream = cursor.into_stream();
    read
}
