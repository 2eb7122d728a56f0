//! Theorems about the specification of formatting.
ghost use Rattle.std.specs.Prelude.{◌≡◌};
ghost use Rattle.graphql_core.specs.{deepest, StyleOptions, most, OutputsParseBack};
ghost use Rattle.graphql_query.specs.{DocumentTree, erase, queries, IsWellFormedDocument, document_layout, layout};
ghost use Rattle.graphql_query.specs.{IsPrintable, definition_brackets};
ghost use Rattle.graphql_query.specs.examples.QueryExamples as example;

/// The documents of some small inputs, and how these documents are formatted.
pub fn worked_examples()
    ensures nested { example.Nested }
    ensures two_definitions { example.TwoDefinitions }
    ensures comment_return_feed { example.CommentReturnFeed }
    ensures comment_return { example.CommentReturn }
    ensures byte_order_mark { example.ByteOrderMark }
    ensures named { example.Named }
    ensures nested_layout { example.NestedLayout }
    ensures two_definitions_layout { example.TwoDefinitionsLayout }
    ensures named_layout { example.NamedLayout }
{}

/// The bracket depth counted on a document is the bracket depth of its layout, in every style.
pub fn brackets_are_those_of_the_layout()
    ensures { (style : StyleOptions) (d : DocumentTree)
        → deepest (document_layout style d) ≡ most definition_brackets d }
{}

/// The layout of a document does not depend on its positions.
pub fn text_has_no_positions()
    ensures { (style : StyleOptions) (d : DocumentTree) → layout style (erase d) ≡ layout style d }
{}

/// The layout of a printable document, in any style, parses back to the document, ignoring positions. So formatting is
/// idempotent, the layouts in two styles parse to the same document, and documents with the same layout are the same.
/// The values must satisfy the invariants of their types.
pub fn printed_documents_parse_back()
    ensures { OutputsParseBack queries layout (λ d. IsPrintable d × IsWellFormedDocument d) }
{}
