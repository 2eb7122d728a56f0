//! Theorems about the specification: lookahead, directive locations, examples and formatting.
ghost use Rattle.std.specs.Prelude.{◌≡◌, ℕ, List, [], ◌∷◌, Some};
ghost use Rattle.graphql_core.specs.{deepest, StyleOptions, most, OutputsParseBack};
ghost use Rattle.graphql_schema.specs.{DocumentTree, erase, schemas, IsWellFormedDocument, document_layout, layout};
ghost use Rattle.graphql_schema.specs.{IsPrintable, definition_brackets, item_symbol, extension_symbol};
ghost use Rattle.graphql_schema.specs.{described_symbol, unread, written_rows, word_of, location_of, WorkedMeanings};
ghost use Rattle.graphql_schema.specs.{WorkedLayouts, WorkedErrors};
ghost use Rattle.graphql_schema.specs.declared.location.DirectiveLocation.{DirectiveLocation};

/// Only three of the written rules cannot be parsed with one token of lookahead.
pub fn three_symbols_have_factored_rules()
    ensures { unread written_rows 0 written_rows ≡ item_symbol ∷ extension_symbol ∷ described_symbol ∷ [] }
{}

/// Each directive location is named by its own word, and by no other word.
pub fn locations_are_named()
    ensures named { (l : DirectiveLocation) → location_of (word_of l) ≡ Some l }
    ensures only { (word : List ℕ) (l : DirectiveLocation) → location_of word ≡ Some l → word ≡ word_of l }
{}

/// The documents of some small inputs.
pub fn worked_examples()
    ensures { WorkedMeanings }
{}

/// How the documents of some small inputs are formatted.
pub fn worked_layouts()
    ensures { WorkedLayouts }
{}

/// The bracket depth counted on a document is the bracket depth of its layout, in every style.
pub fn brackets_are_those_of_the_layout()
    ensures { (style : StyleOptions) (d : DocumentTree)
        → deepest (document_layout style d) ≡ most definition_brackets d }
{}

/// The layout of a document does not depend on its positions.
pub fn text_has_no_positions()
    ensures { (style : StyleOptions) (d : DocumentTree) → layout style (erase d) ≡ layout style d }
{}

/// The layout of a printable document, in any style, parses back to the document, ignoring positions. So formatting is
/// idempotent, the layouts in two styles parse to the same document, and documents with the same layout are the same.
/// The values must satisfy the invariants of their types.
pub fn printed_documents_parse_back()
    ensures { OutputsParseBack schemas layout (λ d. IsPrintable d × IsWellFormedDocument d) }
{}

/// Where and why some small inputs are rejected.
pub fn worked_errors()
    ensures { WorkedErrors }
{}
