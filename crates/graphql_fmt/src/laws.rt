//! Theorems about what formatting keeps.
ghost use Rattle.std.specs.Prelude.{ℕ, List};
ghost use Rattle.graphql_core.specs.{IsDocumentOf, ParsesBackTo, IsLexicalElement};
ghost use Rattle.graphql_query.specs.{queries};
ghost use Rattle.graphql_query.specs.Tree as query;
ghost use Rattle.graphql_schema.specs.{schemas};
ghost use Rattle.graphql_schema.specs.Tree as schema;
ghost use Rattle.graphql_standard.specs.lexical.Elements.{IsElement};
ghost use Rattle.graphql_fmt.specs.{Kept, HasKept, HasSameTrees};

/// Inputs with the same tokens and comments, by the lexical grammar of `graphql_core`, have the same document, ignoring
/// positions, in either language. Those with the same tokens and comments by the lexical grammar of September 2025 have
/// the same parse trees.
pub fn kept_tokens_have_one_document()
    ensures queries { (source text : List ℕ) (ks : List Kept) (d : query.DocumentTree) → HasKept IsLexicalElement source ks
        → HasKept IsLexicalElement text ks → IsDocumentOf queries source d → ParsesBackTo queries text d }
    ensures schemas { (source text : List ℕ) (ks : List Kept) (d : schema.DocumentTree) → HasKept IsLexicalElement source ks
        → HasKept IsLexicalElement text ks → IsDocumentOf schemas source d → ParsesBackTo schemas text d }
    ensures standard { (source text : List ℕ) (ks : List Kept) → HasKept IsElement source ks → HasKept IsElement text ks
        → HasSameTrees source text }
{}
