//! Theorems about the specification of errors, of minifying, of readers and of first definitions.
ghost use Rattle.std.specs.Prelude.{◌≡◌, ◌<◌, ℕ, true, List, length, Result};
ghost use Rattle.graphql_core.specs.{Item, is_unexpected, IsMinified, FaultText, split, IsFirstError, NoneGoesOn};
ghost use Rattle.graphql_core.specs.{ParseFailure, Sym, ParseTree, Items, reason_of, HasOneFaultEach};
ghost use Rattle.graphql_core.specs.documents.ByGrammar.{ReturnsDerived};
ghost use Rattle.graphql_core.specs.declared.helpers.read_error.ReadError.{ReadError};
ghost use Rattle.graphql_query.specs.{DocumentTree, queries, IsParsed, AreAlike, StopsAllDocumentsOf, IsFirstErrorOf};
ghost use Rattle.graphql_query.specs.{one_definition, Reads, factored_rows, DefinitionTree, IsFirstDefinition};
ghost use Rattle.graphql_query.specs.{NoneBeginsAnother};

/// An input has at most one first error (the one at the lowest token index). The tokens before it are a prefix of some
/// document. With the offending token, or the end of the input, they are not. (Of a lexical error this is not stated.)
pub fn first_errors_stop_all_documents()
    ensures one { (text : List ℕ) (f g : FaultText) → IsFirstErrorOf text f → IsFirstErrorOf text g → f ≡ g }
    ensures first { (text : List ℕ) (f : FaultText) → IsFirstErrorOf text f → StopsAllDocumentsOf text f }
{}

/// If the first error is an unexpected token or end, the tokens before it are a prefix of some list that the plain
/// grammar accepts. With the offending token or end they are not. The plain grammar also accepts literals without a
/// value. The theorem holds for an input and for the rest of a stream.
pub fn none_goes_on_with_an_unexpected_item()
    ensures documents { (items : List Item) (f : FaultText) → IsFirstError queries (split items) f
        → is_unexpected f.cause ≡ true → NoneGoesOn queries (split items) f }
    ensures definitions { (items : List Item) (f : FaultText) → IsFirstError one_definition (split items) f
        → is_unexpected f.cause ≡ true → NoneGoesOn one_definition (split items) f }
{}

/// A minified source parses as its original does, ignoring positions: both to equal documents, or both to an error.
pub fn minified_texts_are_parsed_alike()
    ensures alike { (source text : List ℕ) (r s : Result DocumentTree ParseFailure) → IsMinified source text
        → IsParsed source r → IsParsed text s → AreAlike r s }
    // The two errors have the same cause.
    ensures one_cause { (source text : List ℕ) (f g : FaultText) → IsMinified source text → IsFirstErrorOf source f
        → IsFirstErrorOf text g → f.cause ≡ g.cause }
{}

/// What a reader of a symbol promises by the factored rules implies what is said by the written grammar alone. A
/// returned value is what a parse tree denotes, and the symbol derives exactly the tokens taken by that tree. No list
/// that the symbol derives begins with these tokens and the next. Or the error is the first error for the symbol.
pub fn readers_return_what_is_derived<V, M>()
    ensures { (k : ℕ) (old new : Items) (view : V → M) (means : ParseTree → M) (r : Result V ReadError)
        → k < length factored_rows → Reads (Sym k) old new (λ v x. view v ≡ means x) r
        → ReturnsDerived queries.grammar (Sym k) old new reason_of (λ v x. view v ≡ means x) r }
{}

/// An input has at most one first definition, and one rest after it.
pub fn first_definition_is_unique()
    ensures { (text : List ℕ) (q r : DefinitionTree × List ℕ) → IsFirstDefinition text q → IsFirstDefinition text r
        → q ≡ r }
{}

/// No definition is a proper prefix of another, even if literals without a value are accepted.
pub fn no_definition_begins_another()
    ensures { NoneBeginsAnother }
{}

/// An input that must begin with a definition has at most one error at each token index.
pub fn definition_errors_have_different_indexes()
    ensures { (text : List ℕ) → HasOneFaultEach one_definition text }
{}
