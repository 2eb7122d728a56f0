//! Theorems about the specification of errors, of minifying and of readers.
ghost use Rattle.std.specs.Prelude.{◌≡◌, ◌<◌, ℕ, true, List, length, Result};
ghost use Rattle.graphql_core.specs.{Item, HasItems, is_unexpected, IsMinified, FaultText, split, IsParsed, AreAlike};
ghost use Rattle.graphql_core.specs.{IsFirstError, NoneGoesOn, ParseFailure, IsErrorOf, Sym, ParseTree, Items};
ghost use Rattle.graphql_core.specs.{reason_of};
ghost use Rattle.graphql_core.specs.{halt_reason};
ghost use Rattle.graphql_core.specs.sources.ParseFailures.{IsOutOfMemoryOr};
ghost use Rattle.graphql_core.specs.documents.Faults.{IsFaultAt};
ghost use Rattle.graphql_core.specs.documents.ByGrammar.{ReturnsDerived};
ghost use Rattle.graphql_core.specs.declared.helpers.read_error.ReadError.{ReadError};
ghost use Rattle.graphql_core.specs.declared.common.read.node_error.NodeError.{NodeError};
ghost use Rattle.graphql_schema.specs.declared.read.invalid_node.InvalidNode.{InvalidNode};
ghost use Rattle.graphql_schema.specs.{schemas, IsDocumentOf, ParsesBackTo, IsFirstErrorOf, DocumentTree, RefersTo};
ghost use Rattle.graphql_schema.specs.{Reads, ReadsNode, rejections, factored_rows};

/// If the first error is an unexpected token or end, the tokens before it are a prefix of some list that the plain
/// grammar accepts. With the offending token or end they are not. The plain grammar also accepts literals without a
/// value and nodes that are rejected. The theorem holds for an input and for the rest of a stream.
pub fn none_goes_on_with_an_unexpected_item()
    ensures { (items : List Item) (f : FaultText) → IsFirstError schemas (split items) f → is_unexpected f.cause ≡ true
        → NoneGoesOn schemas (split items) f }
{}

/// Schemas can also be minified. A minified source parses as its original does, ignoring positions: both to equal
/// documents, or both to an error.
pub fn minified_texts_are_parsed_alike()
    ensures document { (source text : List ℕ) (d : DocumentTree) → IsMinified source text
        → IsDocumentOf source d → ParsesBackTo text d }
    ensures no_other { (source text : List ℕ) (d : DocumentTree) → IsMinified source text
        → IsDocumentOf text d → ParsesBackTo source d }
    ensures alike { (source text : List ℕ) (r s : Result DocumentTree ParseFailure) → IsMinified source text
        → IsParsed schemas source r → IsParsed schemas text s → AreAlike schemas r s }
    // The two errors have the same cause.
    ensures one_cause { (source text : List ℕ) (f g : FaultText) → IsMinified source text → IsFirstErrorOf source f
        → IsFirstErrorOf text g → f.cause ≡ g.cause }
{}

/// What the error of a rejected node says is in the input, at the error's position. For an unknown or a repeated
/// operation, the name `schema` is there, and a name with the operation's spelling comes after it. For an extension
/// that adds nothing, a name is there, and the token before it is `extend`.
pub fn rejected_nodes_are_in_the_input()
    // of each error, with its index
    ensures each { (items : List Item) (f : FaultText) (n : ℕ) → IsFaultAt schemas (split items) f n
        → RefersTo (split items).tokens n f }
    // of the error with which an input is rejected
    ensures first { (text : List ℕ) (items : List Item) (r : ParseFailure) → HasItems text items
        → IsErrorOf schemas text r
        → IsOutOfMemoryOr (λ f. (n : ℕ) × RefersTo (split items).tokens n f) r }
{}

/// What a reader of a symbol promises by the factored rules implies what is said by the written grammar alone. A
/// returned value is what a parse tree denotes, and the symbol derives exactly the tokens taken by that tree. No list
/// that the symbol derives begins with these tokens and the next. Or the error is the first error for the symbol.
pub fn readers_return_what_is_derived<V, M>()
    ensures plain { (k : ℕ) (old new : Items) (view : V → M) (means : ParseTree → M) (r : Result V ReadError)
        → k < length factored_rows → Reads (Sym k) old new (λ v x. view v ≡ means x) r
        → ReturnsDerived schemas.grammar (Sym k) old new reason_of (λ v x. view v ≡ means x) r }
    // of readers that can reject a node
    ensures nodes { (k : ℕ) (old new : Items) (view : V → M) (means : ParseTree → M)
        (r : Result V (NodeError InvalidNode))
        → k < length factored_rows → ReadsNode (Sym k) old new (λ v x. view v ≡ means x) r
        → ReturnsDerived schemas.grammar (Sym k) old new (halt_reason rejections) (λ v x. view v ≡ means x) r }
{}
