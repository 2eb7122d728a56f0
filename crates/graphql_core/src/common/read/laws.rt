//! Laws of the grammar and of the values that its parse trees denote.
ghost use Rattle.std.specs.Prelude.{◌≡◌, ◌<◌, ℕ, true, Result};
ghost use Rattle.graphql_core.specs.{IsExact, is_ll1, is_productive, Sym, ParseTree, shared, shared_symbols, Items};
ghost use Rattle.graphql_core.specs.{Gives, reason_of, ReturnsDerived};
ghost use Rattle.graphql_core.specs.declared.helpers.read_error.ReadError.{ReadError};
ghost use Rattle.graphql_core.specs.examples.MeaningExamples as example;

/// The shared productions are LL(1). Each derives something, and parsing it is sound, complete and unambiguous.
pub fn shared_is_readable()
    ensures tables { is_ll1 shared.rows ≡ true }
    ensures productive { is_productive shared ≡ true }
    ensures exact { (k : ℕ) → k < shared_symbols → IsExact shared (Sym k) }
{}

/// What a reader of a shared symbol promises, with one token of lookahead, implies what is said by the grammar alone.
/// A returned value is what a parse tree denotes, and the symbol derives exactly the tokens taken by that tree. No list
/// that the symbol derives begins with these tokens and the next. Or the error is the first error for the symbol.
pub fn readers_return_what_is_derived<V, M>()
    ensures { (k : ℕ) (old new : Items) (view : V → M) (means : ParseTree → M) (r : Result V ReadError)
        → k < shared_symbols → Gives shared (Sym k) old new (λ v x. view v ≡ means x) r
        → ReturnsDerived shared (Sym k) old new reason_of (λ v x. view v ≡ means x) r }
{}

/// The values that some small parse trees denote.
pub fn worked_meanings()
    ensures equal_names { example.EqualNames }
    ensures minus_zero { example.MinusZero }
    ensures range { example.Range }
    ensures exponents { example.Exponents }
{}
