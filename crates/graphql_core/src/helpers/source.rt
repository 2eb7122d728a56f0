//! Where a reader takes its tokens from.
use crate::common::{Fault, Names};
use crate::helpers::punctuator::Punctuator;
use crate::position::Pos;
use crate::tokenizer::Kind;
use std::alloc::{AllocError, Global};

/// A token of a source.
#[derive(Clone, Copy, Debug)]
pub struct Lexeme<T> {
    /// The kind.
    pub kind: Kind,
    /// The spelling, which `TokenSource::as_str` returns as a `str`.
    pub text: T,
    /// The position of the first character.
    pub position: Pos,
}

/// The tokens of an input, with one token of lookahead.
pub trait TokenSource {
    ghost use Rattle.std.specs.Prelude.{ℕ, List, ◌≡◌, IfOk, IfSome, IsTrue, ◌↔◌, ◌||◌};
    ghost use Rattle.graphql_core.specs.grammar.Tokens.{AnyOf};
    ghost use Rattle.graphql_core.specs.declared.tokenizer.token.Kind.TheVariants.{Name, StringValue, BlockString};
    ghost use Rattle.graphql_core.specs.sources.Causes.{kind_number};
    ghost use Rattle.graphql_core.specs.steps.Punctuators.{class_of};
    ghost use Rattle.graphql_core.specs.steps.Matching.{sees_class};
    ghost use Rattle.graphql_core.specs.sources.Source.{Items, place_of, place_next, IsAtEnd};
    ghost use Rattle.graphql_core.specs.steps.Sources.{Peeks, IsLexeme, after};
    ghost use Rattle.graphql_core.specs.steps.Sources.{lexeme_token};
    ghost use Rattle.graphql_core.specs.sources.ParseFailures.{IsNextFault};

    /// The type of a token's spelling.
    type Text: Copy;

    /// How a tree stores names.
    type Names: Names;

    // the bytes of a spelling
    ghost bytes: { Self.Text → List ℕ };

    // the tokens that are left, and the end or lexical error after them
    ghost items: { Self → Items };

    /// The next token, or `None` at the end of input and at a lexical error.
    fn peek(&self) -> Option<Lexeme<Self::Text>>
        ensures next { Peeks bytes result (items self.now) }
        ensures lexeme { IfSome result (λ t. IsLexeme (lexeme_token bytes t)) };

    /// Whether the next token is this punctuator.
    fn sees_punctuator(&self, punctuator: Punctuator) -> bool
        ensures { result ≡ sees_class (class_of punctuator) (items self.now) };

    /// Whether the next token is a name.
    fn sees_name(&self) -> bool
        ensures { result ≡ sees_class (AnyOf (kind_number Name)) (items self.now) };

    /// Whether the next token is a string or a block string.
    fn sees_string(&self) -> bool
        ensures { result ≡ (sees_class (AnyOf (kind_number StringValue)) (items self.now)
            || sees_class (AnyOf (kind_number BlockString)) (items self.now)) };

    /// The position of the next token, of the end of input, or of the lexical error.
    fn position(&self) -> Pos
        ensures { place_of result ≡ place_next (items self.now) };

    /// Whether the end of input is next.
    fn is_at_end(&self) -> bool
        ensures { IsTrue result ↔ IsAtEnd (items self.now) };

    /// Whether the input is long, so that `shrink_list` shrinks.
    fn is_long(&self) -> bool;

    /// Advances past a token. The end of input and a lexical error are never passed.
    fn advance(&mut self)
        ensures { items self.new ≡ after (items self.old) };

    /// The `Fault` for the next token, end of input or lexical error, or for `OutOfMemory`.
    fn fault(&self, alloc: Global) -> Fault
        ensures { IsNextFault (items self.now) result };

    /// The spelling as a `str`.
    fn as_str<'v>(text: &'v Self::Text) -> &'v str
        ensures { result.now ≡ bytes text.now };

    /// Makes the name that a tree stores from a spelling. Fails only if an allocation fails.
    fn make_name(
        alloc: Global,
        text: Self::Text,
    ) -> Result<<Self::Names as Names>::Value, AllocError>
        ensures { IfOk result (λ v. Self.Names.bytes v ≡ bytes text) };
}
