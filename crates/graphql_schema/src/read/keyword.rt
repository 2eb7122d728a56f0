//! The keywords that begin definitions.
ghost use Rattle.std.specs.Prelude.{◌≡◌};
ghost use Rattle.graphql_core.specs.{peek, sees, lexeme_token};
ghost use Rattle.graphql_schema.specs.steps.Keywords.{kind_word, has_interfaces, keywords, HasKeyword, HasNextKeyword};

use graphql_core::helpers::{Lexeme, TokenSource};
use graphql_core::tokenizer::Kind;

/// The kind of a type.
#[derive(Clone, Copy)]
pub enum TypeKind {
    Scalar,
    Object,
    Interface,
    Union,
    Enum,
    InputObject,
}

impl TypeKind {
    /// The keyword of the kind.
    pub fn word(self) -> &'static str
        ensures { result.now ≡ kind_word self }
    {
        match self {
            TypeKind::Scalar => "scalar",
            TypeKind::Object => "type",
            TypeKind::Interface => "interface",
            TypeKind::Union => "union",
            TypeKind::Enum => "enum",
            TypeKind::InputObject => "input",
        }
    }

    /// Whether types of this kind can implement interfaces.
    pub fn has_interfaces(self) -> bool
        ensures { result ≡ has_interfaces self }
    {
        matches!(self, TypeKind::Object | TypeKind::Interface)
    }
}

/// A keyword that begins a definition, and that can follow a description.
#[derive(Clone, Copy)]
pub enum Keyword {
    Schema,
    /// The keyword of a kind of type.
    OfType(TypeKind),
    Directive,
}

/// The token as a definition keyword; `None` if it is another token.
fn keyword_of<S: TokenSource>(token: &Lexeme<S::Text>) -> Option<Keyword>
    ensures { HasKeyword (lexeme_token S.bytes token.now) result }
{
    if token.kind != Kind::Name {
        return None;
    }
    match S::as_str(&token.text) {
        "schema" => Some(Keyword::Schema),
        "scalar" => Some(Keyword::OfType(TypeKind::Scalar)),
        "type" => Some(Keyword::OfType(TypeKind::Object)),
        "interface" => Some(Keyword::OfType(TypeKind::Interface)),
        "union" => Some(Keyword::OfType(TypeKind::Union)),
        "enum" => Some(Keyword::OfType(TypeKind::Enum)),
        "input" => Some(Keyword::OfType(TypeKind::InputObject)),
        "directive" => Some(Keyword::Directive),
        _ => None,
    }
}

/// The next token as a definition keyword; `None` if it is another token.
pub fn peek_keyword<S: TokenSource>(source: &S) -> Option<Keyword>
    ensures { HasNextKeyword (S.items source.now) result }
{
    match source.peek() {
        Some(token) => keyword_of::<S>(&token),
        None => None,
    }
}

/// Whether the next token is a definition keyword.
#[tactic(auto, using(crate::proofs::readers::Keywords::keyword_is_seen))]
pub fn sees_definition_keyword<S: TokenSource>(source: &S) -> bool
    ensures { result ≡ sees keywords (peek (S.items source.now).tokens) }
{
    peek_keyword(source).is_some()
}
