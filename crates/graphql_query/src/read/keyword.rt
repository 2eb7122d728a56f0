//! The keywords that begin operations.
ghost use Rattle.std.specs.Prelude.{◌≡◌};
ghost use Rattle.graphql_query.specs.Layout.{keyword};
ghost use Rattle.graphql_query.specs.steps.Operations.{kind_of, HasNextKeyword};

use graphql_core::helpers::{TokenSource, sees_keyword};

/// The keyword of an operation.
#[derive(Clone, Copy)]
pub enum Keyword {
    Query,
    Mutation,
    Subscription,
}

impl Keyword {
    /// The spelling of the keyword.
    pub fn word(self) -> &'static str
        ensures { result.now ≡ keyword (kind_of self) }
    {
        match self {
            Keyword::Query => "query",
            Keyword::Mutation => "mutation",
            Keyword::Subscription => "subscription",
        }
    }
}

/// The next token as an operation keyword; `None` if it is another token.
pub fn peek_keyword<S: TokenSource>(source: &S) -> Option<Keyword>
    ensures { HasNextKeyword (S.items source.now) result }
{
    if sees_keyword(source, "query") {
        Some(Keyword::Query)
    } else if sees_keyword(source, "mutation") {
        Some(Keyword::Mutation)
    } else if sees_keyword(source, "subscription") {
        Some(Keyword::Subscription)
    } else {
        None
    }
}
