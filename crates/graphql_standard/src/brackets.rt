//! The depth of brackets.
ghost use Rattle.std.specs.Prelude.{◌≡◌, ◌<◌, MatchOption};
ghost use Rattle.graphql_core.specs.{sample};
ghost use Rattle.graphql_standard.specs.Checking.{is_opening, is_closing};
ghost use Rattle.graphql_standard.specs.steps.Brackets.{IsOneTooMany, Counts};

use graphql_core::tokenizer::Kind;

/// Whether a token is an opening bracket.
fn is_opening(kind: Kind, spelling: &str) -> bool
    ensures { result ≡ is_opening (sample kind spelling.now) }
{
    match kind {
        Kind::Punctuator => matches!(spelling.as_bytes(), [b'(' | b'[' | b'{']),
        _ => false,
    }
}

/// Whether a token is a closing bracket.
fn is_closing(kind: Kind, spelling: &str) -> bool
    ensures { result ≡ is_closing (sample kind spelling.now) }
{
    match kind {
        Kind::Punctuator => matches!(spelling.as_bytes(), [b')' | b']' | b'}']),
        _ => false,
    }
}

/// How many of the tokens so far are opening and closing brackets.
#[derive(Clone, Copy)]
pub struct Brackets {
    /// The number of opening brackets.
    pub openers: usize,
    /// The number of closing brackets.
    pub closers: usize,
}

impl Brackets {
    /// The brackets with one more token. `None` if the token is an opening bracket, and `limit` brackets are open.
    pub fn after(self, kind: Kind, spelling: &str, limit: usize) -> Option<Brackets>
        requires openers { self.openers < usize.MAX }
        requires closers { self.closers < usize.MAX }
        ensures { MatchOption result (IsOneTooMany self (sample kind spelling.now) limit)
            (Counts self (sample kind spelling.now) limit) }
    {
        let opens = is_opening(kind, spelling);
        let closes = is_closing(kind, spelling);
        if opens && self.openers >= self.closers.saturating_add(limit) {
            return None;
        }
        Some(Brackets {
            openers: self.openers + usize::from(opens),
            closers: self.closers + usize::from(closes),
        })
    }
}
