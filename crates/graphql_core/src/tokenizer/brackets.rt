//! The depth of brackets: opening ones less closing ones.
ghost use Rattle.std.specs.Prelude.{◌≡◌, ◌<◌, ◌^◌};
ghost use Rattle.graphql_core.specs.lexical.Items.{Where, openers_after, closers_after, is_full, is_too_deep};

use crate::tokenizer::piece::Nesting;

/// The maximum depth of brackets: opening ones less closing ones. At this depth an opening bracket is the lexical error
/// `Bad::TooDeep`.
pub const MAX_DEPTH: usize = 50;

/// How many opening and closing brackets come before a position.
#[derive(Clone, Copy)]
pub struct Brackets {
    pub openers: usize,
    pub closers: usize,
}

impl Brackets {
    /// Whether the depth is `MAX_DEPTH`.
    #[inline(always)]
    pub fn is_full(self) -> bool
        requires { self.closers < 2 ^ 62 }
        ensures { (w : Where) → w.openers ≡ self.openers → w.closers ≡ self.closers → result ≡ is_full w }
    {
        self.openers == self.closers + MAX_DEPTH
    }

    /// Whether a token opens a bracket at the depth `MAX_DEPTH`.
    #[inline(always)]
    pub fn is_too_deep(self, nesting: Nesting) -> bool
        requires { self.closers < 2 ^ 62 }
        ensures { (w : Where) → w.openers ≡ self.openers → w.closers ≡ self.closers → result ≡ is_too_deep nesting w }
    {
        self.is_full() & matches!(nesting, Nesting::Opens)
    }

    /// The counts after a token. The code has no branch on which tokens are brackets.
    #[inline(always)]
    pub fn after(self, nesting: Nesting) -> Brackets
        requires openers { self.openers < 2 ^ 62 }
        requires closers { self.closers < 2 ^ 62 }
        ensures openers { result.openers ≡ openers_after nesting self.openers }
        ensures closers { result.closers ≡ closers_after nesting self.closers }
    {
        Brackets {
            openers: self.openers + matches!(nesting, Nesting::Opens) as usize,
            closers: self.closers + matches!(nesting, Nesting::Closes) as usize,
        }
    }
}
