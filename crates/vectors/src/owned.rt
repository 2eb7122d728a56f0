//! A custom text type.
ghost use Rattle.std.specs.Prelude.{string_bytes, refl};
ghost use Rattle.std.proofs.Common.{rules};

use graphql_parser::common::{Names, Text};
use std::alloc::{AllocError, Global};
use std::fmt;

/// A name that owns its spelling. `Debug` shows it as a string.
#[derive(Clone, Drop, Eq, Ord, PartialEq, PartialOrd)]
pub struct Label {
    text: String,
}

impl fmt::Debug for Label {
    fn fmt<W: fmt::Write>(&self, f: &mut fmt::Formatter<W>) -> fmt::Result {
        fmt::Debug::fmt(&self.text, f)
    }
}

/// A text type whose names are owned and which is not a name itself.
#[derive(Drop)]
pub struct Owned;

impl Names for Owned {
    type Value = Label;

    ghost bytes = { λ v. string_bytes v.text };

    ghost eq_by_bytes = { λ x y. refl };

    ghost cmp_by_bytes = { λ x y. refl };

    ghost clone_keeps = { Prim.search rules };

    fn view<'v>(value: &'v Label) -> &'v str {
        value.text.as_str()
    }
}

impl<'a> Text<'a> for Owned {
    fn make(alloc: Global, text: &'a str) -> Result<Label, AllocError> {
        let text = String::from_str(alloc, text)?;
        Ok(Label { text })
    }
}
