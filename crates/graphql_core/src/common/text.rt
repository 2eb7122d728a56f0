//! Text types: how trees store their names.
ghost use Rattle.std.specs.Prelude.{◌≡◌, ℕ, List, IfOk, IsOk, nat_eq, refl, string_bytes};
ghost use Rattle.std.specs.Cow.{IsBorrowedStr, cow_str_bytes};
ghost use Rattle.std.specs.Ordering.{nat_cmp};
ghost use Rattle.std.proofs.Common.{rules};
ghost use Rattle.std.specs.Cmp.Lexicographic.{pointwise, slice_cmp};

use std::alloc::{AllocError, Global};
use std::borrow::CowStr;
use std::fmt::Debug;

/// The type in which a tree stores its names.
///
/// Names compare by the bytes of their spellings. A clone keeps these bytes.
pub trait Names: Drop {
    /// A name.
    type Value: Eq + Ord + Debug + Clone + Drop;

    // the bytes of a name
    ghost bytes: { Self.Value → List ℕ };

    /// Returns the name as a string.
    fn view<'v>(value: &'v Self::Value) -> &'v str
        ensures { result.now ≡ bytes value.now };

    ghost eq_by_bytes: { (x y : Self.Value) → Self.Value.eq x y ≡ pointwise nat_eq (bytes x) (bytes y) };

    ghost cmp_by_bytes: { (x y : Self.Value) → Self.Value.cmp x y ≡ slice_cmp nat_cmp (bytes x) (bytes y) };

    ghost clone_keeps: { (x y : Self.Value) → Self.Value.is_clone x y → bytes y ≡ bytes x };
}

/// A text type: how to make names from the spellings in a source with the lifetime `'a`.
pub trait Text<'a>: Names {
    /// Returns the name with this spelling. An error means that an allocation failed.
    fn make(alloc: Global, text: &'a str) -> Result<<Self as Names>::Value, AllocError>
        ensures { IfOk result (λ v. Self.Names.bytes v ≡ text.now) };
}

impl<'a> Names for &'a str {
    type Value = &'a str;

    ghost bytes = { λ v. v.now };

    ghost eq_by_bytes = { λ x y. refl };

    ghost cmp_by_bytes = { λ x y. refl };

    ghost clone_keeps = { Prim.search rules };

    fn view<'v>(value: &'v &'a str) -> &'v str {
        *value
    }
}

/// A name borrows its spelling, so `make` allocates nothing and always succeeds.
impl<'a> Text<'a> for &'a str {
    fn make(_alloc: Global, text: &'a str) -> Result<&'a str, AllocError>
        ensures text { IfOk result (λ v. v.now ≡ text.now) }
        ensures always { IsOk result }
    {
        Ok(text)
    }
}

impl Names for String {
    type Value = String;

    ghost bytes = { λ v. string_bytes v };

    ghost eq_by_bytes = { λ x y. refl };

    ghost cmp_by_bytes = { λ x y. refl };

    ghost clone_keeps = { Prim.search rules };

    fn view<'v>(value: &'v String) -> &'v str {
        value.as_str()
    }
}

/// A name owns a copy of its spelling. `make` fails only if an allocation fails.
impl<'a> Text<'a> for String {
    fn make(alloc: Global, text: &'a str) -> Result<String, AllocError> {
        String::from_str(alloc, text)
    }
}

impl<'a> Names for CowStr<'a> {
    type Value = CowStr<'a>;

    ghost bytes = { cow_str_bytes };

    ghost eq_by_bytes = { λ x y. refl };

    ghost cmp_by_bytes = { λ x y. refl };

    ghost clone_keeps = { Prim.search rules };

    fn view<'v>(value: &'v CowStr<'a>) -> &'v str {
        value.as_str()
    }
}

/// `make` borrows the spelling, so it allocates nothing and always succeeds.
impl<'a> Text<'a> for CowStr<'a> {
    fn make(_alloc: Global, text: &'a str) -> Result<CowStr<'a>, AllocError>
        ensures text { IfOk result (λ v. cow_str_bytes v ≡ text.now) }
        ensures always { IsOk result }
        ensures borrowed { IfOk result IsBorrowedStr }
    {
        Ok(CowStr::Borrowed(text))
    }
}
