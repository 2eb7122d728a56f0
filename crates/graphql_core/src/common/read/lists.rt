//! Lists of consecutive elements.
ghost use Rattle.std.specs.Prelude.{◌≡◌, ◌≤◌, ℕ, List, OnOk, length, map};
ghost use Rattle.graphql_core.specs.steps.Punctuators.{class_of};
ghost use Rattle.graphql_core.specs.grammar.Trees.{ParseTree, Many, Sym, optional};
ghost use Rattle.graphql_core.specs.steps.ReaderResults.{Gives, Adds};
ghost use Rattle.graphql_core.specs.values.Parts.{each_of};
ghost use Rattle.graphql_core.specs.steps.Lists.{IsList, IsOption};

use crate::helpers::{
    Punctuator, ReadError, TokenSource, expect_punctuator, shrink_list, split_list,
};
use std::alloc::Global;

/// How to read the elements of a list.
pub trait Elements<S: TokenSource> {
    ghost use Rattle.std.specs.Prelude.{◌≡◌, ◌<◌, [], ◌∷◌, length, OnOk};
    ghost use Rattle.graphql_core.specs.grammar.Trees.{Grammar};
    ghost use Rattle.graphql_core.specs.grammar.Trees.{Expr, ParseTree, peek};
    ghost use Rattle.graphql_core.specs.theory.Tables.{first};
    ghost use Rattle.graphql_core.specs.theory.Reading.{sees};
    ghost use Rattle.graphql_core.specs.steps.ReaderResults.{Gives, Adds};

    /// What a list stores of one element.
    type Item: Drop;

    // the grammar by which an element is read, and its production
    ghost grammar: { Grammar };

    ghost production: { Expr };

    // what the parse tree of an element denotes, and the abstract value of an `Item`
    ghost Tree: { Type 0 };

    ghost means: { ParseTree → Tree };

    ghost view: { Self.Item → Tree };

    /// Whether an element comes next.
    fn comes_next(source: &S) -> bool
        ensures { result ≡ sees (first grammar.rows production) (peek (S.items source.now).tokens) };

    /// Reads an element, and appends it to `items`.
    fn read(alloc: Global, source: &mut S, items: &mut Vec<Self::Item>) -> Result<(), ReadError>
        ensures reads { Gives grammar production (S.items source.old) (S.items source.new)
            (λ v x. Adds view items.old.items items.new.items (means x ∷ [])) result }
        ensures shorter { OnOk result (length (S.items source.new).tokens < length (S.items source.old).tokens) };
}

/// Reads elements as long as one comes next, and appends them to `items`.
#[inline(always)]
#[tactic(auto, using(crate::proofs::readers::Reading::reader_steps))]
pub fn read_many<S: TokenSource, E: Elements<S>>(
    alloc: Global,
    source: &mut S,
    items: &mut Vec<E::Item>,
) -> Result<(), ReadError>
    ensures { Gives E.grammar (Many E.production) (S.items source.old) (S.items source.new)
        (λ v x. Adds E.view items.old.items items.new.items (each_of E.means x)) result }
{
    'more: while E::comes_next(source) {
        E::read(alloc, source, items)?;
    }
    Ok(())
}

/// Reads at least one element between `opener` and `closer`, and appends them to `items`.
#[inline(never)]
#[tactic(auto, using(crate::proofs::readers::Reading::reader_steps))]
pub fn read_enclosed<S: TokenSource, E: Elements<S>>(
    alloc: Global,
    source: &mut S,
    opener: Punctuator,
    closer: Punctuator,
    items: &mut Vec<E::Item>,
) -> Result<(), ReadError>
    ensures reads { (k : ℕ) (m : ParseTree → List E.Tree)
        → IsList E.grammar (class_of opener) (class_of closer) E.production E.means k m
        → Gives E.grammar (Sym k) (S.items source.old) (S.items source.new)
        (λ v x. Adds E.view items.old.items items.new.items (m x)) result }
    ensures grows { OnOk result (length items.old.items ≤ length items.new.items) }
{
    expect_punctuator(source, opener)?;
    E::read(alloc, source, items)?;
    read_many::<S, E>(alloc, source, items)?;
    expect_punctuator(source, closer)?;
    Ok(())
}

/// Reads what `read_enclosed` reads, or nothing if `opener` does not come next. The elements are collected at the end
/// of `others` and then split off, so their list is allocated once.
#[inline(always)]
#[tactic(auto, using(crate::proofs::readers::Reading::reader_steps))]
pub fn optional_split_list<S: TokenSource, E: Elements<S>>(
    alloc: Global,
    source: &mut S,
    opener: Punctuator,
    closer: Punctuator,
    others: &mut Vec<E::Item>,
) -> Result<Vec<E::Item>, ReadError>
    ensures { (k : ℕ) (m n : ParseTree → List E.Tree)
        → IsList E.grammar (class_of opener) (class_of closer) E.production E.means k m → IsOption m n
        → Gives E.grammar (optional (Sym k)) (S.items source.old) (S.items source.new)
        (λ v x. map E.view v.items ≡ n x) result }
{
    if !source.sees_punctuator(opener) {
        return Ok(Vec::new(alloc));
    }
    let count = others.len();
    read_enclosed::<S, E>(alloc, source, opener, closer, others)?;
    Ok(split_list(alloc, others, count)?)
}

/// Reads what `read_enclosed` reads, or nothing if `opener` does not come next. The list starts with this capacity. For
/// a long source its unused capacity is given back.
#[inline(always)]
#[tactic(auto, using(crate::proofs::readers::Reading::reader_steps))]
pub fn optional_list<S: TokenSource, E: Elements<S>>(
    alloc: Global,
    source: &mut S,
    opener: Punctuator,
    closer: Punctuator,
    capacity: usize,
) -> Result<Vec<E::Item>, ReadError>
    ensures { (k : ℕ) (m n : ParseTree → List E.Tree)
        → IsList E.grammar (class_of opener) (class_of closer) E.production E.means k m → IsOption m n
        → Gives E.grammar (optional (Sym k)) (S.items source.old) (S.items source.new)
        (λ v x. map E.view v.items ≡ n x) result }
{
    if !source.sees_punctuator(opener) {
        return Ok(Vec::new(alloc));
    }
    let mut items = Vec::with_capacity(alloc, capacity)?;
    read_enclosed::<S, E>(alloc, source, opener, closer, &mut items)?;
    shrink_list(source, &mut items);
    Ok(items)
}
