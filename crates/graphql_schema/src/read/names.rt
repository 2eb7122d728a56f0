//! Names separated by a punctuator: the interfaces of a type, and the members of a union.
ghost use Rattle.std.specs.Prelude.{◌≡◌, [], ◌∷◌, map};
ghost use Rattle.graphql_core.specs.{Then, Sym, optional, spelling_of, punctuator, spelling_at, Adds};
ghost use Rattle.graphql_core.specs.{joined_of, separated_of, optional_list_of};
ghost use Rattle.graphql_schema.specs.{joined_by, implements_symbol, members_symbol, interfaces_of, members_of, Reads};
ghost use Rattle.graphql_core.specs.values.Grammar as shared;

use graphql_core::common::Names;
use graphql_core::helpers::{
    Punctuator, ReadError, TokenSource, expect_keyword, expect_name, expect_punctuator,
    sees_keyword, shrink_list,
};
use std::alloc::Global;

/// Consumes a punctuator if it is the next token.
#[tactic(auto, using(graphql_core::proofs::readers::Reading::reader_steps))]
pub fn optional_punctuator<S: TokenSource>(
    source: &mut S,
    separator: Punctuator,
) -> Result<(), ReadError>
    ensures { Reads (optional (punctuator (spelling_of separator))) (S.items source.old) (S.items source.new)
        (λ v x. Unit {0}) result }
{
    if source.sees_punctuator(separator) {
        expect_punctuator(source, separator)?;
    }
    Ok(())
}

/// A punctuator and a name. Appends the name to `names`.
#[tactic(auto, using(graphql_core::proofs::readers::Reading::reader_steps))]
fn separated_name<S: TokenSource>(
    alloc: Global,
    source: &mut S,
    separator: Punctuator,
    names: &mut Vec<<S::Names as Names>::Value>,
) -> Result<(), ReadError>
    ensures { Reads (Then (punctuator (spelling_of separator)) shared.name)
        (S.items source.old) (S.items source.new)
        (λ v x. Adds S.Names.bytes names.old.items names.new.items (separated_of spelling_at [] x ∷ [])) result }
{
    expect_punctuator(source, separator)?;
    names.push(expect_name(alloc, source)?)?;
    Ok(())
}

/// Names separated by a punctuator, which can also precede the first.
#[tactic(auto, using(graphql_core::proofs::readers::Reading::reader_steps))]
fn joined_names<S: TokenSource>(
    alloc: Global,
    source: &mut S,
    separator: Punctuator,
) -> Result<Vec<<S::Names as Names>::Value>, ReadError>
    ensures { Reads (joined_by (spelling_of separator) shared.name) (S.items source.old) (S.items source.new)
        (λ v x. map S.Names.bytes v.items ≡ joined_of spelling_at [] x) result }
{
    let mut names = Vec::new(alloc);
    optional_punctuator(source, separator)?;
    names.push(expect_name(alloc, source)?)?;
    'more: while source.sees_punctuator(separator) {
        separated_name(alloc, source, separator, &mut names)?;
    }
    shrink_list(source, &mut names);
    Ok(names)
}

/// `Implements?`, `Implements = "implements" "&"? Name ("&" Name)*`
#[tactic(auto, using(graphql_core::proofs::readers::Reading::reader_steps))]
pub fn optional_implements<S: TokenSource>(
    alloc: Global,
    source: &mut S,
) -> Result<Vec<<S::Names as Names>::Value>, ReadError>
    ensures { Reads (optional (Sym implements_symbol)) (S.items source.old) (S.items source.new)
        (λ v x. map S.Names.bytes v.items ≡ optional_list_of interfaces_of x) result }
{
    if !sees_keyword(source, "implements") {
        return Ok(Vec::new(alloc));
    }
    expect_keyword(source, "implements")?;
    joined_names(alloc, source, Punctuator::Ampersand)
}

/// `Members?`, `Members = "=" "|"? Name ("|" Name)*`
#[tactic(auto, using(graphql_core::proofs::readers::Reading::reader_steps))]
pub fn optional_members<S: TokenSource>(
    alloc: Global,
    source: &mut S,
) -> Result<Vec<<S::Names as Names>::Value>, ReadError>
    ensures { Reads (optional (Sym members_symbol)) (S.items source.old) (S.items source.new)
        (λ v x. map S.Names.bytes v.items ≡ optional_list_of members_of x) result }
{
    if !source.sees_punctuator(Punctuator::Equals) {
        return Ok(Vec::new(alloc));
    }
    expect_punctuator(source, Punctuator::Equals)?;
    joined_names(alloc, source, Punctuator::Pipe)
}
