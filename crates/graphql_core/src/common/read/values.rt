//! Values and constants.
ghost use Rattle.std.specs.Prelude.{◌≡◌};
ghost use Rattle.graphql_core.specs.grammar.Trees.{Sym};
ghost use Rattle.graphql_core.specs.values.Grammar.{shared, value_symbol, const_symbol};
ghost use Rattle.graphql_core.specs.values.Meanings.{value_of, const_of};
ghost use Rattle.graphql_core.specs.steps.Constness.{symbol_of, pair_symbol_of, variable_rule, list_rule};
ghost use Rattle.graphql_core.specs.steps.Constness.{object_rule, begins_variable, tree_of, pair_of, as_variable};
ghost use Rattle.graphql_core.specs.steps.Constness.{as_list, as_object};
ghost use Rattle.graphql_core.specs.values.Values.{put};
ghost use Rattle.graphql_core.specs.values.ValueViews.{value_view, members_view};
ghost use Rattle.graphql_core.specs.steps.ReaderResults.{Gives};

use crate::common::Names;
use crate::common::read::leaf::plain_value;
use crate::common::tree::Value;
use crate::helpers::{Punctuator, ReadError, TokenSource, expect_name, expect_punctuator};
use std::alloc::Global;
use std::collections::BTreeMap;

/// Whether a value can have variables.
#[derive(Clone, Copy)]
enum Constness {
    /// It can have variables.
    Value,
    /// It has no variable at any depth.
    Constant,
}

/// `Value = "$" Name | Plain | "[" Value* "]" | "{" Argument* "}"`
pub fn value<S: TokenSource>(alloc: Global, source: &mut S) -> Result<Value<S::Names>, ReadError>
    ensures { Gives shared (Sym value_symbol) (S.items source.old) (S.items source.new)
        (λ v x. value_view S.Names.bytes v ≡ value_of x) result }
{
    value_by_constness(alloc, source, Constness::Value)
}

/// `Const = Plain | "[" Const* "]" | "{" ConstPair* "}"`
pub fn constant<S: TokenSource>(alloc: Global, source: &mut S) -> Result<Value<S::Names>, ReadError>
    ensures { Gives shared (Sym const_symbol) (S.items source.old) (S.items source.new)
        (λ v x. value_view S.Names.bytes v ≡ const_of x) result }
{
    value_by_constness(alloc, source, Constness::Constant)
}

/// Whether a variable comes next and is allowed.
fn sees_variable<S: TokenSource>(source: &S, constness: Constness) -> bool
    ensures { result ≡ begins_variable constness (S.items source.now) }
{
    match constness {
        Constness::Value => source.sees_punctuator(Punctuator::Dollar),
        Constness::Constant => false,
    }
}

/// `"$" Name`
#[tactic(auto, using(crate::proofs::readers::Reading::reader_steps))]
fn variable<S: TokenSource>(alloc: Global, source: &mut S) -> Result<Value<S::Names>, ReadError>
    ensures { Gives shared variable_rule (S.items source.old) (S.items source.new)
        (λ v x. value_view S.Names.bytes v ≡ value_of (as_variable x)) result }
{
    expect_punctuator(source, Punctuator::Dollar)?;
    Ok(Value::Variable(expect_name(alloc, source)?))
}

/// `Value`, for constants `Const`
#[cycle(values)]
#[tactic(auto, using(crate::proofs::readers::Reading::reader_steps))]
fn value_by_constness<S: TokenSource>(
    alloc: Global,
    source: &mut S,
    constness: Constness,
) -> Result<Value<S::Names>, ReadError>
    ensures { Gives shared (Sym (symbol_of constness)) (S.items source.old) (S.items source.new)
        (λ v x. value_view S.Names.bytes v ≡ tree_of constness x) result }
{
    if sees_variable(source, constness) {
        return variable(alloc, source);
    }
    if source.sees_punctuator(Punctuator::OpenBracket) {
        return list(alloc, source, constness);
    }
    if source.sees_punctuator(Punctuator::OpenBrace) {
        return object(alloc, source, constness);
    }
    plain_value(alloc, source)
}

/// `"[" Value* "]"`, for constants `"[" Const* "]"`
#[cycle(values)]
#[tactic(auto, using(crate::proofs::readers::Reading::reader_steps))]
fn list<S: TokenSource>(
    alloc: Global,
    source: &mut S,
    constness: Constness,
) -> Result<Value<S::Names>, ReadError>
    ensures { Gives shared (list_rule constness) (S.items source.old) (S.items source.new)
        (λ v x. value_view S.Names.bytes v ≡ tree_of constness (as_list constness x)) result }
{
    expect_punctuator(source, Punctuator::OpenBracket)?;
    let mut items = Vec::new(alloc);
    'more: while !source.sees_punctuator(Punctuator::CloseBracket) {
        items.push(value_by_constness(alloc, source, constness)?)?;
    }
    expect_punctuator(source, Punctuator::CloseBracket)?;
    Ok(Value::List(items))
}

/// `"{" Argument* "}"`, for constants `"{" ConstPair* "}"`
#[cycle(values)]
#[tactic(auto, using(crate::proofs::readers::Reading::reader_steps))]
fn object<S: TokenSource>(
    alloc: Global,
    source: &mut S,
    constness: Constness,
) -> Result<Value<S::Names>, ReadError>
    ensures { Gives shared (object_rule constness) (S.items source.old) (S.items source.new)
        (λ v x. value_view S.Names.bytes v ≡ tree_of constness (as_object constness x)) result }
{
    expect_punctuator(source, Punctuator::OpenBrace)?;
    let mut fields = BTreeMap::new(alloc);
    'more: while source.sees_name() {
        member(alloc, source, constness, &mut fields)?;
    }
    expect_punctuator(source, Punctuator::CloseBrace)?;
    Ok(Value::Object(fields))
}

/// `Name ":" Value`, for constants `Name ":" Const`: a field, which replaces a field of the same name in `fields`.
#[cycle(values)]
#[tactic(auto, using(crate::proofs::readers::Reading::reader_steps))]
fn member<S: TokenSource>(
    alloc: Global,
    source: &mut S,
    constness: Constness,
    fields: &mut BTreeMap<<S::Names as Names>::Value, Value<S::Names>>,
) -> Result<(), ReadError>
    ensures { Gives shared (Sym (pair_symbol_of constness)) (S.items source.old) (S.items source.new)
        (λ v x. members_view S.Names.bytes fields.new.entries ≡ put (pair_of constness x).0 (pair_of constness x).1
        (members_view S.Names.bytes fields.old.entries)) result }
{
    let name = expect_name(alloc, source)?;
    expect_punctuator(source, Punctuator::Colon)?;
    let value = value_by_constness(alloc, source, constness)?;
    drop(fields.insert(name, value)?);
    Ok(())
}
