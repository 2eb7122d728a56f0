//! Arguments, directives and default values.
ghost use Rattle.std.specs.Prelude.{◌≡◌, ℕ, List, option_map};
ghost use Rattle.graphql_core.specs.grammar.Trees.{Sym, optional};
ghost use Rattle.graphql_core.specs.values.Grammar.{shared, arguments_symbol, argument_symbol, directive_symbol};
ghost use Rattle.graphql_core.specs.values.Grammar.{directives_symbol, default_symbol};
ghost use Rattle.graphql_core.specs.values.Meanings.{argument_of, optional_arguments_of, directive_of, directives_of};
ghost use Rattle.graphql_core.specs.values.Meanings.{default_of, optional_default_of};
ghost use Rattle.graphql_core.specs.values.Values.{ValueTree, DirectiveTree};
ghost use Rattle.graphql_core.specs.values.ValueViews.{value_view, argument_view, arguments_view, directive_view};
ghost use Rattle.graphql_core.specs.values.ValueViews.{directives_view};
ghost use Rattle.graphql_core.specs.steps.ReaderResults.{Gives};

use crate::common::Names;
use crate::common::read::lists::{Elements, read_enclosed, read_many};
use crate::common::read::values::{constant, value};
use crate::common::tree::{Directive, Value};
use crate::helpers::{Punctuator, ReadError, TokenSource, expect_name, expect_punctuator};
use std::alloc::Global;

/// The capacity that a list of arguments starts with.
const FEW_ARGUMENTS: usize = 2;

/// The capacity that a list of directives starts with.
const FEW_DIRECTIVES: usize = 1;

struct ArgumentList;

#[tactic(auto, using(crate::proofs::readers::Reading::reader_steps))]
impl<S: TokenSource> Elements<S> for ArgumentList {
    type Item = (<S::Names as Names>::Value, Value<S::Names>);

    ghost grammar = { shared };

    ghost production = { Sym argument_symbol };

    ghost Tree = { List ℕ × ValueTree };

    ghost means = { argument_of };

    ghost view = { argument_view S.Names.bytes };

    #[tactic(auto, unfolding(crate::specs::values::Grammar::tables))]
    fn comes_next(source: &S) -> bool {
        source.sees_name()
    }

    /// `Argument = Name ":" Value`
    fn read(
        alloc: Global,
        source: &mut S,
        items: &mut Vec<(<S::Names as Names>::Value, Value<S::Names>)>,
    ) -> Result<(), ReadError> {
        let name = expect_name(alloc, source)?;
        expect_punctuator(source, Punctuator::Colon)?;
        let value = value(alloc, source)?;
        items.reserve(1)?;
        items.push_reserved((name, value));
        Ok(())
    }
}

/// `Arguments?`, `Arguments = "(" Argument+ ")"`: an empty list if they are missing.
#[inline(always)]
#[tactic(auto, using(crate::proofs::readers::Reading::reader_steps))]
pub fn optional_arguments<S: TokenSource>(
    alloc: Global,
    source: &mut S,
) -> Result<Vec<(<S::Names as Names>::Value, Value<S::Names>)>, ReadError>
    ensures { Gives shared (optional (Sym arguments_symbol)) (S.items source.old) (S.items source.new)
        (λ v x. arguments_view S.Names.bytes v.items ≡ optional_arguments_of x) result }
{
    let (open, close) = (Punctuator::OpenParen, Punctuator::CloseParen);
    if !source.sees_punctuator(open) {
        return Ok(Vec::new(alloc));
    }
    let mut arguments = Vec::with_capacity(alloc, FEW_ARGUMENTS)?;
    read_enclosed::<S, ArgumentList>(alloc, source, open, close, &mut arguments)?;
    Ok(arguments)
}

struct DirectiveList;

#[tactic(auto, using(crate::proofs::readers::Reading::reader_steps))]
impl<S: TokenSource> Elements<S> for DirectiveList {
    type Item = Directive<S::Names>;

    ghost grammar = { shared };

    ghost production = { Sym directive_symbol };

    ghost Tree = { DirectiveTree };

    ghost means = { directive_of };

    ghost view = { directive_view S.Names.bytes };

    #[tactic(auto, unfolding(crate::specs::values::Grammar::tables))]
    fn comes_next(source: &S) -> bool {
        source.sees_punctuator(Punctuator::At)
    }

    /// `Directive = "@" Name Arguments?`
    #[inline(never)]
    fn read(
        alloc: Global,
        source: &mut S,
        items: &mut Vec<Directive<S::Names>>,
    ) -> Result<(), ReadError> {
        let position = expect_punctuator(source, Punctuator::At)?;
        let name = expect_name(alloc, source)?;
        let arguments = optional_arguments(alloc, source)?;
        items.reserve(1)?;
        items.push_reserved(Directive {
            position,
            name,
            arguments,
        });
        Ok(())
    }
}

/// `Directives = Directive*`
#[inline(always)]
#[tactic(auto, using(crate::proofs::readers::Reading::reader_steps))]
pub fn directives<S: TokenSource>(
    alloc: Global,
    source: &mut S,
) -> Result<Vec<Directive<S::Names>>, ReadError>
    ensures { Gives shared (Sym directives_symbol) (S.items source.old) (S.items source.new)
        (λ v x. directives_view S.Names.bytes v.items ≡ directives_of x) result }
{
    if !<DirectiveList as Elements<S>>::comes_next(source) {
        return Ok(Vec::new(alloc));
    }
    let mut directives = Vec::with_capacity(alloc, FEW_DIRECTIVES)?;
    read_many::<S, DirectiveList>(alloc, source, &mut directives)?;
    Ok(directives)
}

/// `Default = "=" Const`
#[inline(never)]
#[tactic(auto, using(crate::proofs::readers::Reading::reader_steps))]
fn default_value<S: TokenSource>(
    alloc: Global,
    source: &mut S,
) -> Result<Value<S::Names>, ReadError>
    ensures { Gives shared (Sym default_symbol) (S.items source.old) (S.items source.new)
        (λ v x. value_view S.Names.bytes v ≡ default_of x) result }
{
    expect_punctuator(source, Punctuator::Equals)?;
    constant(alloc, source)
}

/// `Default?`
#[inline(always)]
#[tactic(auto, using(crate::proofs::readers::Reading::reader_steps))]
pub fn optional_default<S: TokenSource>(
    alloc: Global,
    source: &mut S,
) -> Result<Option<Value<S::Names>>, ReadError>
    ensures { Gives shared (optional (Sym default_symbol)) (S.items source.old) (S.items source.new)
        (λ v x. option_map (value_view S.Names.bytes) v ≡ optional_default_of x) result }
{
    if !source.sees_punctuator(Punctuator::Equals) {
        return Ok(None);
    }
    Ok(Some(default_value(alloc, source)?))
}
