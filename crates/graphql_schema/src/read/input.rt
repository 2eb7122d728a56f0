//! Arguments of fields and of directives, and fields of input objects.
ghost use Rattle.std.specs.Prelude.{◌≡◌, map};
ghost use Rattle.graphql_core.specs.{Sym, optional, reading, enclosed_of, optional_list_of};
ghost use Rattle.graphql_schema.specs.Grammar.{input_value_symbol, argument_definitions_symbol, input_fields_symbol};
ghost use Rattle.graphql_schema.specs.Meanings.{input_value_of};
ghost use Rattle.graphql_schema.specs.Views.{input_value_view};
ghost use Rattle.graphql_schema.specs.Tree.{InputValueTree};
ghost use Rattle.graphql_schema.specs.Language.{schemas};
ghost use Rattle.graphql_schema.specs.steps.Readers.{Reads, as_written};

use crate::read::description::{optional_description, sees_described_name};
use crate::tree::InputValue;
use graphql_core::common::read::directives::{self, optional_default};
use graphql_core::common::read::lists::{Elements, optional_list, optional_split_list};
use graphql_core::common::read::types::type_reference;
use graphql_core::helpers::{Punctuator, ReadError, TokenSource, expect_name, expect_punctuator};
use std::alloc::Global;

/// The capacity that a list of argument definitions starts with.
const FEW_ARGUMENTS: usize = 2;

// The arguments between parentheses, or the fields between the braces of an input object.
struct InputValueList;

#[tactic(auto, using(graphql_core::proofs::readers::Reading::reader_steps))]
impl<S: TokenSource> Elements<S> for InputValueList {
    type Item = InputValue<S::Names>;

    ghost grammar = { reading schemas };

    ghost production = { Sym input_value_symbol };

    ghost Tree = { InputValueTree };

    ghost means = { as_written input_value_of };

    ghost view = { input_value_view S.Names.bytes };

    #[tactic(auto, using(crate::proofs::begins_described_name), unfolding(crate::specs::steps::FactoredRules::tables))]
    fn comes_next(source: &S) -> bool {
        sees_described_name(source)
    }

    /// `InputValue = Description? Name ":" Type Default? Directives`
    fn read(
        alloc: Global,
        source: &mut S,
        values: &mut Vec<InputValue<S::Names>>,
    ) -> Result<(), ReadError> {
        let position = source.position();
        let description = optional_description(alloc, source)?;
        let name = expect_name(alloc, source)?;
        expect_punctuator(source, Punctuator::Colon)?;
        let value_type = type_reference(alloc, source)?;
        let default_value = optional_default(alloc, source)?;
        let directives = directives::directives(alloc, source)?;
        values.reserve(1)?;
        values.push_reserved(InputValue {
            position,
            description,
            name,
            value_type,
            default_value,
            directives,
        });
        Ok(())
    }
}

/// `ArgumentDefs?`, `ArgumentDefs = "(" InputValue+ ")"`
#[inline(always)]
pub fn optional_argument_definitions<S: TokenSource>(
    alloc: Global,
    source: &mut S,
) -> Result<Vec<InputValue<S::Names>>, ReadError>
    ensures { Reads (optional (Sym argument_definitions_symbol)) (S.items source.old) (S.items source.new)
        (λ v x. map (input_value_view S.Names.bytes) v.items ≡ optional_list_of (enclosed_of input_value_of) x) result }
{
    let (open, close) = (Punctuator::OpenParen, Punctuator::CloseParen);
    optional_list::<S, InputValueList>(alloc, source, open, close, FEW_ARGUMENTS)
}

/// `InputFields?`, `InputFields = "{" InputValue+ "}"`. Elements are collected at the end of `others`, and split off.
pub fn optional_input_fields<S: TokenSource>(
    alloc: Global,
    source: &mut S,
    others: &mut Vec<InputValue<S::Names>>,
) -> Result<Vec<InputValue<S::Names>>, ReadError>
    ensures { Reads (optional (Sym input_fields_symbol)) (S.items source.old) (S.items source.new)
        (λ v x. map (input_value_view S.Names.bytes) v.items ≡ optional_list_of (enclosed_of input_value_of) x) result }
{
    let (open, close) = (Punctuator::OpenBrace, Punctuator::CloseBrace);
    optional_split_list::<S, InputValueList>(alloc, source, open, close, others)
}
