//! Values of enums.
ghost use Rattle.std.specs.Prelude.{◌≡◌, map};
ghost use Rattle.graphql_core.specs.{Sym, optional, reading, enclosed_of, optional_list_of};
ghost use Rattle.graphql_schema.specs.Grammar.{enum_value_symbol, enum_values_symbol};
ghost use Rattle.graphql_schema.specs.Meanings.{enum_value_of};
ghost use Rattle.graphql_schema.specs.Views.{enum_value_view};
ghost use Rattle.graphql_schema.specs.Tree.{EnumValueTree};
ghost use Rattle.graphql_schema.specs.Language.{schemas};
ghost use Rattle.graphql_schema.specs.steps.Readers.{Reads, as_written};

use crate::read::description::{optional_description, sees_described_name};
use crate::tree::EnumValue;
use graphql_core::common::read::directives;
use graphql_core::common::read::lists::{Elements, optional_split_list};
use graphql_core::helpers::{Punctuator, ReadError, TokenSource, expect_name};
use std::alloc::Global;

// The values between the braces of an enum.
struct EnumValueList;

#[tactic(auto, using(graphql_core::proofs::readers::Reading::reader_steps))]
impl<S: TokenSource> Elements<S> for EnumValueList {
    type Item = EnumValue<S::Names>;

    ghost grammar = { reading schemas };

    ghost production = { Sym enum_value_symbol };

    ghost Tree = { EnumValueTree };

    ghost means = { as_written enum_value_of };

    ghost view = { enum_value_view S.Names.bytes };

    #[tactic(auto, using(crate::proofs::begins_described_name), unfolding(crate::specs::steps::FactoredRules::tables))]
    fn comes_next(source: &S) -> bool {
        sees_described_name(source)
    }

    /// `EnumValue = Description? Name Directives`
    fn read(
        alloc: Global,
        source: &mut S,
        values: &mut Vec<EnumValue<S::Names>>,
    ) -> Result<(), ReadError> {
        let position = source.position();
        let description = optional_description(alloc, source)?;
        let name = expect_name(alloc, source)?;
        let directives = directives::directives(alloc, source)?;
        values.reserve(1)?;
        values.push_reserved(EnumValue {
            position,
            description,
            name,
            directives,
        });
        Ok(())
    }
}

/// `EnumValues?`, `EnumValues = "{" EnumValue+ "}"`. Elements are collected at the end of `others`, and split off.
pub fn optional_enum_values<S: TokenSource>(
    alloc: Global,
    source: &mut S,
    others: &mut Vec<EnumValue<S::Names>>,
) -> Result<Vec<EnumValue<S::Names>>, ReadError>
    ensures { Reads (optional (Sym enum_values_symbol)) (S.items source.old) (S.items source.new)
        (λ v x. map (enum_value_view S.Names.bytes) v.items ≡ optional_list_of (enclosed_of enum_value_of) x) result }
{
    let (open, close) = (Punctuator::OpenBrace, Punctuator::CloseBrace);
    optional_split_list::<S, EnumValueList>(alloc, source, open, close, others)
}
