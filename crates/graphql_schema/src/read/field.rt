//! Fields of object types and of interfaces.
ghost use Rattle.std.specs.Prelude.{◌≡◌, map};
ghost use Rattle.graphql_core.specs.{Sym, optional, reading, enclosed_of, optional_list_of};
ghost use Rattle.graphql_schema.specs.Grammar.{field_symbol, fields_symbol};
ghost use Rattle.graphql_schema.specs.Meanings.{field_of};
ghost use Rattle.graphql_schema.specs.Views.{field_view};
ghost use Rattle.graphql_schema.specs.Tree.{FieldTree};
ghost use Rattle.graphql_schema.specs.Language.{schemas};
ghost use Rattle.graphql_schema.specs.steps.Readers.{Reads, as_written};

use crate::read::description::{optional_description, sees_described_name};
use crate::read::input::optional_argument_definitions;
use crate::tree::Field;
use graphql_core::common::read::directives;
use graphql_core::common::read::lists::{Elements, optional_split_list};
use graphql_core::common::read::types::type_reference;
use graphql_core::helpers::{Punctuator, ReadError, TokenSource, expect_name, expect_punctuator};
use std::alloc::Global;

// The fields between the braces of an object type or of an interface.
struct FieldList;

#[tactic(auto, using(graphql_core::proofs::readers::Reading::reader_steps))]
impl<S: TokenSource> Elements<S> for FieldList {
    type Item = Field<S::Names>;

    ghost grammar = { reading schemas };

    ghost production = { Sym field_symbol };

    ghost Tree = { FieldTree };

    ghost means = { as_written field_of };

    ghost view = { field_view S.Names.bytes };

    #[tactic(auto, using(crate::proofs::begins_described_name), unfolding(crate::specs::steps::FactoredRules::tables))]
    fn comes_next(source: &S) -> bool {
        sees_described_name(source)
    }

    /// `FieldDef = Description? Name ArgumentDefs? ":" Type Directives`
    fn read(
        alloc: Global,
        source: &mut S,
        fields: &mut Vec<Field<S::Names>>,
    ) -> Result<(), ReadError> {
        let position = source.position();
        let description = optional_description(alloc, source)?;
        let name = expect_name(alloc, source)?;
        let arguments = optional_argument_definitions(alloc, source)?;
        expect_punctuator(source, Punctuator::Colon)?;
        let field_type = type_reference(alloc, source)?;
        let directives = directives::directives(alloc, source)?;
        fields.reserve(1)?;
        fields.push_reserved(Field {
            position,
            description,
            name,
            arguments,
            field_type,
            directives,
        });
        Ok(())
    }
}

/// `Fields?`, `Fields = "{" FieldDef+ "}"`. Elements are collected at the end of `others`, and split off.
pub fn optional_fields<S: TokenSource>(
    alloc: Global,
    source: &mut S,
    others: &mut Vec<Field<S::Names>>,
) -> Result<Vec<Field<S::Names>>, ReadError>
    ensures { Reads (optional (Sym fields_symbol)) (S.items source.old) (S.items source.new)
        (λ v x. map (field_view S.Names.bytes) v.items ≡ optional_list_of (enclosed_of field_of) x) result }
{
    let (open, close) = (Punctuator::OpenBrace, Punctuator::CloseBrace);
    optional_split_list::<S, FieldList>(alloc, source, open, close, others)
}
