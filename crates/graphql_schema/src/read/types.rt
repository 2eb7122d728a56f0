//! The bodies of types: what follows `extend` or a description.
ghost use Rattle.std.specs.Prelude.{◌≡◌, map};
ghost use Rattle.graphql_core.specs.{Sym, optional_list_of};
ghost use Rattle.graphql_schema.specs.{interfaces_of, has_interfaces, Reads, symbol_of, means, interfaces_rule};
ghost use Rattle.graphql_schema.specs.{parts_rule, parts_of, parts_view, type_body_view};

use crate::read::enums::optional_enum_values;
use crate::read::field::optional_fields;
use crate::read::input::optional_input_fields;
use crate::read::keyword::TypeKind;
use crate::read::names::{optional_implements, optional_members};
use crate::read::type_body::{TypeBody, TypeParts};
use crate::tree::{EnumValue, Field, InputValue};
use graphql_core::common::Names;
use graphql_core::common::read::directives;
use graphql_core::helpers::{ReadError, TokenSource, expect_keyword, expect_name};
use std::alloc::Global;

/// Lists at whose ends the parts of a type are collected.
#[derive(Drop)]
pub struct Scratch<N: Names> {
    fields: Vec<Field<N>>,
    values: Vec<EnumValue<N>>,
    inputs: Vec<InputValue<N>>,
}

impl<N: Names> Scratch<N> {
    /// Empty lists.
    pub fn new(alloc: Global) -> Self {
        Scratch {
            fields: Vec::new(alloc),
            values: Vec::new(alloc),
            inputs: Vec::new(alloc),
        }
    }
}

/// `Implements?` if the kind can have it.
#[tactic(auto, using(graphql_core::proofs::readers::Reading::reader_steps))]
fn interfaces<S: TokenSource>(
    alloc: Global,
    source: &mut S,
    kind: TypeKind,
) -> Result<Vec<<S::Names as Names>::Value>, ReadError>
    ensures { Reads (interfaces_rule (has_interfaces kind)) (S.items source.old) (S.items source.new)
        (λ v x. map S.Names.bytes v.items ≡ optional_list_of interfaces_of x) result }
{
    if !kind.has_interfaces() {
        return Ok(Vec::new(alloc));
    }
    optional_implements(alloc, source)
}

/// `Fields?`, `Members?`, `EnumValues?` or `InputFields?`, as `kind` says. The result also holds `interfaces`.
/// Parts are collected in `scratch`.
#[tactic(auto, using(graphql_core::proofs::readers::Reading::reader_steps))]
fn parts<S: TokenSource>(
    alloc: Global,
    source: &mut S,
    kind: TypeKind,
    interfaces: Vec<<S::Names as Names>::Value>,
    scratch: &mut Scratch<S::Names>,
) -> Result<TypeParts<S::Names>, ReadError>
    ensures { Reads (parts_rule kind) (S.items source.old) (S.items source.new)
        (λ v x. parts_view S.Names.bytes v ≡ parts_of kind (map S.Names.bytes interfaces.items) x) result }
{
    match kind {
        TypeKind::Scalar => Ok(TypeParts::Scalar),
        TypeKind::Object => {
            let fields = optional_fields(alloc, source, &mut scratch.fields)?;
            Ok(TypeParts::Object(interfaces, fields))
        }
        TypeKind::Interface => {
            let fields = optional_fields(alloc, source, &mut scratch.fields)?;
            Ok(TypeParts::Interface(interfaces, fields))
        }
        TypeKind::Union => {
            let types = optional_members(alloc, source)?;
            Ok(TypeParts::Union(types))
        }
        TypeKind::Enum => {
            let values = optional_enum_values(alloc, source, &mut scratch.values)?;
            Ok(TypeParts::Enum(values))
        }
        TypeKind::InputObject => {
            let fields = optional_input_fields(alloc, source, &mut scratch.inputs)?;
            Ok(TypeParts::InputObject(fields))
        }
    }
}

/// `Scalar`, `Object`, `Interface`, `Union`, `Enum` or `Input`, as `kind` says:
/// the keyword, `Name`, `Implements?` if the kind can have it, `Directives`, and the parts.
/// Parts are collected in `scratch`.
#[tactic(auto, using(graphql_core::proofs::readers::Reading::reader_steps))]
pub fn type_body<S: TokenSource>(
    alloc: Global,
    source: &mut S,
    kind: TypeKind,
    scratch: &mut Scratch<S::Names>,
) -> Result<TypeBody<S::Names>, ReadError>
    ensures { Reads (Sym (symbol_of kind)) (S.items source.old) (S.items source.new)
        (λ v x. type_body_view S.Names.bytes v ≡ means kind x) result }
{
    let position = expect_keyword(source, kind.word())?;
    let name = expect_name(alloc, source)?;
    let interfaces = interfaces(alloc, source, kind)?;
    let directives = directives::directives(alloc, source)?;
    let parts = parts(alloc, source, kind, interfaces, scratch)?;
    Ok(TypeBody {
        position,
        name,
        directives,
        parts,
    })
}
