//! Directive definitions.
ghost use Rattle.std.specs.Prelude.{◌≡◌, None, Some, [], ◌∷◌, codes};
ghost use Rattle.graphql_core.specs.{Then, Sym, optional, punctuator, word, Adds, is_there};
ghost use Rattle.graphql_core.specs.{separated_of};
ghost use Rattle.graphql_schema.specs.{location_symbol, locations_symbol, directive_definition_symbol, location_at};
ghost use Rattle.graphql_schema.specs.{locations_of, directive_definition_of, directive_definition_view, Reads};

use crate::DirectiveLocation;
use crate::read::input::optional_argument_definitions;
use crate::read::names::optional_punctuator;
use crate::tree::DirectiveDefinition;
use graphql_core::common::read::leaf::next_of;
use graphql_core::helpers::{
    Punctuator, ReadError, TokenSource, expect_keyword, expect_name, expect_punctuator,
    sees_keyword, shrink_list,
};
use graphql_core::tokenizer::Kind;
use std::alloc::Global;

/// `Location = Name`, where the name is that of a directive location.
#[tactic(auto, using(graphql_core::proofs::readers::Reading::reader_steps))]
fn location<S: TokenSource>(source: &mut S) -> Result<DirectiveLocation, ReadError>
    ensures { Reads (Sym location_symbol) (S.items source.old) (S.items source.new)
        (λ v x. Some v ≡ location_at x) result }
{
    let token = next_of(source, Kind::Name)?;
    let Ok(location) = S::as_str(&token.text).parse::<DirectiveLocation>() else {
        return Err(ReadError::Location);
    };
    source.advance();
    Ok(location)
}

/// `"|" Location`. Appends the location to `locations`.
#[tactic(auto, using(graphql_core::proofs::readers::Reading::reader_steps))]
fn separated_location<S: TokenSource>(
    source: &mut S,
    locations: &mut Vec<DirectiveLocation>,
) -> Result<(), ReadError>
    ensures { Reads (Then (punctuator (codes "|")) (Sym location_symbol))
        (S.items source.old) (S.items source.new)
        (λ v x. Adds Some locations.old.items locations.new.items (separated_of location_at None x ∷ [])) result }
{
    expect_punctuator(source, Punctuator::Pipe)?;
    locations.push(location(source)?)?;
    Ok(())
}

/// `Locations = "|"? Location ("|" Location)*`
#[tactic(auto, using(graphql_core::proofs::readers::Reading::reader_steps))]
fn locations<S: TokenSource>(
    alloc: Global,
    source: &mut S,
) -> Result<Vec<DirectiveLocation>, ReadError>
    ensures { Reads (Sym locations_symbol) (S.items source.old) (S.items source.new)
        (λ v x. v.items ≡ locations_of x) result }
{
    let mut locations = Vec::new(alloc);
    optional_punctuator(source, Punctuator::Pipe)?;
    locations.push(location(source)?)?;
    'more: while source.sees_punctuator(Punctuator::Pipe) {
        separated_location(source, &mut locations)?;
    }
    shrink_list(source, &mut locations);
    Ok(locations)
}

/// `"repeatable"?`
#[tactic(auto, using(graphql_core::proofs::readers::Reading::reader_steps))]
fn repeatable<S: TokenSource>(source: &mut S) -> Result<bool, ReadError>
    ensures { Reads (optional (word (codes "repeatable"))) (S.items source.old) (S.items source.new)
        (λ v x. v ≡ is_there x) result }
{
    if !sees_keyword(source, "repeatable") {
        return Ok(false);
    }
    expect_keyword(source, "repeatable")?;
    Ok(true)
}

/// `DirectiveDef = "directive" "@" Name ArgumentDefs? "repeatable"? "on" Locations`, without its description.
#[tactic(auto, using(graphql_core::proofs::readers::Reading::reader_steps))]
pub fn directive_definition<S: TokenSource>(
    alloc: Global,
    source: &mut S,
) -> Result<DirectiveDefinition<S::Names>, ReadError>
    ensures { Reads (Sym directive_definition_symbol) (S.items source.old) (S.items source.new)
        (λ v x. directive_definition_view S.Names.bytes v ≡ directive_definition_of None x) result }
{
    let position = expect_keyword(source, "directive")?;
    expect_punctuator(source, Punctuator::At)?;
    let name = expect_name(alloc, source)?;
    let arguments = optional_argument_definitions(alloc, source)?;
    let repeatable = repeatable(source)?;
    expect_keyword(source, "on")?;
    let locations = locations(alloc, source)?;
    Ok(DirectiveDefinition {
        position,
        description: None,
        name,
        arguments,
        repeatable,
        locations,
    })
}
