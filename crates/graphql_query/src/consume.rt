//! Parsing the first definition of a source.
ghost use Rattle.std.specs.Prelude.{◌≡◌, ◌<◌, ◌≤◌, ◌/◌, ℕ, List, ◌∷◌, ◌++◌, length, drop, IfOk, IfErr, IsErrOf};
ghost use Rattle.graphql_core.specs.{Token, ParseTree, no_memory, max_length, too_long, Item, HasItems, next_place};
ghost use Rattle.graphql_core.specs.{ReturnsUnlessOutOfMemory, IsErrorFor, IsErrorOf};
ghost use Rattle.graphql_query.specs.{HasNoNewPart, DefinitionTree, definition_view, one_definition, text_after};
ghost use Rattle.graphql_query.specs.{BeginsWith, IsFirstDefinition, IsFirstDefinition_0_4_1, TakesDefinition};
ghost use Rattle.graphql_query.specs.{BeginsWithDefinition, IsFirstParseTree, BeginsWithParseTree, IsDocumentOf};
ghost use Rattle.graphql_query.specs.{HasDefinitions};

use crate::error::ParseError;
use crate::read::definition::definition;
use crate::tree::{Definition, Selection};
use graphql_core::common::{Fault, MAX_LENGTH, Text};
use graphql_core::helpers::{Cursor, TokenSource, fault_of};
use graphql_core::position::Pos;
use graphql_core::tokenizer::TokenStream;
use std::alloc::Global;

/// Parses the definition at the beginning of a source.
fn first_definition<S: TokenSource>(
    alloc: Global,
    source: &mut S,
    selections: &mut Vec<Selection<S::Names>>,
) -> Result<Definition<S::Names>, Fault>
    ensures takes { IfOk result
        (λ d. TakesDefinition (S.items source.old) (S.items source.new) (definition_view S.Names.bytes d)) }
    ensures complete { (x : ParseTree) (others : List Token) → BeginsWith (S.items source.old).tokens x others
        → IfErr result (λ e. e ≡ no_memory) }
    ensures first_error { IfErr result (IsErrorFor one_definition (S.items source.old)) }
{
    match definition(alloc, source, selections) {
        Ok(definition) => Ok(definition),
        Err(error) => Err(fault_of(alloc, source, error)),
    }
}

/// The source from the token at this position on; empty if no token is at this position.
fn text_from(source: &str, position: Pos) -> &str
    requires { length source.now ≤ usize.MAX / 16 }
    ensures { (items : List Item) (n : ℕ) → HasItems source.now items → n < length items
        → (next_place (drop n items)).position ≡ position → result.now ≡ text_after n items source.now }
{
    let mut stream = TokenStream::new(source);
    'items: while stream.position() != position {
        let Ok(Some(_)) = stream.next_token() else {
            return "";
        };
    }
    source.split_at(stream.offset()).1
}

/// Parses the first definition of the source (October 2021, section 2.2), and returns it with the rest of the source:
/// what follows the definition's last token and the ignored text behind it. The rest is not parsed and can be any text.
///
/// The errors are those of `parse_query`, for a source that must begin with a definition: `UnexpectedToken` or
/// `UnexpectedEnd` if no definition can continue with the token, or end there.
pub fn consume_definition<'a, S: Text<'a>>(
    alloc: Global,
    source: &'a str,
) -> Result<(Definition<S>, &'a str), ParseError>
    // The result is the first definition, positions included, and exactly the rest. There is only one
    // (`first_definition_is_unique` and `no_definition_begins_another` in `laws.rt`).
    ensures first { IfOk result (λ r. IsFirstDefinition source.now (definition_view S.Names.bytes r.0, r.1.now)) }
    ensures shorter { IfOk result (λ r. length r.1.now < length source.now) }

    // The rest never changes the definition: before any other rest it is the same, and so are its tokens, positions
    // included.
    ensures other_rest { IfOk result (λ r. (taken other : List ℕ) → source.now ≡ taken ++ r.1.now
        → BeginsWithDefinition (taken ++ other) (definition_view S.Names.bytes r.0)) }
    ensures other_tokens { IfOk result (λ r. (x : ParseTree) (taken other : List ℕ)
        → IsFirstParseTree source.now (x, r.1.now) → source.now ≡ taken ++ r.1.now
        → BeginsWithParseTree (taken ++ other) x) }

    // Every source of at most `MAX_LENGTH` bytes that begins with a definition is accepted, or the call returns
    // `OutOfMemory`.
    ensures complete { (r : DefinitionTree × List ℕ) → length source.now ≤ max_length → IsFirstDefinition source.now r
        → ReturnsUnlessOutOfMemory (λ a. (definition_view S.Names.bytes a.0, a.1.now)) r result }

    // If such a source is a document, the result is its first definition, and the rest parses to the other definitions,
    // ignoring positions. If there are no others, the rest is empty.
    ensures document { (d : DefinitionTree) (ds : List DefinitionTree) → length source.now ≤ max_length
        → IsDocumentOf source.now (d ∷ ds) → (rest : List ℕ) × HasDefinitions rest ds
        × ReturnsUnlessOutOfMemory {D = DefinitionTree × List ℕ}
        (λ a. (definition_view S.Names.bytes a.0, a.1.now)) (d, rest) result }

    // In a source of at most `MAX_LENGTH` bytes, the first definition of version 0.4.1 is returned as it was there,
    // with the same rest, or the call returns `OutOfMemory`. The definition has no part that was added since.
    ensures earlier { (r : DefinitionTree × List ℕ) → length source.now ≤ max_length
        → IsFirstDefinition_0_4_1 source.now r
        → HasNoNewPart r.0 × ReturnsUnlessOutOfMemory (λ a. (definition_view S.Names.bytes a.0, a.1.now)) r result }

    // An error is the first error of a source that must begin with a definition. Errors of one source have different
    // indexes (`definition_errors_have_different_indexes`).
    //
    // A source that is too long is rejected before any allocation.
    ensures first_error { IfErr result (IsErrorOf one_definition source.now) }
    ensures too_long { max_length < length source.now → IsErrOf result too_long }
{
    if source.len() > MAX_LENGTH {
        return Err(ParseError::from(Fault::text_too_long()));
    }
    let mut cursor: Cursor<'a, S> = Cursor::new(source);
    let mut selections = Vec::new(alloc);
    let definition = first_definition(alloc, &mut cursor, &mut selections)?;
    let rest = text_from(source, cursor.position());
    Ok((definition, rest))
}
