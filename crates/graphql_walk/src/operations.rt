//! Operations and fragments by name.
ghost use Rattle.std.specs.Prelude.{◌≡◌, Some, None, cond, option_map};
ghost use Rattle.graphql_query.specs.Tree.{document_view, definition_view, definitions_view, fragment};
ghost use Rattle.graphql_query.specs.Tree.{operation_definition_view, fragment_definition_view};
ghost use Rattle.graphql_walk.specs.{first_definition, is_operation_named, is_fragment_named};
ghost use Rattle.graphql_walk.specs.{meant_operation};
ghost use Rattle.graphql_walk.specs.Operations as spec;

use graphql_core::common::Names;
use graphql_query::tree::{Definition, Document, FragmentDefinition, OperationDefinition};

/// Returns whether a name is there and is `name`.
fn has_name<N: Names>(found: &Option<N::Value>, name: &str) -> bool
    ensures { result ≡ spec.has_name name.now (option_map N.bytes found.now) }
{
    match found {
        Some(found) => N::view(found) == name,
        None => false,
    }
}

/// Returns whether an operation has this name.
fn is_named<N: Names>(operation: &OperationDefinition<N>, name: &str) -> bool
    ensures { result ≡ is_operation_named name.now (operation_definition_view N.bytes operation.now) }
{
    match operation {
        OperationDefinition::SelectionSet(_) => false,
        OperationDefinition::Query(query) => has_name::<N>(&query.name, name),
        OperationDefinition::Mutation(mutation) => has_name::<N>(&mutation.name, name),
        OperationDefinition::Subscription(subscription) => has_name::<N>(&subscription.name, name),
    }
}

/// Returns the operation if the definition is one with this name.
fn if_operation_named<'d, N: Names>(
    definition: &'d Definition<N>,
    name: &str,
) -> Option<&'d OperationDefinition<N>>
    ensures { option_map (λ o. operation_definition_view N.bytes o.now) result
        ≡ cond (is_operation_named name.now (definition_view N.bytes definition.now))
        (Some (definition_view N.bytes definition.now)) None }
{
    match definition {
        Definition::Operation(operation) if is_named(operation, name) => Some(operation),
        _ => None,
    }
}

/// Returns the fragment if the definition is one with this name.
fn if_fragment_named<'d, N: Names>(
    definition: &'d Definition<N>,
    name: &str,
) -> Option<&'d FragmentDefinition<N>>
    ensures { option_map (λ f. fragment (fragment_definition_view N.bytes f.now)) result
        ≡ cond (is_fragment_named name.now (definition_view N.bytes definition.now))
        (Some (definition_view N.bytes definition.now)) None }
{
    match definition {
        Definition::Fragment(found) if N::view(&found.name) == name => Some(found),
        _ => None,
    }
}

/// Returns whether the definition is an operation.
fn is_operation<N: Names>(definition: &Definition<N>) -> bool
    ensures { result ≡ spec.is_operation (definition_view N.bytes definition.now) }
{
    match definition {
        Definition::Operation(_) => true,
        Definition::Fragment(_) => false,
    }
}

/// Returns the first operation with this name.
fn operation_named<'d, N: Names>(
    definitions: &'d [Definition<N>],
    name: &str,
) -> Option<&'d OperationDefinition<N>>
    ensures { option_map (λ o. operation_definition_view N.bytes o.now) result
        ≡ first_definition (is_operation_named name.now) (definitions_view N.bytes definitions.now) }
{
    'definitions: for definition in definitions {
        if let Some(found) = if_operation_named(definition, name) {
            return Some(found);
        }
    }
    None
}

/// Returns the first fragment with this name.
fn fragment_named<'d, N: Names>(
    definitions: &'d [Definition<N>],
    name: &str,
) -> Option<&'d FragmentDefinition<N>>
    ensures { option_map (λ f. fragment (fragment_definition_view N.bytes f.now)) result
        ≡ first_definition (is_fragment_named name.now) (definitions_view N.bytes definitions.now) }
{
    'definitions: for definition in definitions {
        if let Some(found) = if_fragment_named(definition, name) {
            return Some(found);
        }
    }
    None
}

/// Returns whether a definition is an operation.
fn has_operation<N: Names>(definitions: &[Definition<N>]) -> bool
    ensures { result ≡ spec.has_operation (definitions_view N.bytes definitions.now) }
{
    'definitions: for definition in definitions {
        if is_operation(definition) {
            return true;
        }
    }
    false
}

/// Returns the operation that a definition is, if no other definition is one.
fn if_only_operation<'d, N: Names>(
    definition: &'d Definition<N>,
    others: &[Definition<N>],
) -> Option<&'d OperationDefinition<N>>
    ensures { option_map (λ o. operation_definition_view N.bytes o.now) result
        ≡ cond (spec.is_operation (definition_view N.bytes definition.now))
        (cond (spec.has_operation (definitions_view N.bytes others.now)) None
        (Some (definition_view N.bytes definition.now))) None }
{
    match definition {
        Definition::Operation(operation) => {
            if has_operation(others) {
                None
            } else {
                Some(operation)
            }
        }
        Definition::Fragment(_) => None,
    }
}

/// Returns the operation, if there is exactly one.
fn only_operation<'d, N: Names>(
    definitions: &'d [Definition<N>],
) -> Option<&'d OperationDefinition<N>>
    ensures { option_map (λ o. operation_definition_view N.bytes o.now) result
        ≡ spec.only_operation (definitions_view N.bytes definitions.now) }
{
    'definitions: for (index, definition) in definitions.iter().enumerate() {
        if is_operation(definition) {
            return if_only_operation(definition, &definitions[index + 1..]);
        }
    }
    None
}

/// Returns the operation of a document that a request means, as GetOperation of the specification has it (section 6.1).
///
/// Without a name it is the only operation. With a name it is the operation with this name: the first one, if the
/// document is not valid and has several. `None` means that there is none, and the request is an error.
pub fn get_operation<'d, N: Names>(
    document: &'d Document<N>,
    name: Option<&str>,
) -> Option<&'d OperationDefinition<N>>
    ensures { option_map (λ o. operation_definition_view N.bytes o.now) result
        ≡ meant_operation (document_view N.bytes document.now) (option_map (λ n. n.now) name.entry) }
{
    match name {
        Some(name) => operation_named(&document.definitions, name),
        None => only_operation(&document.definitions),
    }
}

/// Returns the fragment of a document with this name: the first one, if the document is not valid and has several.
pub fn get_fragment<'d, N: Names>(
    document: &'d Document<N>,
    name: &str,
) -> Option<&'d FragmentDefinition<N>>
    ensures { option_map (λ f. fragment (fragment_definition_view N.bytes f.now)) result
        ≡ first_definition (is_fragment_named name.now) (document_view N.bytes document.now) }
{
    fragment_named(&document.definitions, name)
}
