//! The nodes of a document, as visitors see them.
use graphql_core::common::Names;
use graphql_core::common::tree::{Directive, Type, Value};
use graphql_query::tree::{
    Document, Field, FragmentDefinition, FragmentSpread, InlineFragment, OperationDefinition,
    SelectionSet, TypeCondition, VariableDefinition,
};

/// A node of a document: a reference to a part of the tree, by its kind.
#[derive(Drop)]
pub enum Node<'a, N: Names> {
    /// A query document.
    Document(&'a Document<N>),
    /// An operation.
    Operation(&'a OperationDefinition<N>),
    /// A fragment.
    Fragment(&'a FragmentDefinition<N>),
    /// The definition of a variable.
    VariableDefinition(&'a VariableDefinition<N>),
    /// A selection set. A field without selections has no such node.
    SelectionSet(&'a SelectionSet<N>),
    /// A field of a selection set.
    Field(&'a Field<N>),
    /// A fragment spread.
    FragmentSpread(&'a FragmentSpread<N>),
    /// An inline fragment.
    InlineFragment(&'a InlineFragment<N>),
    /// The type condition of a fragment or of an inline fragment.
    TypeCondition(&'a TypeCondition<N>),
    /// An argument of a field or of a directive: its name and its value.
    Argument(&'a N::Value, &'a Value<N>),
    /// A directive.
    Directive(&'a Directive<N>),
    /// A type.
    Type(&'a Type<N>),
    /// A value.
    Value(&'a Value<N>),
    /// A field of an input object: its name and its value.
    ObjectField(&'a N::Value, &'a Value<N>),
}
