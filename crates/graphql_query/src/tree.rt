//! The trees of queries. The parameter `N` decides how names are stored.
ghost use Rattle.std.specs.Prelude.{◌≡◌, Ok};

use graphql_core::common::Names;
use graphql_core::common::tree::{Directive, Type, Value};
use graphql_core::position::Pos;
use std::alloc::{AllocError, Global};

/// A query document: its definitions in order (October 2021, section 2.2).
#[derive_where(Debug, Clone, PartialEq)]
#[derive(Drop)]
pub struct Document<N: Names> {
    /// The definitions in source order; a parsed document has at least one.
    pub definitions: Vec<Definition<N>>,
}

impl Document<String> {
    /// Returns the document, positions included, as one that does not borrow the source.
    ///
    /// The names are owned strings, so the document is returned as it is: nothing is allocated, and no error occurs.
    pub fn into_static(self, _alloc: Global) -> Result<Document<String>, AllocError>
        ensures { result ≡ Ok self }
    {
        Ok(self)
    }
}

/// A definition (section 2.2).
#[derive_where(Debug, Clone, PartialEq)]
#[derive(Drop)]
pub enum Definition<N: Names> {
    /// An operation (section 2.3).
    Operation(OperationDefinition<N>),
    /// A fragment (section 2.8).
    Fragment(FragmentDefinition<N>),
}

/// An operation (section 2.3).
#[derive_where(Debug, Clone, PartialEq)]
#[derive(Drop)]
pub enum OperationDefinition<N: Names> {
    /// A query in short form: a selection set without keyword and name.
    SelectionSet(SelectionSet<N>),
    /// A query with its keyword.
    Query(Query<N>),
    /// A mutation.
    Mutation(Mutation<N>),
    /// A subscription.
    Subscription(Subscription<N>),
}

/// A query: an operation that only reads (section 2.3).
#[derive_where(Debug, Clone, PartialEq)]
#[derive(Drop)]
pub struct Query<N: Names> {
    /// The position of the keyword `query`.
    pub position: Pos,
    /// The name; `None` for an anonymous query.
    pub name: Option<N::Value>,
    /// The variables in source order; empty without parentheses.
    pub variable_definitions: Vec<VariableDefinition<N>>,
    /// The directives in source order.
    pub directives: Vec<Directive<N>>,
    /// The selections; a parsed query has at least one.
    pub selection_set: SelectionSet<N>,
}

/// A mutation: an operation that writes and then reads (section 2.3).
#[derive_where(Debug, Clone, PartialEq)]
#[derive(Drop)]
pub struct Mutation<N: Names> {
    /// The position of the keyword `mutation`.
    pub position: Pos,
    /// The name; `None` for an anonymous mutation.
    pub name: Option<N::Value>,
    /// The variables in source order; empty without parentheses.
    pub variable_definitions: Vec<VariableDefinition<N>>,
    /// The directives in source order.
    pub directives: Vec<Directive<N>>,
    /// The selections; a parsed mutation has at least one.
    pub selection_set: SelectionSet<N>,
}

/// A subscription: an operation that reads again at each event of a stream (section 2.3).
#[derive_where(Debug, Clone, PartialEq)]
#[derive(Drop)]
pub struct Subscription<N: Names> {
    /// The position of the keyword `subscription`.
    pub position: Pos,
    /// The name; `None` for an anonymous subscription.
    pub name: Option<N::Value>,
    /// The variables in source order; empty without parentheses.
    pub variable_definitions: Vec<VariableDefinition<N>>,
    /// The directives in source order.
    pub directives: Vec<Directive<N>>,
    /// The selections; a parsed subscription has at least one.
    pub selection_set: SelectionSet<N>,
}

/// The definition of a variable (section 2.10).
#[derive_where(Debug, Clone, PartialEq)]
#[derive(Drop)]
pub struct VariableDefinition<N: Names> {
    /// The position of the `$`.
    pub position: Pos,
    /// The name, without the `$`.
    pub name: N::Value,
    /// The type (section 2.11).
    pub var_type: Type<N>,
    /// The default value, if there is one; a parsed one holds no variable.
    pub default_value: Option<Value<N>>,
    /// The directives in source order.
    pub directives: Vec<Directive<N>>,
}

/// A fragment: named selections on a type (section 2.8).
#[derive_where(Debug, Clone, PartialEq)]
#[derive(Drop)]
pub struct FragmentDefinition<N: Names> {
    /// The position of the keyword `fragment`.
    pub position: Pos,
    /// The name, which can also be `on`.
    pub name: N::Value,
    /// The type to which the selections apply.
    pub type_condition: TypeCondition<N>,
    /// The directives in source order.
    pub directives: Vec<Directive<N>>,
    /// The selections; a parsed fragment has at least one.
    pub selection_set: SelectionSet<N>,
}

/// The type to which selections apply (section 2.8.1).
#[derive_where(Debug, Clone, PartialEq)]
#[derive(Drop)]
pub enum TypeCondition<N: Names> {
    /// `on` and the name of the type.
    On(N::Value),
}

/// Selections in braces (section 2.4).
#[derive_where(Debug, Clone, PartialEq)]
#[derive(Drop)]
#[cycle(selection)]
pub struct SelectionSet<N: Names> {
    /// The positions of `{` and `}`; for a field without braces, the position of the field twice.
    pub span: (Pos, Pos),
    /// The selections in source order; after parsing, empty only for a field without braces.
    pub items: Vec<Selection<N>>,
}

/// One selection (section 2.4).
#[derive_where(Debug, Clone, PartialEq)]
#[derive(Drop)]
#[cycle(selection)]
pub enum Selection<N: Names> {
    /// A field (section 2.5).
    Field(Field<N>),
    /// A fragment spread (section 2.8).
    FragmentSpread(FragmentSpread<N>),
    /// An inline fragment (section 2.8.2).
    InlineFragment(InlineFragment<N>),
}

/// A field with its selection set (section 2.5).
#[derive_where(Debug, Clone, PartialEq)]
#[derive(Drop)]
#[cycle(selection)]
pub struct Field<N: Names> {
    /// The position of the alias if there is one, otherwise of the name.
    pub position: Pos,
    /// The alias: the name of the field in the response (section 2.7).
    pub alias: Option<N::Value>,
    /// The name, without the alias.
    pub name: N::Value,
    /// The arguments in source order, each a name and a value (section 2.6).
    pub arguments: Vec<(N::Value, Value<N>)>,
    /// The directives in source order.
    pub directives: Vec<Directive<N>>,
    /// The selections of the field; empty without braces.
    pub selection_set: SelectionSet<N>,
}

/// A fragment spread: `...` and the name of a fragment (section 2.8).
#[derive_where(Debug, Clone, PartialEq)]
#[derive(Drop)]
pub struct FragmentSpread<N: Names> {
    /// The position of the name, not of the `...`.
    pub position: Pos,
    /// The name of the fragment; after parsing, never `on`.
    pub fragment_name: N::Value,
    /// The directives in source order.
    pub directives: Vec<Directive<N>>,
}

/// An inline fragment: selections after `...`, with or without a type (section 2.8.2).
#[derive_where(Debug, Clone, PartialEq)]
#[derive(Drop)]
#[cycle(selection)]
pub struct InlineFragment<N: Names> {
    /// The position of the token after the `...`.
    pub position: Pos,
    /// The type; `None` means the type of the enclosing selections.
    pub type_condition: Option<TypeCondition<N>>,
    /// The directives in source order.
    pub directives: Vec<Directive<N>>,
    /// The selections; a parsed fragment has at least one.
    pub selection_set: SelectionSet<N>,
}
