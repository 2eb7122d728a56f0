//! Walks over values, types, arguments and directives.
ghost use Rattle.std.specs.Prelude.{◌≡◌};
ghost use Rattle.graphql_core.specs.{value_view, type_view, arguments_view, directive_view, directives_view};
ghost use Rattle.graphql_core.specs.values.ValueViews.{items_view, members_view};
ghost use Rattle.graphql_walk.specs.{Walks, WalksEach, branch, none, only, node_view};
ghost use Rattle.graphql_walk.specs.{value_branch, inside_value, items_branches, fields_branches, type_branch};
ghost use Rattle.graphql_walk.specs.{inside_type, arguments_branches, directives_branches};
ghost use Rattle.graphql_walk.specs.Nodes as nodes;

use crate::node::Node;
use crate::visitor::{Halt, Visitor, enter, leave};
use crate::walkable::{Walkable, walk_each};
use graphql_core::common::Names;
use graphql_core::common::tree::{Directive, Type, Value};
use std::collections::BTreeMap;

/// Walks over a value.
#[cycle(value)]
pub fn walk_value<N: Names, V: Visitor<N>>(
    value: &Value<N>,
    visitor: &mut V,
) -> Result<(), Halt<V::Error>>
    ensures { Walks V.visited (value_branch (value_view N.bytes value.now)) visitor.old result visitor.new }
{
    let node = Node::Value(value);
    if !enter(visitor, &node)? {
        return Ok(());
    }
    walk_in_value(value, visitor)?;
    leave(visitor, &node)
}

/// Walks over the nodes inside a value.
#[cycle(value)]
fn walk_in_value<N: Names, V: Visitor<N>>(
    value: &Value<N>,
    visitor: &mut V,
) -> Result<(), Halt<V::Error>>
    ensures { WalksEach V.visited (inside_value (value_view N.bytes value.now)) visitor.old result visitor.new }
{
    match value {
        Value::List(items) => walk_items(items, visitor),
        Value::Object(members) => walk_members(members, visitor),
        _ => Ok(()),
    }
}

/// Walks over the items of a list.
#[cycle(value)]
fn walk_items<N: Names, V: Visitor<N>>(
    items: &[Value<N>],
    visitor: &mut V,
) -> Result<(), Halt<V::Error>>
    ensures { WalksEach V.visited (items_branches (items_view N.bytes items.now)) visitor.old result visitor.new }
{
    'items: for item in items {
        walk_value(item, visitor)?;
    }
    Ok(())
}

/// Walks over the fields of an object.
#[cycle(value)]
fn walk_members<N: Names, V: Visitor<N>>(
    members: &BTreeMap<N::Value, Value<N>>,
    visitor: &mut V,
) -> Result<(), Halt<V::Error>>
    ensures { WalksEach V.visited (fields_branches (members_view N.bytes members.now.entries)) visitor.old result
        visitor.new }
{
    'members: for (name, member) in members.iter() {
        walk_pair(&Node::ObjectField(name, member), member, visitor)?;
    }
    Ok(())
}

/// Walks over an argument or a field of an object with this value.
#[cycle(value)]
fn walk_pair<N: Names, V: Visitor<N>>(
    pair: &Node<'_, N>,
    value: &Value<N>,
    visitor: &mut V,
) -> Result<(), Halt<V::Error>>
    ensures { Walks V.visited (branch (node_view N.bytes pair.now) (only (value_branch (value_view N.bytes value.now))))
        visitor.old result visitor.new }
{
    if !enter(visitor, pair)? {
        return Ok(());
    }
    walk_value(value, visitor)?;
    leave(visitor, pair)
}

impl<N: Names> Walkable<N> for Value<N> {
    ghost node_of = { λ v. nodes.value (value_view N.bytes v) };

    ghost inside_of = { λ v. inside_value (value_view N.bytes v) };

    fn node(&self) -> Node<'_, N> {
        Node::Value(self)
    }

    fn walk_inside<V: Visitor<N>>(&self, visitor: &mut V) -> Result<(), Halt<V::Error>> {
        walk_in_value(self, visitor)
    }
}

/// Walks over a type.
#[cycle(declared)]
pub fn walk_type<N: Names, V: Visitor<N>>(
    declared: &Type<N>,
    visitor: &mut V,
) -> Result<(), Halt<V::Error>>
    ensures { Walks V.visited (type_branch (type_view N.bytes declared.now)) visitor.old result visitor.new }
{
    let node = Node::Type(declared);
    if !enter(visitor, &node)? {
        return Ok(());
    }
    walk_in_type(declared, visitor)?;
    leave(visitor, &node)
}

/// Walks over the type inside a type.
#[cycle(declared)]
fn walk_in_type<N: Names, V: Visitor<N>>(
    declared: &Type<N>,
    visitor: &mut V,
) -> Result<(), Halt<V::Error>>
    ensures { WalksEach V.visited (inside_type (type_view N.bytes declared.now)) visitor.old result visitor.new }
{
    match declared {
        Type::NamedType(_) => Ok(()),
        Type::ListType(inner) => walk_type(&**inner, visitor),
        Type::NonNullType(inner) => walk_type(&**inner, visitor),
    }
}

/// Walks over arguments.
pub fn walk_arguments<N: Names, V: Visitor<N>>(
    arguments: &[(N::Value, Value<N>)],
    visitor: &mut V,
) -> Result<(), Halt<V::Error>>
    ensures { WalksEach V.visited (arguments_branches (arguments_view N.bytes arguments.now)) visitor.old result
        visitor.new }
{
    'arguments: for argument in arguments {
        let node = Node::Argument(&argument.0, &argument.1);
        walk_pair(&node, &argument.1, visitor)?;
    }
    Ok(())
}

impl<N: Names> Walkable<N> for Directive<N> {
    ghost node_of = { λ d. nodes.directive (directive_view N.bytes d) };

    ghost inside_of = { λ d. arguments_branches (arguments_view N.bytes d.arguments.items) };

    fn node(&self) -> Node<'_, N> {
        Node::Directive(self)
    }

    fn walk_inside<V: Visitor<N>>(&self, visitor: &mut V) -> Result<(), Halt<V::Error>> {
        walk_arguments(&self.arguments, visitor)
    }
}

/// Walks over directives.
pub fn walk_directives<N: Names, V: Visitor<N>>(
    directives: &[Directive<N>],
    visitor: &mut V,
) -> Result<(), Halt<V::Error>>
    ensures { WalksEach V.visited (directives_branches (directives_view N.bytes directives.now)) visitor.old result
        visitor.new }
{
    walk_each(directives, visitor)
}
