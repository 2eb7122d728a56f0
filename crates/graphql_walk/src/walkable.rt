//! Trees that have a node, and lists of them.
ghost use Rattle.std.specs.Prelude.{◌≡◌, option_map, map};
ghost use Rattle.graphql_walk.specs.{Walks, WalksEach, branch, branches_of, optional, node_view};

use crate::node::Node;
use crate::visitor::{Halt, Visitor, enter, leave};
use graphql_core::common::Names;

/// A tree that has a node.
pub trait Walkable<N: Names> {
    ghost use Rattle.graphql_walk.specs.Nodes.{NodeTree, Branches};

    /// The node.
    ghost node_of: { Self → NodeTree };

    /// The nodes inside it.
    ghost inside_of: { Self → Branches };

    /// Returns the node.
    fn node(&self) -> Node<'_, N>
        ensures { node_view N.bytes result ≡ node_of self.now };

    /// Walks over the nodes inside it.
    fn walk_inside<V: Visitor<N>>(&self, visitor: &mut V) -> Result<(), Halt<V::Error>>
        ensures { WalksEach V.visited (inside_of self.now) visitor.old result visitor.new };
}

/// Walks over the node of a tree.
pub fn walk<N: Names, T: Walkable<N>, V: Visitor<N>>(
    tree: &T,
    visitor: &mut V,
) -> Result<(), Halt<V::Error>>
    ensures { Walks V.visited (branch (T.node_of tree.now) (T.inside_of tree.now)) visitor.old result visitor.new }
{
    let node = tree.node();
    if !enter(visitor, &node)? {
        return Ok(());
    }
    tree.walk_inside(visitor)?;
    leave(visitor, &node)
}

/// Walks over the nodes of trees in order.
pub fn walk_each<N: Names, T: Walkable<N>, V: Visitor<N>>(
    trees: &[T],
    visitor: &mut V,
) -> Result<(), Halt<V::Error>>
    ensures { WalksEach V.visited (branches_of (map (λ t. branch (T.node_of t) (T.inside_of t)) trees.now)) visitor.old
        result visitor.new }
{
    'trees: for tree in trees {
        walk(tree, visitor)?;
    }
    Ok(())
}

/// Walks over the node of a tree, if there is one.
pub fn walk_optional<N: Names, T: Walkable<N>, V: Visitor<N>>(
    tree: &Option<T>,
    visitor: &mut V,
) -> Result<(), Halt<V::Error>>
    ensures { WalksEach V.visited (optional (option_map (λ t. branch (T.node_of t) (T.inside_of t)) tree.now))
        visitor.old result visitor.new }
{
    match tree {
        Some(tree) => walk(tree, visitor),
        None => Ok(()),
    }
}
