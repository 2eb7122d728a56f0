//! Visitors: what a walk calls at each node.
ghost use Rattle.graphql_walk.specs.{Entering, Leaving};
ghost use Rattle.graphql_walk.specs.Nodes.{node_view};

use crate::node::Node;
use graphql_core::common::Names;

/// What a walk does after a call of its visitor.
#[derive(Clone, Copy, Debug, PartialEq, Eq)]
pub enum Flow {
    /// It continues with the next node.
    Continue,
    /// After `enter` it continues behind the node: it walks no node inside it and does not leave it. After `leave` it
    /// continues.
    Skip,
    /// It ends.
    Stop,
}

/// A visitor: what a walk calls when it enters a node and when it leaves it.
///
/// A method that has nothing to do returns `Ok(Flow::Continue)`.
pub trait Visitor<N: Names> {
    ghost use Rattle.std.specs.Prelude.{Result};
    ghost use Rattle.graphql_walk.specs.Nodes.{Event, enter, leave, node_view};
    ghost use Rattle.graphql_walk.specs.declared.visitor.Flow.{Flow};

    /// Why the visitor fails. It ends the walk.
    type Error: Drop;

    // a call: the visitor before it, the event, the result, and the visitor after it; by default nothing is known of it
    ghost visited: { Self → Event → Result Flow Self.Error → Self → Type 0 } = { λ _ _ _ _. Unit {0} };

    /// Enters a node, before the nodes inside it.
    fn enter(&mut self, node: &Node<'_, N>) -> Result<Flow, Self::Error>
        ensures { visited self.old (enter (node_view N.bytes node.now)) result self.new };

    /// Leaves a node, after the nodes inside it.
    fn leave(&mut self, node: &Node<'_, N>) -> Result<Flow, Self::Error>
        ensures { visited self.old (leave (node_view N.bytes node.now)) result self.new };
}

/// Why a walk ended early.
#[derive(Drop)]
pub enum Halt<E> {
    /// The visitor stopped it.
    Stopped,
    /// The visitor failed.
    Failed(E),
}

/// Enters a node. Returns whether the nodes inside it are to be walked.
pub fn enter<N: Names, V: Visitor<N>>(
    visitor: &mut V,
    node: &Node<'_, N>,
) -> Result<bool, Halt<V::Error>>
    ensures { Entering V.visited (node_view N.bytes node.now) visitor.old result visitor.new }
{
    match visitor.enter(node) {
        Ok(Flow::Continue) => Ok(true),
        Ok(Flow::Skip) => Ok(false),
        Ok(Flow::Stop) => Err(Halt::Stopped),
        Err(error) => Err(Halt::Failed(error)),
    }
}

/// Leaves a node.
pub fn leave<N: Names, V: Visitor<N>>(
    visitor: &mut V,
    node: &Node<'_, N>,
) -> Result<(), Halt<V::Error>>
    ensures { Leaving V.visited (node_view N.bytes node.now) visitor.old result visitor.new }
{
    match visitor.leave(node) {
        Ok(Flow::Continue) | Ok(Flow::Skip) => Ok(()),
        Ok(Flow::Stop) => Err(Halt::Stopped),
        Err(error) => Err(Halt::Failed(error)),
    }
}
