//! Rejected nodes.
ghost use Rattle.std.specs.Prelude.{◌≡◌};
ghost use Rattle.graphql_core.specs.{at};
ghost use Rattle.graphql_schema.specs.steps.Rejections.{fault_said};

use graphql_core::common::{Cause, Fault};
use graphql_core::position::Pos;

/// A node that matches its production but is rejected.
#[derive(Drop)]
pub enum InvalidNode {
    /// A schema with a wrong operation: the cause, and the position of the keyword `schema`.
    Schema(Cause, Pos),
    /// An extension of the schema with a wrong operation: the cause, and the position of the keyword after `extend`.
    SchemaExtension(Cause, Pos),
    /// An extension that adds nothing, or only interfaces to an interface: the position of the keyword after `extend`.
    Extension(Pos),
}

impl InvalidNode {
    /// The error that describes the node.
    pub fn fault(self) -> Fault
        ensures { result ≡ at (fault_said self) }
    {
        match self {
            InvalidNode::Schema(cause, position) | InvalidNode::SchemaExtension(cause, position) =>
                { Fault::at(cause, position) }
            InvalidNode::Extension(position) => Fault::at(Cause::EmptyExtension, position),
        }
    }
}
