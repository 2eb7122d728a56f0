//! Why a reader stops, in a language that rejects some nodes.
ghost use Rattle.std.specs.Prelude.{◌≡◌};
ghost use Rattle.graphql_core.specs.declared.helpers.read_error.ReadError.TheVariants.{Memory};
ghost use Rattle.graphql_core.specs.declared.common.read.node_error.NodeError.TheVariants.{Stopped};

use crate::helpers::ReadError;
use std::alloc::{AllocError, AllocFailed};

/// Why a reader stops that can reject a node. `R` identifies the node.
pub enum NodeError<R> {
    /// An error that every reader can return.
    Stopped(ReadError),
    /// The node before the next token or end of input is rejected.
    RejectedNode(R),
}

impl<R> From<ReadError> for NodeError<R> {
    ghost from_gives = { λ s e. e ≡ Stopped s };

    fn from(error: ReadError) -> NodeError<R> {
        NodeError::Stopped(error)
    }
}

impl<R> From<AllocError> for NodeError<R> {
    ghost from_gives = { λ _ e. e ≡ Stopped Memory };

    fn from(_e: AllocError) -> NodeError<R> {
        NodeError::Stopped(ReadError::Memory)
    }
}

impl<T: Drop, R> From<AllocFailed<T>> for NodeError<R> {
    ghost from_gives = { λ _ e. e ≡ Stopped Memory };

    fn from(_e: AllocFailed<T>) -> NodeError<R> {
        NodeError::Stopped(ReadError::Memory)
    }
}
