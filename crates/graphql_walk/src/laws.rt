//! A law of all walks.
ghost use Rattle.std.specs.Prelude.{◌≡◌, Ok};
ghost use Rattle.graphql_walk.specs.{Branch, Walks, AlwaysContinues, Calls, events};

use crate::visitor::Visitor;
use graphql_core::common::Names;

/// If a visitor continues after each call, its walk is completed. Its calls are the events of the nodes: each once, in
/// the order of the tree.
pub fn walks_call_all_events<N: Names, V: Visitor<N>>()
    requires { AlwaysContinues V.visited }
    ensures { (b : Branch) (s : _) (r : _) (t : _) → Walks V.visited b s r t
        → (r ≡ Ok tt) × Calls V.visited (events b) s t }
{}
