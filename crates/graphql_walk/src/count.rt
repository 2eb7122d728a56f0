//! A visitor that counts fields.
ghost use Rattle.std.specs.Prelude.{◌≡◌, ◌-◌, ◌^◌, min};
ghost use Rattle.graphql_query.specs.Tree.{document_view};
ghost use Rattle.graphql_walk.specs.{fields_in, refers_to_field};

use crate::node::Node;
use crate::query::visit_query;
use crate::visitor::{Flow, Visitor};
use graphql_core::common::Names;
use graphql_query::tree::Document;
use std::convert::Infallible;

/// Returns whether the node is a field of a selection set.
fn is_field<N: Names>(node: &Node<'_, N>) -> bool
    ensures { result ≡ refers_to_field node.now }
{
    match node {
        Node::Field(_) => true,
        _ => false,
    }
}

/// How many fields a walk has entered, saturating at `usize::MAX`.
#[derive(Drop)]
struct FieldCounter {
    count: usize,
}

impl<N: Names> Visitor<N> for FieldCounter {
    ghost use Rattle.std.specs.Prelude.{◌≡◌, Ok};
    ghost use Rattle.graphql_walk.specs.steps.Counted.{IsCounted};
    ghost use Rattle.graphql_walk.specs.declared.visitor.Flow.TheVariants.{Continue};

    type Error = Infallible;

    ghost visited = { λ s e r t. (r ≡ Ok Continue) × IsCounted s.count e t.count };

    #[tactic(auto, using(crate::proofs::Counted::node_is_field))]
    fn enter(&mut self, node: &Node<'_, N>) -> Result<Flow, Infallible> {
        self.count = self.count.saturating_add(is_field(node) as usize);
        Ok(Flow::Continue)
    }

    fn leave(&mut self, _node: &Node<'_, N>) -> Result<Flow, Infallible> {
        Ok(Flow::Continue)
    }
}

/// Returns how many fields a query document has, saturating at `usize::MAX`. A fragment counts once, and a fragment
/// spread counts nothing.
pub fn count_fields<N: Names>(document: &Document<N>) -> usize
    ensures { result ≡ min (fields_in (document_view N.bytes document.now)) (2 ^ 64 - 1) }
{
    let mut counter = FieldCounter { count: 0 };
    let _ended = visit_query(document, &mut counter);
    counter.count
}
