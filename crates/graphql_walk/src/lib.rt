//! Walks over the trees of query and schema documents.
#![tactic(auto)]

mod count;
mod laws;
mod node;
mod operations;
mod query;
mod values;
mod visitor;
mod walkable;

pub use count::count_fields;
pub use laws::walks_call_all_events;
pub use node::Node;
pub use operations::{get_fragment, get_operation};
pub use query::visit_query;
pub use visitor::{Flow, Visitor};
