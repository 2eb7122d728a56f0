//! Documents as JSON, in the form of the AST of graphql-js. `docs/JSON.md` lists the nodes and their members.
#![tactic(auto)]

mod json;
mod node;
mod query;
mod schema;
mod values;

pub use query::query_to_json;
pub use schema::schema_to_json;
