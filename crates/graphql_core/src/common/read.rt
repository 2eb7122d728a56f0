//! Readers of the productions that queries and schemas share. Each reader quotes the production of its symbol.
pub mod directives;
pub mod document;
pub mod laws;
pub mod leaf;
pub mod leaf_laws;
pub mod lists;
pub mod node_error;
pub mod types;
pub mod values;
