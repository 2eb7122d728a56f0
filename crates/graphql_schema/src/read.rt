//! Readers of the symbols of the grammar. The comment above a reader quotes its production.
mod definition;
mod description;
mod directive;
mod enums;
mod extension;
mod field;
mod input;
mod invalid_node;
mod keyword;
mod names;
mod schema;
mod type_body;
mod types;

pub use definition::definitions;
pub use invalid_node::InvalidNode;
