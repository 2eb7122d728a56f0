//! Readers of the symbols of the grammar. The comment above a reader quotes its production.
mod alias;
pub mod definition;
mod fragment;
pub mod keyword;
mod operation;
mod selection;

pub use definition::definitions;
