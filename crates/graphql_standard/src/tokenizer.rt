//! The tokenizer: lexical elements of September 2025, and those that `graphql_core` reads too.

mod element;
mod laws;
mod number;
mod string;

pub use element::{Element, first_element};
pub use laws::{one_division, worked_examples};
pub use string::escape;
