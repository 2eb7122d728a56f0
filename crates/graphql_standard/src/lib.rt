//! Documents of the GraphQL specification of September 2025.
#![tactic(auto)]

mod brackets;
mod checker;
mod definitions;
mod error;
mod errors;
mod expected;
mod laws;
mod place;
mod recognizer;
mod symbol;
mod terminal;
pub mod tokenizer;

pub use checker::{Checker, check};
pub use error::{CheckError, Found, SyntaxError};
pub use errors::check_all;
pub use expected::ExpectedSet;
pub use laws::{documents_are_as_written, each_token_has_one_terminal, worked_examples};
pub use place::{Place, last_line};
pub use recognizer::Recognizer;
pub use terminal::Terminal;
