//! The tokenizer: splits the input into tokens.

mod bad;
mod brackets;
mod characters;
mod class;
mod element;
mod ignored;
pub(crate) mod lanes;
mod laws;
pub(crate) mod line;
pub(crate) mod number;
mod piece;
mod place;
mod quoted;
pub(crate) mod run;
mod stream;
mod token;
mod tokens;

pub use brackets::MAX_DEPTH;
pub(crate) use class::is_name_start;
pub use element::{Element, ElementKind, first_element};
pub use laws::{one_list_of_items, worked_examples};
pub use stream::TokenStream;
pub use token::{Bad, Kind, Token};
pub use tokens::Tokens;
