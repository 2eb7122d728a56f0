//! Text types, numbers, values of strings, parse errors, and what both languages share: trees, readers and grammar.

mod cause;
mod fault;
pub mod grammar;
mod laws;
mod number;
pub mod read;
pub mod strings;
mod text;
pub mod tree;

pub use cause::{BadToken, Cause};
pub use fault::{Fault, MAX_LENGTH};
pub use laws::{one_value, worked_values};
pub use number::{FloatLiteral, Number};
pub use strings::{UnquoteError, unquote_block_string, unquote_string};
pub use text::{Names, Text};

/// A value, with names of the text type `T`.
pub type Value<'a, T> = tree::Value<T>;

/// A type, with names of the text type `T`.
pub type Type<'a, T> = tree::Type<T>;

/// A directive, with names of the text type `T`.
pub type Directive<'a, T> = tree::Directive<T>;
