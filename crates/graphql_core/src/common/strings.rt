//! The values of string tokens.

mod block;
mod error;
mod quoted;

pub use block::unquote_block_string;
pub(crate) use block::{ESCAPED_QUOTES, QUOTES, is_blank, is_white};
pub use error::UnquoteError;
pub use quoted::unquote_string;
