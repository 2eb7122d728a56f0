//! What queries and schemas share: positions, tokens, text types, error causes, style and output.
#![tactic(auto)]

pub mod common;
pub mod format;
pub mod helpers;
pub mod position;
pub mod tokenizer;
