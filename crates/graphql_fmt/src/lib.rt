//! Formats GraphQL source text, and keeps its comments.
//!
//! The output of [`format_source`] has the tokens and the comments of the input, in the same order. Block strings keep
//! their value, and comments all but the ASCII white space at their end. Outside block strings only ignored text
//! between tokens changes. In block strings only line ends, blank lines, indentation and, in four or more quotes in a
//! row, the backslashes change.
#![tactic(auto)]

mod format;
mod laws;
mod layout;
mod messages;
mod options;
mod pieces;
mod reports;

pub use format::{MAX_OPEN_BRACKETS, check_source, format_comments, format_source};
pub use graphql_standard::{
    CheckError, ExpectedSet, Found, Place, SyntaxError, Terminal, last_line,
};
pub use laws::kept_tokens_have_one_document;
pub use messages::{expected_words, found_words, inner_place, message};
pub use options::FormatOptions;
pub use reports::{ErrorReport, error_len, error_place, report};
