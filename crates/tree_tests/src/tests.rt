//! What no clause says and no input shows of trees, errors and other values.

mod built;
mod built_schemas;
mod callers;
mod messages;
mod page;
mod values;
mod walks;
