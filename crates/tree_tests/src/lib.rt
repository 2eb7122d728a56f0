//! Tests of trees, errors and other values that are built by hand, and of what `Display` and `Debug` show of them.
#![tactic(auto)]

#[cfg(test)]
mod tests;
