//! What is to be done about an input.
ghost use Rattle.std.specs.Prelude.{IfOk, string_bytes};
ghost use Rattle.gqlfmt.specs.{IsActionFor, IsActionOn};

use crate::arguments::{Request, Task};
use crate::diff::unified;
use crate::message::rejection;
use crate::name::Shown;
use graphql_fmt::{format_comments, format_source};
use std::alloc::{AllocError, Global};

/// What is to be done about an input.
#[derive(Debug, Drop)]
pub enum Action {
    /// Nothing: the input is formatted.
    Keep,
    /// Write the formatted text to standard output.
    Print(String),
    /// Write this to standard output, since the input would change.
    Report(String),
    /// Replace the text of the file.
    Replace(String),
    /// Write this message to standard error, since the input is rejected.
    Reject(String),
}

/// What is to be done with the formatted text of an input.
fn action_for(
    alloc: Global,
    task: Task,
    name: &str,
    source: &str,
    formatted: String,
) -> Result<Action, AllocError>
    ensures { IfOk result (IsActionFor task source.now (string_bytes formatted)) }
{
    match task {
        Task::Print => Ok(Action::Print(formatted)),
        _ if formatted.as_str() == source => Ok(Action::Keep),
        Task::Write => Ok(Action::Replace(formatted)),
        Task::Check => {
            let name = Shown(name);
            Ok(Action::Report(format!(in alloc; "{name}\n")?))
        }
        Task::Diff => Ok(Action::Report(unified(alloc, name, source, &formatted)?)),
    }
}

/// Formats an input, and decides what is to be done about it. An input without a token is formatted too. The error is
/// that an allocation failed.
pub fn decide(
    alloc: Global,
    request: &Request,
    name: &str,
    source: &str,
) -> Result<Action, AllocError>
    ensures { IfOk result (IsActionOn request.now.task source.now) }
{
    if let Some(formatted) = format_comments(alloc, source, &request.options)? {
        return action_for(alloc, request.task, name, source, formatted);
    }
    match format_source(alloc, source, &request.options) {
        Ok(formatted) => action_for(alloc, request.task, name, source, formatted),
        Err(error) => {
            let message = rejection(alloc, name, source, &error, &request.messages)?;
            Ok(Action::Reject(message))
        }
    }
}
