//! `gql`: reads GraphQL from standard input, and writes it formatted or minified to standard output.
#![tactic(auto)]

mod command;
mod counted;
mod engine;
mod error;
#[cfg(test)]
mod tests;

use crate::command::{Command, USAGE, read_words};
use crate::counted::Counted;
use crate::engine::run;
use crate::error::{RunError, status};
use graphql_parser::Style;
use std::env::{Env, FillError};
use std::process::ExitCode;
use std::{env, io};

/// The environment without the program's path, which can be any bytes: the first argument is the one after it.
#[derive(Clone, Copy)]
struct AfterPath<'a>(&'a HostRuntime);

impl Env for AfterPath<'_> {
    fn arg(&self, i: usize, buf: &mut [u8]) -> Result<usize, FillError> {
        match i.checked_add(1) {
            Some(next) => self.0.arg(next, buf),
            None => Err(FillError::NotPresent),
        }
    }

    fn var(&self, name: &str, buf: &mut [u8]) -> Result<usize, FillError> {
        self.0.var(name, buf)
    }

    fn var_at(&self, i: usize, buf: &mut [u8]) -> Result<usize, FillError> {
        self.0.var_at(i, buf)
    }
}

/// The command and the style from the arguments; `None` if the arguments are invalid or cannot be read.
fn words(rt: &HostRuntime) -> Option<(Command, Style)> {
    let mut words = Vec::new(rt.alloc());
    for word in env::args(&(AfterPath(rt), rt.alloc())).ok()? {
        words.push(word).ok()?;
    }
    read_words(words)
}

/// Runs a command on standard input and output.
fn run_command(rt: &HostRuntime, command: Command, style: &Style) -> Result<(), RunError> {
    let mut reader = Counted::new(rt.reader());
    let mut writer = Counted::new(io::writer(rt));
    run(rt.alloc(), command, style, &mut reader, &mut writer)
}

/// Writes the message of an error to standard error, ended by a line feed. A failed write is ignored.
fn report(rt: &HostRuntime, error: &RunError) {
    let _ = if error.ends_its_line() {
        eprint!(rt; "{error}")
    } else {
        eprintln!(rt; "{error}")
    };
}

fn main(rt: HostRuntime) -> ExitCode {
    let Some((command, style)) = words(&rt) else {
        let _ = eprintln!(rt; "{USAGE}");
        return ExitCode::from(status(None));
    };
    let returned = run_command(&rt, command, &style);
    if let Err(error) = &returned {
        report(&rt, error);
    }
    ExitCode::from(status(Some(&returned)))
}
