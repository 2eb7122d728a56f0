//! `gqlfmt`: formats GraphQL files, and keeps their comments.
#![tactic(auto)]

mod action;
mod arguments;
mod diff;
mod error;
mod files;
mod message;
mod name;
mod outcome;
mod report;
mod run;
mod words;

use crate::arguments::read_arguments;
use crate::name::Shown;
use crate::run::run_request;
use crate::words::{unreadable_option, words};
use clap::Error;
use std::io::ErrorKind;
use std::process::ExitCode;

/// Prints what `clap` says in place of a request: the help, the version or what is wrong with the arguments. The exit
/// status. If the reader of standard output has gone away, that is no error.
fn print_help(rt: &HostRuntime, help: &Error) -> u8 {
    let printed = help.print(rt);
    if help.use_stderr() {
        return 2;
    }
    match printed {
        Ok(()) => 0,
        Err(error) if error.kind() == ErrorKind::BrokenPipe => 0,
        Err(error) => {
            let _ = eprintln!(rt; "gqlfmt: standard output cannot be written: {error}");
            2
        }
    }
}

/// Does what the words of the command line ask for; the exit status.
fn run_words(rt: &HostRuntime, words: &[String]) -> u8 {
    if let Some(name) = unreadable_option(words) {
        let name = Shown(name);
        let _ = eprintln!(rt; "gqlfmt: an option is not UTF-8: {name}");
        return 2;
    }
    match read_arguments(rt.alloc(), words) {
        Ok(request) => run_request(rt, &request),
        Err(error) => print_help(rt, &error),
    }
}

fn main(rt: HostRuntime) -> ExitCode {
    match words(&rt, rt.alloc()) {
        Ok(words) => ExitCode::from(run_words(&rt, &words)),
        Err(_) => {
            let _ = eprintln!(rt; "gqlfmt: out of memory");
            ExitCode::from(2u8)
        }
    }
}
