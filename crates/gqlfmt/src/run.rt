//! Runs a request on files and on standard input and output.
ghost use Rattle.std.specs.Prelude.{◌≡◌, ◌⊎◌, IfOk, IfSome, OnOk, string_bytes};
ghost use Rattle.std.specs.Io.KnownBytes.{Appends};
ghost use Rattle.gqlfmt.specs.{IsDone, IsOutcomeOf};

use crate::action::{Action, decide};
use crate::arguments::{Inputs, Request, Task};
use crate::error::InputError;
use crate::files::{Source, find_files, read_file, read_text, replace_text, write_text};
use crate::name::Shown;
use crate::outcome::{Outcome, Tally};
use crate::words::unreadable;
use std::fs::{File, Metadata};
use std::io;
use std::io::{ErrorKind, Read, Write};
use std::rt::Files;

/// Writes a text to standard output.
fn print<W: Write>(output: &mut W, text: &str) -> io::Result<()>
    ensures { OnOk result (Appends (W.contents output.old) (W.contents output.new) text.now) }
{
    write_text(output, text)?;
    output.flush()
}

/// Writes to standard error why an input cannot be read or written.
fn fail(rt: &impl Eprint, name: &str, error: &InputError) -> Outcome
    ensures { result ≡ Outcome.Failed }
{
    let name = Shown(name);
    let _ = match error.place() {
        Some(place) => eprintln!(rt; "{name}:{place}: {error}"),
        None => eprintln!(rt; "{name}: {error}"),
    };
    Outcome::Failed
}

/// Replaces the text of a file.
fn rewrite<R: Files<File = File> + AllocGlobal + Eprint>(
    rt: &R,
    name: &str,
    metadata: Option<&Metadata>,
    text: &str,
) -> Outcome
    ensures { (result ≡ Outcome.Rewritten) ⊎ (result ≡ Outcome.Failed) }
{
    let replaced = match metadata {
        Some(metadata) => replace_text(rt, name, metadata, text),
        None => Err(InputError::NotRegular),
    };
    match replaced {
        Ok(()) => Outcome::Rewritten,
        Err(error) => fail(rt, name, &error),
    }
}

/// Does what is to be done about an input. The error is that of standard output.
fn perform<R: Files<File = File> + AllocGlobal + Eprint, W: Write>(
    rt: &R,
    output: &mut W,
    name: &str,
    metadata: Option<&Metadata>,
    action: Action,
) -> io::Result<Outcome>
    ensures { IfOk result (IsDone action (W.contents output.old) (W.contents output.new)) }
{
    match action {
        Action::Keep => Ok(Outcome::Unchanged),
        Action::Print(text) => {
            print(output, &text)?;
            Ok(Outcome::Printed)
        }
        Action::Report(text) => {
            print(output, &text)?;
            Ok(Outcome::Differs)
        }
        Action::Replace(text) => Ok(rewrite(rt, name, metadata, &text)),
        Action::Reject(message) => {
            let _ = eprint!(rt; "{message}");
            Ok(Outcome::Rejected)
        }
    }
}

/// Formats a text, and does what is to be done about it. The error is that of standard output.
fn format_text<R: Files<File = File> + AllocGlobal + Eprint, W: Write>(
    rt: &R,
    output: &mut W,
    request: &Request,
    name: &str,
    text: &str,
    metadata: Option<&Metadata>,
) -> io::Result<Outcome>
    ensures { IfOk result (IsOutcomeOf request.now.task text.now
        (W.contents output.old) (W.contents output.new)) }
{
    match decide(rt.alloc(), request, name, text) {
        Ok(action) => perform(rt, output, name, metadata, action),
        Err(_) => Ok(fail(rt, name, &InputError::OutOfMemory)),
    }
}

/// Formats a file that was read. The error is that of standard output.
fn format_read<R: Files<File = File> + AllocGlobal + Eprint, W: Write>(
    rt: &R,
    output: &mut W,
    request: &Request,
    path: &str,
    source: &Source,
) -> io::Result<Outcome>
    ensures { IfOk result (IsOutcomeOf request.now.task (string_bytes source.now.text)
        (W.contents output.old) (W.contents output.new)) }
{
    let metadata = Some(&source.metadata);
    format_text(rt, output, request, path, &source.text, metadata)
}

/// Formats a file. The error is that of standard output.
fn format_file<R: Files<File = File> + AllocGlobal + Eprint, W: Write>(
    rt: &R,
    output: &mut W,
    request: &Request,
    path: &str,
) -> io::Result<Outcome> {
    match read_file(rt, path) {
        Ok(source) => format_read(rt, output, request, path, &source),
        Err(error) => Ok(fail(rt, path, &error)),
    }
}

/// Formats standard input. The error is that of standard output.
fn format_standard_input<R: Files<File = File> + AllocGlobal + Eprint, I: Read, W: Write>(
    rt: &R,
    input: &mut I,
    output: &mut W,
    request: &Request,
    name: &str,
) -> io::Result<Outcome>
    ensures { IfSome (I.remaining input.old) (λ source.
        IfOk result (IsOutcomeOf request.now.task source
        (W.contents output.old) (W.contents output.new))) }
{
    match read_text(rt.alloc(), input) {
        Ok(text) => format_text(rt, output, request, name, &text, None),
        Err(error) => Ok(fail(rt, name, &error)),
    }
}

/// Says which files and folders could not be read, and why.
fn report_faults<R: Eprint>(rt: &R, faults: &[(String, InputError)], tally: &mut Tally) {
    for (path, error) in faults {
        tally.count(fail(rt, path.as_str(), error));
    }
}

/// Formats a file, or the files below a folder. The error is that of standard output.
fn format_path<R: Files<File = File> + AllocGlobal + Eprint + Clone + Drop, W: Write>(
    rt: &R,
    output: &mut W,
    request: &Request,
    path: &str,
    tally: &mut Tally,
) -> io::Result<()> {
    if let Some(name) = unreadable(path) {
        tally.count(fail(rt, name, &InputError::Name));
        return Ok(());
    }
    let found = match find_files(rt, path) {
        Ok(found) => found,
        Err(error) => {
            tally.count(fail(rt, path, &InputError::from(error)));
            return Ok(());
        }
    };
    report_faults(rt, &found.faults, tally);
    if found.files.is_empty() && found.faults.is_empty() {
        let path = Shown(path);
        let _ = eprintln!(rt; "{path}: has no files that end in .graphql, .graphqls or .gql");
    }
    for path in &found.files {
        tally.count(format_file(rt, output, request, path.as_str())?);
    }
    Ok(())
}

/// Formats all inputs, and counts what becomes of them. The error is that of standard output.
fn format_inputs<R: Files<File = File> + AllocGlobal + Eprint + Input + Clone + Drop, W: Write>(
    rt: &R,
    output: &mut W,
    request: &Request,
    tally: &mut Tally,
) -> io::Result<()> {
    match &request.inputs {
        Inputs::Standard(name) => {
            let mut input = rt.reader();
            let name = name.as_str();
            tally.count(format_standard_input(rt, &mut input, output, request, name)?);
        }
        Inputs::Paths(paths) => {
            for path in paths {
                format_path(rt, output, request, path.as_str(), tally)?;
            }
        }
    }
    Ok(())
}

/// Writes the line of counts to standard error, if there is one.
fn summarize<R: AllocGlobal + Eprint>(rt: &R, task: Task, tally: &mut Tally) {
    match tally.summary(rt.alloc(), task) {
        Ok(Some(summary)) => {
            let _ = eprintln!(rt; "{summary}");
        }
        Ok(None) => {}
        Err(_) => tally.count(Outcome::Failed),
    }
}

/// What becomes of an input if the reader of standard output goes away while it is written. For `Task::Check` and
/// `Task::Diff` something is written only if the input would change.
fn outcome_unread(task: Task) -> Outcome {
    match task {
        Task::Check | Task::Diff => Outcome::Differs,
        Task::Print | Task::Write => Outcome::Printed,
    }
}

/// Runs a request; the exit status. If standard output cannot be written, the inputs that are left are not read. If its
/// reader has gone away, that is no error.
pub fn run_request<R: Files<File = File> + AllocGlobal + Print + Eprint + Input + Clone + Drop>(
    rt: &R,
    request: &Request,
) -> u8 {
    let mut output = io::writer(rt);
    let mut tally = Tally::new();
    match format_inputs(rt, &mut output, request, &mut tally) {
        Ok(()) => {}
        Err(error) if error.kind() == ErrorKind::BrokenPipe => {
            tally.count(outcome_unread(request.task));
            return tally.status();
        }
        Err(error) => {
            let _ = eprintln!(rt; "gqlfmt: standard output cannot be written: {error}");
            tally.count(Outcome::Failed);
        }
    }
    summarize(rt, request.task, &mut tally);
    tally.status()
}
