//! Runs with readers and writers made for tests.
mod calls;
mod devices;
mod documents;
mod failures;
mod shown;
mod words;

use crate::command::{Command, read_words};
use crate::counted::Counted;
use crate::engine::run;
use crate::error::{RunError, status};
use crate::tests::devices::{Sink, Source};
use graphql_parser::Style;
use std::alloc::{AllocError, Global};
use std::process::Abort;
use std::test::Fail;

/// Parses arguments that are separated by commas.
fn said(alloc: Global, words: &str) -> Result<Option<(Command, Style)>, AllocError> {
    let mut owned = Vec::new(alloc);
    for word in words.split(',') {
        owned.push(String::from_str(alloc, word)?)?;
    }
    Ok(read_words(owned))
}

/// The result of a run, what was written, and the counts of failures.
#[derive(Drop)]
struct Ran {
    returned: Result<(), RunError>,
    written: Vec<u8>,
    read_faults: u64,
    write_faults: u64,
}

/// Runs the engine with these arguments, from a source to a sink.
fn run_over(alloc: Global, words: &str, source: Source<'_>, mut sink: Sink) -> Result<Ran, Fail> {
    let (command, style) = said(alloc, words)?.ok_or("wrong words")?;
    let mut reader = Counted::new(source);
    let mut writer = Counted::new(&mut sink);
    let returned = run(alloc, command, &style, &mut reader, &mut writer);
    let read_faults = reader.faults();
    let write_faults = writer.faults();
    Ok(Ran {
        returned,
        written: sink.taken,
        read_faults,
        write_faults,
    })
}

/// The message on standard error; empty for `Ok`.
fn message_of(alloc: Global, returned: &Result<(), RunError>) -> Result<String, AllocError> {
    match returned {
        Ok(()) => Ok(String::new(alloc)),
        Err(error) => format!(in alloc; "{error}"),
    }
}

/// The run wrote these bytes, and ended with this message and this status.
fn assert_ended(
    rt: &impl Abort,
    alloc: Global,
    ran: &Ran,
    written: &[u8],
    message: &str,
    code: u8,
) -> Result<(), Fail> {
    assert_eq!(rt; message_of(alloc, &ran.returned)?.as_str(), message);
    assert_eq!(rt; ran.written.as_slice(), written, "{message}");
    assert_eq!(rt; status(Some(&ran.returned)), code, "{message}");
    if let Err(error) = &ran.returned {
        assert_eq!(rt; error.ends_its_line(), message.ends_with('\n'));
    }
    Ok(())
}
