//! Why a call fails.
ghost use Rattle.std.specs.Prelude.{◌≡◌, option_map};
ghost use Rattle.graphql_core.specs.{cause_text, place_of, out_of_memory};
ghost use Rattle.graphql_c.specs.{status_of, status_not_utf8, layout_status, source_status, source_numbers, alone};
ghost use Rattle.graphql_c.specs.{numbers_at, HasNumbers};

use crate::status::Status;
use graphql_core::common::Cause;
use graphql_core::format::FormatError;
use graphql_core::position::Pos;
use graphql_fmt::{CheckError, Found, Place, error_place, message};
use std::alloc::Global;
use std::fmt::Display;

/// Why a call fails: a status, a position (0 and 0 if there is none), and a message, which is empty if it could not be
/// allocated.
#[derive(Drop)]
pub struct Failure {
    /// The number of the status.
    pub status: u32,
    /// The line, from 1, or 0.
    pub line: usize,
    /// The column, from 1, or 0.
    pub column: usize,
    /// The number of bytes before the error in a source, or 0.
    pub offset: usize,
    /// The message.
    pub message: String,
}

fn status_of(cause: &Cause) -> u32
    ensures { result ≡ status_of (cause_text cause.now) }
{
    match cause {
        Cause::BadToken(_) => Status::BadToken as u32,
        Cause::UnexpectedToken { .. } => Status::UnexpectedToken as u32,
        Cause::UnexpectedEnd => Status::UnexpectedEnd as u32,
        Cause::TooDeep => Status::TooDeep as u32,
        Cause::IntOutOfRange => Status::IntOutOfRange as u32,
        Cause::MalformedFloat => Status::MalformedFloat as u32,
        Cause::BadEscape => Status::BadEscape as u32,
        Cause::UnknownLocation => Status::UnknownLocation as u32,
        Cause::DuplicateOperation(_) => Status::DuplicateOperation as u32,
        Cause::UnknownOperation(_) => Status::UnknownOperation as u32,
        Cause::EmptyExtension => Status::EmptyExtension as u32,
        Cause::TextTooLong => Status::TextTooLong as u32,
        Cause::OutOfMemory => Status::OutOfMemory as u32,
    }
}

fn source_status(error: &CheckError) -> u32
    ensures { result ≡ source_status error.now }
{
    match error {
        CheckError::Syntax(error) => match error.found {
            Found::LexicalError => Status::BadToken as u32,
            Found::Token(_) => Status::UnexpectedToken as u32,
            Found::EndOfInput => Status::UnexpectedEnd as u32,
        },
        CheckError::TooDeep(_) => Status::TooDeep as u32,
        CheckError::TooLong => Status::TextTooLong as u32,
        CheckError::OutOfMemory => Status::OutOfMemory as u32,
    }
}

impl Failure {
    /// A failure with this status and without a position.
    fn nowhere<E: Display>(alloc: Global, status: u32, error: &E) -> Failure
        ensures { HasNumbers (alone status) result }
    {
        let message = match format!(in alloc; "{error}") {
            Ok(message) => message,
            Err(_) => String::new(alloc),
        };
        Failure {
            status,
            line: 0,
            column: 0,
            offset: 0,
            message,
        }
    }

    /// An error with this cause at this position, and its message.
    pub fn rejected<E: Display>(
        alloc: Global,
        cause: &Cause,
        position: Option<Pos>,
        error: &E,
    ) -> Failure
        ensures { HasNumbers (numbers_at (status_of (cause_text cause.now)) (option_map place_of position)) result }
    {
        let failure = Failure::nowhere(alloc, status_of(cause), error);
        match position {
            Some(Pos { line, column }) => Failure {
                line,
                column,
                ..failure
            },
            None => failure,
        }
    }

    /// An error of a source, and its message.
    pub fn of_source(alloc: Global, source: &str, error: &CheckError) -> Failure
        ensures { HasNumbers (source_numbers error.now) result }
    {
        let message = match message(alloc, source, error) {
            Ok(message) => message,
            Err(_) => String::new(alloc),
        };
        let Place {
            offset,
            line,
            column,
        } = error_place(error);
        Failure {
            status: source_status(error),
            line,
            column,
            offset,
            message,
        }
    }

    /// The failure to format a document.
    pub fn no_layout(alloc: Global, error: &FormatError) -> Failure
        ensures { HasNumbers (alone (layout_status error.now)) result }
    {
        let status = match error {
            FormatError::TooWide => Status::TooWide as u32,
            FormatError::OutOfMemory => Status::OutOfMemory as u32,
        };
        Failure::nowhere(alloc, status, error)
    }

    /// The failure of an input that is not UTF-8.
    pub fn not_utf8(alloc: Global) -> Failure
        ensures { HasNumbers (alone status_not_utf8) result }
    {
        Failure::nowhere(alloc, Status::NotUtf8 as u32, &"text is not UTF-8")
    }

    /// The failure of an allocation.
    pub fn out_of_memory(alloc: Global) -> Failure
        ensures { HasNumbers (alone (status_of out_of_memory)) result }
    {
        Failure::nowhere(alloc, Status::OutOfMemory as u32, &"out of memory")
    }
}
