//! The result of a call, and what the call writes into the caller's buffer.
ghost use Rattle.std.specs.Prelude.{◌≡◌, length, string_bytes, nat_le, MatchResult};
ghost use Rattle.graphql_c.specs.{put, for_output, Writes, Finds, IsResultOf};

use crate::failure::Failure;
use crate::status::Status;

/// The result of a call. A length or an offset that the call does not return is 0.
#[repr(C)]
#[derive(Drop)]
pub struct CallResult {
    /// 0 if the call succeeded, otherwise the number of the error.
    pub status: u32,
    /// The length of the output in bytes, also if the buffer is too short for it.
    pub output_length: usize,
    /// The length of the message in bytes.
    pub message_length: usize,
    /// The offset in bytes at which the rest begins, after the first definition and the ignored text behind it; or that
    /// of an error of a source.
    pub offset: usize,
    /// The line of the error, from 1; 0 if the error has no position.
    pub line: usize,
    /// The column of the error in characters, from 1; 0 if the error has no position. A tab counts 1 in an error of a
    /// source, otherwise 8 between tokens.
    pub column: usize,
}

/// Copies a string to the beginning of a buffer if it fits, and returns whether it does.
pub fn put(out: &mut [u8], text: &str) -> bool
    ensures fits { result ≡ nat_le (length text.now) (length out.old) }
    ensures put { out.new ≡ put text.now out.old }
{
    if text.len() > out.len() {
        return false;
    }
    out.split_at_mut(text.len())
        .0
        .copy_from_slice(text.as_bytes());
    true
}

/// The result for an output of this length.
fn for_output(status: u32, length: usize) -> CallResult
    ensures { result ≡ for_output status length }
{
    CallResult {
        status,
        output_length: length,
        message_length: 0,
        offset: 0,
        line: 0,
        column: 0,
    }
}

/// The result for an output, which is written if it fits.
fn written(out: &mut [u8], output: &str) -> CallResult
    ensures { Writes (λ text. text ≡ output.now) out.old out.new result }
{
    if put(out, output) {
        for_output(Status::Ok as u32, output.len())
    } else {
        for_output(Status::BufferTooShort as u32, output.len())
    }
}

/// The result for a failure, whose message is written if it fits.
fn failed(out: &mut [u8], failure: Failure) -> CallResult
    ensures { IsResultOf failure out.old out.new result }
{
    let Failure {
        status,
        line,
        column,
        offset,
        message,
    } = failure;
    put(out, &message);
    CallResult {
        status,
        output_length: 0,
        message_length: message.len(),
        offset,
        line,
        column,
    }
}

/// The result for an output, or for the failure to make one.
pub fn of_output(out: &mut [u8], made: Result<String, Failure>) -> CallResult
    ensures { MatchResult made (λ s. Writes (λ text. text ≡ string_bytes s) out.old out.new result)
        (λ f. IsResultOf f out.old out.new result) }
{
    match made {
        Ok(output) => written(out, &output),
        Err(failure) => failed(out, failure),
    }
}

/// The result for an offset, or for the failure to find one.
pub fn of_offset(out: &mut [u8], found: Result<usize, Failure>) -> CallResult
    ensures { MatchResult found (λ n. Finds (λ offset. offset ≡ n) out.old out.new result)
        (λ f. IsResultOf f out.old out.new result) }
{
    match found {
        Ok(offset) => CallResult {
            status: Status::Ok as u32,
            output_length: 0,
            message_length: 0,
            offset,
            line: 0,
            column: 0,
        },
        Err(failure) => failed(out, failure),
    }
}
