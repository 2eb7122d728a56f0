//! The engine: it reads all of the input, and then writes all of the output.
ghost use Rattle.std.specs.Prelude.{◌≡◌, ◌≢◌, ◌++◌, List, [], ◌∷◌, ℕ, Err, string_bytes, MatchResult, OnOk, IfOk};
ghost use Rattle.std.specs.Prelude.{IfErr};
ghost use Rattle.std.specs.Str.{IsUtf8};
ghost use Rattle.std.specs.Io.KnownBytes.{Keeps, Appends, Consumes, IsAtEnd};
ghost use Rattle.graphql_core.specs.{ParseFailure, ParsesDocument};
ghost use Rattle.graphql_query.specs.{queries};
ghost use Rattle.graphql_schema.specs.{schemas};
ghost use Rattle.gql.specs.{HasFault, IsOutputOf, HasNoQuery, HasNoSchema, HasLexicalError, RejectsFormat, ReadsAll};
ghost use Rattle.gql.specs.{EndsReading, EndsEngine, WritesPart, ReadsText};
ghost use Rattle.graphql_query.specs as query_specs;
ghost use Rattle.graphql_schema.specs as schema_specs;

use crate::command::Command;
use crate::counted::Counted;
use crate::error::RunError;
use graphql_parser::common::MAX_LENGTH;
use graphql_parser::query::{consume_definition, parse_query_from};
use graphql_parser::schema::parse_schema_from;
use graphql_parser::tokenizer::TokenStream;
use graphql_parser::{FormatError, Style, minify_query, parse_query, parse_schema, query, schema};
use std::alloc::Global;
use std::io::{Read, Write};
use std::mem::forget;

/// Reads all that the reader has left.
fn read_all<R: Read>(alloc: Global, reader: &mut Counted<R>) -> Result<Vec<u8>, RunError>
    ensures bytes { IfOk result
        (λ v. Consumes (R.remaining reader.old.device) (R.remaining reader.new.device) v.items) }
    ensures end { OnOk result (IsAtEnd (R.remaining reader.new.device)) }
    ensures faults { result ≢ Err RunError.Read → reader.new.faults ≡ reader.old.faults }
    ensures err { IfErr result (EndsReading reader.old.faults reader.new.faults) }
{
    let mut bytes = Vec::new(alloc);
    let mut piece = [0u8; 8192];
    'pieces: for _ in 0..u64::MAX {
        match reader.read(&mut piece).map_err(|_| RunError::Read)? {
            0 => return Ok(bytes),
            count => bytes.extend_from_slice(&piece[..count])?,
        }
    }
    // Each piece has a byte, and no vector takes `u64::MAX` bytes.
    unreachable!()
}

/// Writes these bytes, and then flushes.
fn write_all<W: Write>(writer: &mut Counted<W>, bytes: &[u8]) -> Result<(), RunError>
    ensures ok { OnOk result (Appends (W.contents writer.old.device) (W.contents writer.new.device) bytes.now) }
    ensures faults { OnOk result (writer.new.faults ≡ writer.old.faults) }
    ensures err { IfErr result (λ e. (e ≡ RunError.Write) × HasFault writer.old.faults writer.new.faults
        × WritesPart (W.contents writer.old.device) (W.contents writer.new.device) bytes.now) }
{
    let mut rest = bytes;
    'pieces: for _ in 0..u64::MAX {
        if rest.is_empty() {
            return writer.flush().map_err(|_| RunError::Write);
        }
        match writer.write(rest).map_err(|_| RunError::Write)? {
            0 => return Err(RunError::Write),
            count => rest = rest.split_at(count).1,
        }
    }
    // Each piece has a byte, and `bytes` has fewer than `u64::MAX`.
    unreachable!()
}

/// Parses an input as a query document. The tokens come from a stream, which keeps none of them. A list of the tokens
/// of a large input takes more time and memory.
fn parsed_query(alloc: Global, text: &str) -> Result<query::Document<'_, &str>, query::ParseError>
    ensures parses { ParsesDocument queries (query_specs.document_view (λ name. name.now)) text.now result }
{
    if text.len() > MAX_LENGTH {
        return parse_query(alloc, text);
    }
    let mut stream = TokenStream::new(text);
    parse_query_from(alloc, &mut stream)
}

/// Parses an input as a schema document, in the same way.
fn parsed_schema(
    alloc: Global,
    text: &str,
) -> Result<schema::Document<'_, &str>, schema::ParseError>
    ensures parses { ParsesDocument schemas (schema_specs.document_view (λ name. name.now)) text.now result }
{
    if text.len() > MAX_LENGTH {
        return parse_schema(alloc, text);
    }
    let mut stream = TokenStream::new(text);
    parse_schema_from(alloc, &mut stream)
}

/// Parses an input as a query document, and formats it. The document is not dropped, because the program ends soon and
/// the drop takes a quarter of its time.
fn format_query(alloc: Global, style: &Style, text: &str) -> Result<String, RunError>
    ensures { MatchResult result (λ s. IsOutputOf Command.Query style.now text.now (string_bytes s))
        (EndsEngine Command.Query style.now text.now) }
{
    match parsed_query(alloc, text) {
        Ok(document) => {
            let output = document.format(alloc, style).map_err(RunError::Format);
            forget(document);
            output
        }
        Err(error) => Err(RunError::Query(error)),
    }
}

/// Parses an input as a schema document, and formats it. The document is not dropped, as in `format_query`.
fn format_schema(alloc: Global, style: &Style, text: &str) -> Result<String, RunError>
    ensures { MatchResult result (λ s. IsOutputOf Command.Schema style.now text.now (string_bytes s))
        (EndsEngine Command.Schema style.now text.now) }
{
    match parsed_schema(alloc, text) {
        Ok(document) => {
            let output = document.format(alloc, style).map_err(RunError::Format);
            forget(document);
            output
        }
        Err(error) => Err(RunError::Schema(error)),
    }
}

/// Minifies an input. The style is ignored.
fn minified(alloc: Global, style: &Style, text: String) -> Result<String, RunError>
    ensures { MatchResult result (λ s. IsOutputOf Command.Minify style.now (string_bytes text) (string_bytes s))
        (EndsEngine Command.Minify style.now (string_bytes text)) }
{
    let _ = style;
    minify_query(alloc, text).map_err(RunError::Minify)
}

/// A document with this definition alone. Nothing is formatted here, so out of memory is an error of the engine.
fn alone<'a>(
    alloc: Global,
    definition: query::Definition<'a, &'a str>,
) -> Result<query::Document<'a, &'a str>, RunError>
    ensures ok { IfOk result (λ d. d.definitions.items ≡ definition.entry ∷ []) }
    ensures err { IfErr result (λ e. e ≡ RunError.OutOfMemory) }
{
    match vec![in alloc; definition] {
        Ok(definitions) => Ok(query::Document { definitions }),
        Err(_) => Err(RunError::OutOfMemory),
    }
}

/// An output followed by the rest of the input. Out of memory is an error of the engine here also.
fn with_rest(mut output: String, rest: &str) -> Result<String, RunError>
    ensures ok { IfOk result (λ s. string_bytes s ≡ string_bytes output ++ rest.now) }
    ensures err { IfErr result (λ e. e ≡ RunError.OutOfMemory) }
{
    output.push_str(rest)?;
    Ok(output)
}

/// Formats the first definition of an input as a document, and appends the rest of the input unchanged.
fn format_first(alloc: Global, style: &Style, text: &str) -> Result<String, RunError>
    ensures { MatchResult result (λ s. IsOutputOf Command.First style.now text.now (string_bytes s))
        (EndsEngine Command.First style.now text.now) }
{
    let (definition, rest) = consume_definition::<&str>(alloc, text).map_err(RunError::Query)?;
    let document = alone(alloc, definition)?;
    let output = document.format(alloc, style).map_err(RunError::Format)?;
    with_rest(output, rest)
}

/// The output of a command for an input.
fn output_of(
    alloc: Global,
    command: Command,
    style: &Style,
    text: String,
) -> Result<String, RunError>
    ensures { MatchResult result (λ s. IsOutputOf command style.now (string_bytes text) (string_bytes s))
        (EndsEngine command style.now (string_bytes text)) }
{
    match command {
        Command::Query => format_query(alloc, style, &text),
        Command::Schema => format_schema(alloc, style, &text),
        Command::Minify => minified(alloc, style, text),
        Command::First => format_first(alloc, style, &text),
    }
}

/// Reads the input to its end, and writes the output of the command. `RunError` lists the errors.
///
/// The tree of a document is not dropped, so its memory is not freed. A program calls this once and ends.
pub fn run<R: Read, W: Write>(
    alloc: Global,
    command: Command,
    style: &Style,
    reader: &mut Counted<R>,
    writer: &mut Counted<W>,
) -> Result<(), RunError>
    // The reader was read to its end, and the output of the command for that input was written. The input is UTF-8, of
    // at most `MAX_LENGTH` bytes, and what is formatted is not too wide.
    ensures ok { OnOk result (ReadsText (R.remaining reader.old.device) (R.remaining reader.new.device)
        (λ input. (output : List ℕ) × IsOutputOf command style.now input output
        × Appends (W.contents writer.old.device) (W.contents writer.new.device) output)) }
    ensures read { result ≡ Err RunError.Read → HasFault reader.old.faults reader.new.faults }
    ensures not_utf8 { result ≡ Err RunError.NotUtf8
        → ReadsAll (R.remaining reader.old.device) (R.remaining reader.new.device) (λ input. ¬ IsUtf8 input) }
    ensures query { (e : ParseFailure) → result ≡ Err (RunError.Query e)
        → ReadsText (R.remaining reader.old.device) (R.remaining reader.new.device)
        (λ input. HasNoQuery command input e) }
    ensures schema { (e : ParseFailure) → result ≡ Err (RunError.Schema e)
        → ReadsText (R.remaining reader.old.device) (R.remaining reader.new.device)
        (λ input. HasNoSchema command input e) }
    ensures minify { (e : ParseFailure) → result ≡ Err (RunError.Minify e)
        → ReadsText (R.remaining reader.old.device) (R.remaining reader.new.device)
        (λ input. HasLexicalError command input e) }
    ensures format { (e : FormatError) → result ≡ Err (RunError.Format e)
        → ReadsText (R.remaining reader.old.device) (R.remaining reader.new.device)
        (λ input. RejectsFormat command style.now input e) }
    // The reader reports a failure only if the run returns `Read`, and the writer only if the run returns `Write`.
    ensures reader_faults { result ≢ Err RunError.Read → reader.new.faults ≡ reader.old.faults }
    ensures writer_faults { result ≢ Err RunError.Write → writer.new.faults ≡ writer.old.faults }
    // Only a run that returns `Write` can leave a part of the output written.
    ensures untouched { IfErr result
        (λ e. e ≢ RunError.Write → Keeps (W.contents writer.old.device) (W.contents writer.new.device)) }
    ensures write { result ≡ Err RunError.Write → HasFault writer.old.faults writer.new.faults
        × ReadsText (R.remaining reader.old.device) (R.remaining reader.new.device)
        (λ input. (output : List ℕ) × IsOutputOf command style.now input output
        × WritesPart (W.contents writer.old.device) (W.contents writer.new.device) output) }
{
    let bytes = read_all(alloc, reader)?;
    let text = String::from_utf8(bytes).map_err(|_| RunError::NotUtf8)?;
    let output = output_of(alloc, command, style, text)?;
    write_all(writer, output.as_bytes())
}
