//! Reading.
ghost use Rattle.std.specs.Prelude.{◌≡◌, IfOk, IfSome, string_bytes};

use crate::error::InputError;
use graphql_fmt::Place;
use std::alloc::Global;
use std::fs::{File, Metadata, OpenFile};
use std::io::Read;
use std::rt::Files;
use std::string::FromUtf8Error;

/// A file that was read.
#[derive(Drop)]
pub struct Source {
    /// The text of the file.
    pub text: String,
    /// The metadata from before the text was read.
    pub metadata: Metadata,
}

/// The place of the first byte that is not UTF-8.
fn place_of(error: &FromUtf8Error) -> Place {
    let len = error.utf8_error().valid_up_to();
    let before = error.as_bytes().get(..len).unwrap_or(&[]);
    Place::after(str::from_utf8(before).unwrap_or(""))
}

/// Reads a text to its end.
pub fn read_text<R: Read>(alloc: Global, reader: &mut R) -> Result<String, InputError>
    ensures { IfSome (R.remaining reader.old) (λ input. IfOk result (λ text. string_bytes text ≡ input)) }
{
    let mut bytes = Vec::new(alloc);
    reader.read_to_end(&mut bytes).map_err(InputError::Read)?;
    String::from_utf8(bytes).map_err(|error| InputError::NotUtf8(place_of(&error)))
}

/// Reads a file.
pub fn read_file<R: Files + AllocGlobal>(rt: &R, path: &str) -> Result<Source, InputError> {
    let mut file = File::open(rt, path).map_err(InputError::Read)?;
    let metadata = file.metadata().map_err(InputError::Read)?;
    let text = read_text(rt.alloc(), &mut file)?;
    Ok(Source { text, metadata })
}
