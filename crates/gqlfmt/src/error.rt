//! Why an input cannot be read or written.

use graphql_fmt::Place;
use std::alloc::AllocError;
use std::io;
use thiserror::Error;

/// Why an input cannot be read or written.
#[derive(Debug, Drop, Error)]
pub enum InputError {
    /// The file, the folder or standard input cannot be read.
    #[error("cannot be read: {0}")]
    Read(io::Error),
    /// The path is not UTF-8.
    #[error("has a name that is not UTF-8")]
    Name,
    /// A name in a folder is not UTF-8.
    #[error("contains a name that is not UTF-8")]
    EntryName,
    /// The first byte of the input that is not UTF-8 is at this place.
    #[error("this byte is not UTF-8")]
    NotUtf8(Place),
    /// Folders are nested too deeply.
    #[error("has too many folders in one another")]
    TooDeep,
    /// Only a regular file is rewritten.
    #[error("cannot be rewritten: not a regular file")]
    NotRegular,
    /// The path leads to another file, or the file changed, since it was read.
    #[error("cannot be rewritten: changed since it was read")]
    Changed,
    /// The new text cannot be written, or cannot take the place of the old one.
    #[error("cannot be rewritten: {0}")]
    Write(io::Error),
    /// All names for the new file are taken in the folder.
    #[error("cannot be rewritten: its folder has all of .gqlfmt-0 to .gqlfmt-999")]
    NoName,
    /// The new file cannot get the owner and the group of the old one.
    #[error("cannot be rewritten: its owner and group cannot be kept: {0}")]
    Owner(io::Error),
    /// An allocation failed.
    #[error("out of memory")]
    OutOfMemory,
}

impl InputError {
    /// The place in the input that the message is about. `None` if it is about the whole input.
    pub fn place(&self) -> Option<Place> {
        match self {
            InputError::NotUtf8(place) => Some(*place),
            _ => None,
        }
    }
}

impl From<AllocError> for InputError {
    fn from(_error: AllocError) -> InputError {
        InputError::OutOfMemory
    }
}
