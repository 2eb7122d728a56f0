//! The words of the command line.

use std::alloc::{AllocError, Global};
use std::env::{Env, FillError};

/// What comes after the readable part of a word that is not UTF-8. No other word of a command line has it, and no name
/// of a file. So such a word can be given to `clap`, which takes only UTF-8, and names no file.
const MARK: char = '\0';

/// A word of these bytes. In one that is not UTF-8, U+FFFD takes the place of what is not, and a mark comes at the end.
fn word_of(alloc: Global, bytes: &[u8]) -> Result<String, AllocError> {
    match str::from_utf8(bytes) {
        Ok(text) => String::from_str(alloc, text),
        Err(_) => {
            let mut word = String::from_utf8_lossy(alloc, bytes)?;
            word.push(MARK)?;
            Ok(word)
        }
    }
}

/// The readable part of a word that is not UTF-8; `None` for any other word.
pub fn unreadable(word: &str) -> Option<&str> {
    word.strip_suffix(MARK)
}

/// The word with this index; `None` if there are fewer.
fn word<R: Env>(rt: &R, alloc: Global, index: usize) -> Result<Option<String>, AllocError> {
    // A word that does not fit is read again, into twice as many bytes.
    for bits in 8..usize::BITS {
        let mut bytes = Vec::new(alloc);
        bytes.resize(1usize << bits, 0u8)?;
        match rt.arg(index, bytes.as_mut_slice()) {
            Ok(len) => {
                bytes.truncate(len);
                return Ok(Some(word_of(alloc, &bytes)?));
            }
            Err(FillError::NotPresent) => return Ok(None),
            Err(FillError::TooLong) => {}
        }
    }
    Err(AllocError)
}

/// The words of the command line after the program's path, and before them the program's name. The path is not read.
pub fn words<R: Env>(rt: &R, alloc: Global) -> Result<Vec<String>, AllocError> {
    let mut words = Vec::new(alloc);
    words.push(String::from_str(alloc, "gqlfmt")?)?;
    for index in 1..usize::MAX {
        match word(rt, alloc, index)? {
            Some(word) => words.push(word)?,
            None => break,
        }
    }
    Ok(words)
}

/// Whether the next word is the value of this option, and no name of a file.
fn takes_value(option: &str) -> bool {
    matches!(
        option,
        "--indent" | "--width" | "--language" | "--message-format" | "--max-errors",
    )
}

/// The first option that is not UTF-8, or the first such value of an option that is no name: before a word `--`, a word
/// that begins with a dash, or that comes after an option which takes no name of a file.
pub fn unreadable_option(words: &[String]) -> Option<&str> {
    let mut is_value = false;
    for word in words {
        let word = word.as_str();
        if word == "--" {
            return None;
        }
        if (is_value || word.starts_with('-')) && unreadable(word).is_some() {
            return unreadable(word);
        }
        is_value = takes_value(word);
    }
    None
}
