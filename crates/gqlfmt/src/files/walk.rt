//! The GraphQL files below a folder.

use crate::error::InputError;
use std::alloc::{AllocError, Global};
use std::fs;
use std::fs::DirEntry;
use std::io::ErrorKind;
use std::rt::Files;

/// How many folders are read in one another. Each takes two bytes of a path at least, and Linux takes no path of more
/// than 4,096 bytes.
const MAX_DEPTH: usize = 2048;

/// What is found at the path of an argument.
#[derive(Drop)]
pub struct Found {
    /// The paths of the files, in order.
    pub files: Vec<String>,
    /// The files and folders that could not be read, and why.
    pub faults: Vec<(String, InputError)>,
}

impl Found {
    fn new(alloc: Global) -> Self {
        Found {
            files: Vec::new(alloc),
            faults: Vec::new(alloc),
        }
    }

    fn fail(&mut self, alloc: Global, path: &str, error: InputError) -> Result<(), AllocError> {
        self.faults.push((String::from_str(alloc, path)?, error))?;
        Ok(())
    }
}

/// Whether a file with this name is formatted if it is in a folder.
fn is_graphql(name: &str) -> bool {
    name.ends_with(".graphql") || name.ends_with(".graphqls") || name.ends_with(".gql")
}

/// Whether a file or a folder with this name is left out if it is in a folder: if it is hidden, or has packages of npm.
fn is_left_out(name: &str) -> bool {
    name.starts_with('.') || name == "node_modules"
}

/// Adds an entry of a folder: a file to those found, and a folder to those below.
fn add_entry<R: Files + AllocGlobal>(
    alloc: Global,
    entry: &DirEntry<R>,
    found: &mut Found,
    below: &mut Vec<String>,
) -> Result<(), AllocError> {
    let name = entry.file_name();
    if is_left_out(name) {
        return Ok(());
    }
    let path = entry.path();
    match entry.file_type() {
        Ok(kind) if kind.is_dir() => below.push(String::from_str(alloc, path.as_str())?)?,
        Ok(kind) if kind.is_file() && is_graphql(name) => {
            found.files.push(String::from_str(alloc, path.as_str())?)?;
        }
        Ok(_) => {}
        // It was removed in the meantime.
        Err(error) if error.kind() == ErrorKind::NotFound => {}
        Err(error) => found.fail(alloc, path.as_str(), InputError::Read(error))?,
    }
    Ok(())
}

/// Adds the entries of a folder.
fn add_entries<R: Files + AllocGlobal + Clone + Drop>(
    rt: &R,
    folder: &str,
    found: &mut Found,
    below: &mut Vec<String>,
) -> Result<(), AllocError> {
    let entries = match fs::read_dir(rt, folder) {
        Ok(entries) => entries,
        // It was removed in the meantime.
        Err(error) if error.kind() == ErrorKind::NotFound => return Ok(()),
        Err(error) => return found.fail(rt.alloc(), folder, InputError::Read(error)),
    };
    for entry in entries {
        match entry {
            Ok(entry) => add_entry(rt.alloc(), &entry, found, below)?,
            Err(error) if error.kind() == ErrorKind::InvalidFilename => {
                found.fail(rt.alloc(), folder, InputError::EntryName)?;
            }
            Err(error) => found.fail(rt.alloc(), folder, InputError::Read(error))?,
        }
    }
    Ok(())
}

/// Adds the entries of these folders. Returns the folders that are in them.
fn read_level<R: Files + AllocGlobal + Clone + Drop>(
    rt: &R,
    folders: &[String],
    found: &mut Found,
) -> Result<Vec<String>, AllocError> {
    let mut below = Vec::new(rt.alloc());
    for folder in folders {
        add_entries(rt, folder.as_str(), found, &mut below)?;
    }
    Ok(below)
}

/// Adds the entries of a folder and of all folders below it, one level after another.
fn walk<R: Files + AllocGlobal + Clone + Drop>(
    rt: &R,
    folder: &str,
    found: &mut Found,
) -> Result<(), AllocError> {
    let mut level = vec![in rt.alloc(); String::from_str(rt.alloc(), folder)?]?;
    for _ in 0..MAX_DEPTH {
        level = read_level(rt, &level, found)?;
        if level.is_empty() {
            return Ok(());
        }
    }
    found.fail(rt.alloc(), folder, InputError::TooDeep)
}

/// The file with this path, or the GraphQL files below the folder with this path.
///
/// In a folder, names that begin with a dot, `node_modules` and symbolic links are left out. A name that is not UTF-8
/// is an error.
pub fn find_files<R: Files + AllocGlobal + Clone + Drop>(
    rt: &R,
    path: &str,
) -> Result<Found, AllocError> {
    let mut found = Found::new(rt.alloc());
    match fs::metadata(rt, path) {
        Ok(metadata) if metadata.is_dir() => {
            walk(rt, path, &mut found)?;
            found.files.sort_unstable();
        }
        Ok(_) => found.files.push(String::from_str(rt.alloc(), path)?)?,
        Err(error) => found.fail(rt.alloc(), path, InputError::Read(error))?,
    }
    Ok(found)
}
