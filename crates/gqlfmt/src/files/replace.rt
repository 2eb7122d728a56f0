//! Rewriting a file, so that it has the old text or the new one at each moment.

use crate::error::InputError;
use crate::files::write_text;
use std::fs::{File, Metadata, OpenOptions};
use std::io::ErrorKind;
use std::os::fd::AsFd;
use std::os::unix::fs::{MetadataExt, OpenOptionsExt, fchown};
use std::rt::Files;
use std::{fs, io};

/// How many names are tried for the temporary file. `InputError::NoName` names them.
const TRIES: usize = 1000;

/// A new file in the folder of another file, which only its owner can read and write.
#[derive(Drop)]
struct Temporary {
    path: String,
    file: File,
}

/// Whether a file is still a regular file, with the same length and the same time of its last change of content.
fn has_same_content(before: &Metadata, now: &Metadata) -> bool {
    now.is_file()
        && before.len() == now.len()
        && (before.mtime(), before.mtime_nsec()) == (now.mtime(), now.mtime_nsec())
}

/// Whether nothing shows that a file has changed: it is the same file, with the same length and the same times.
fn is_same(before: &Metadata, now: &Metadata) -> bool {
    has_same_content(before, now)
        && before.dev() == now.dev()
        && before.ino() == now.ino()
        && (before.ctime(), before.ctime_nsec()) == (now.ctime(), now.ctime_nsec())
}

/// Fails if the file cannot be written, and does not change it.
fn check_writable<R: Files>(rt: &R, path: &str) -> io::Result<()> {
    OpenOptions::new().write(true).open(rt, path)?;
    Ok(())
}

/// Fails if a path leads to another file than this one, or if the file changed.
fn check_unchanged<R: Files>(rt: &R, path: &str, before: &Metadata) -> Result<(), InputError> {
    match fs::symlink_metadata(rt, path) {
        Ok(now) if is_same(before, &now) => Ok(()),
        Err(error) if error.kind() != ErrorKind::NotFound => Err(InputError::Write(error)),
        _ => Err(InputError::Changed),
    }
}

/// The metadata of a file after it was opened for writing. It fails if the content of the file changed.
///
/// On an overlay file system, opening a file for writing can copy it. Its other times, its device and its inode then
/// change.
fn after_opening<R: Files>(rt: &R, path: &str, before: &Metadata) -> Result<Metadata, InputError> {
    let now = fs::symlink_metadata(rt, path).map_err(InputError::Write)?;
    if has_same_content(before, &now) {
        Ok(now)
    } else {
        Err(InputError::Changed)
    }
}

/// Makes a new file beside the file with this path.
fn new_file_beside<R: Files<File = File> + AllocGlobal>(
    rt: &R,
    path: &str,
) -> Result<Temporary, InputError> {
    let folder = path.rsplit_once('/').map_or(".", |(folder, _)| folder);
    let mut options = OpenOptions::new();
    options.write(true).create_new(true).mode(0o600);
    for number in 0..TRIES {
        let path = format!(in rt.alloc(); "{folder}/.gqlfmt-{number}")?;
        match options.open(rt, path.as_str()) {
            Ok(file) => return Ok(Temporary { path, file }),
            Err(error) if error.kind() == ErrorKind::AlreadyExists => {}
            Err(error) => return Err(InputError::Write(error)),
        }
    }
    Err(InputError::NoName)
}

/// Gives a new file the owner and the group of an old one.
fn keep_owner(file: &File, old: &Metadata) -> io::Result<()> {
    let new = file.metadata()?;
    if new.uid() == old.uid() && new.gid() == old.gid() {
        return Ok(());
    }
    fchown(file.as_fd(), Some(old.uid()), Some(old.gid()))
}

/// Writes a text to a new file, with the owner, the group and the mode of an old one. Then it waits until the file is
/// on the disk.
fn fill(file: &mut File, text: &str, old: &Metadata) -> Result<(), InputError> {
    write_text(file, text).map_err(InputError::Write)?;
    keep_owner(file, old).map_err(InputError::Owner)?;
    // A change of the owner can clear bits of the mode, so the mode comes after it.
    file.set_permissions(old.permissions())
        .map_err(InputError::Write)?;
    file.sync_all().map_err(InputError::Write)
}

/// Puts a filled file in the place of the old one, if the old one has not changed.
fn put_in_place<R: Files>(
    rt: &R,
    temporary: &str,
    path: &str,
    old: &Metadata,
) -> Result<(), InputError> {
    check_unchanged(rt, path, old)?;
    fs::rename(rt, temporary, path).map_err(InputError::Write)
}

/// Replaces the text of a regular file that was read with this metadata: see `replace_text`.
fn replace_regular<R: Files<File = File> + AllocGlobal>(
    rt: &R,
    path: &str,
    old: &Metadata,
    text: &str,
) -> Result<(), InputError> {
    check_unchanged(rt, path, old)?;
    check_writable(rt, path).map_err(InputError::Write)?;
    let old = &after_opening(rt, path, old)?;
    let mut temporary = new_file_beside(rt, path)?;
    let filled = fill(&mut temporary.file, text, old);
    let replaced = filled.and_then(|()| put_in_place(rt, temporary.path.as_str(), path, old));
    if replaced.is_err() {
        let _ = fs::remove_file(rt, temporary.path.as_str());
    }
    replaced
}

/// Replaces the text of a file that was read with this metadata.
///
/// A symbolic link stays, and the file that it leads to is replaced. If anything fails, that file is as it was. A file
/// that someone else changed, moved or replaced since it was read also stays as it is. The last moment at which this
/// is noticed is just before the rename.
pub fn replace_text<R: Files<File = File> + AllocGlobal>(
    rt: &R,
    path: &str,
    old: &Metadata,
    text: &str,
) -> Result<(), InputError> {
    if !old.is_file() {
        return Err(InputError::NotRegular);
    }
    let entry = fs::symlink_metadata(rt, path).map_err(InputError::Write)?;
    if entry.is_symlink() {
        let target = fs::canonicalize(rt, path).map_err(InputError::Write)?;
        replace_regular(rt, target.as_str(), old, text)
    } else {
        replace_regular(rt, path, old, text)
    }
}
