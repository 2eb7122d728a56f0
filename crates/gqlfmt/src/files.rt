//! Files and folders.

mod read;
mod replace;
mod walk;
mod write;

pub use read::{Source, read_file, read_text};
pub use replace::replace_text;
pub use walk::{Found, find_files};
pub use write::write_text;
