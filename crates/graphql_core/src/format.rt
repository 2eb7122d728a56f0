//! Formatting of trees.

mod buffer;
mod error;
mod place;
pub mod print;
mod sink;
mod style;

pub use buffer::Buffer;
pub use error::FormatError;
pub use sink::Sink;
pub use style::Style;
