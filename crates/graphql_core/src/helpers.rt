//! Token sources with one token of lookahead, readers of single tokens, the room of lists, and the minifier.

mod cursor;
mod matching;
mod minify;
mod punctuator;
mod read_error;
mod sizes;
mod source;
mod span;
mod spans;

pub use cursor::Cursor;
pub use matching::{expect_keyword, expect_name, expect_punctuator, sees_keyword};
pub use minify::{is_spaced, minified, spaced_tokens_are_tokenized};
pub use punctuator::Punctuator;
pub use read_error::{ReadError, fault_of};
pub use sizes::{shrink_list, split_list};
pub use source::{Lexeme, TokenSource};
pub use span::{WIDE_TEXT, Width};
pub use spans::SpanSource;
