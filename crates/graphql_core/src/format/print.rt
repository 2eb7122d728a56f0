//! Printers of values, types, arguments and directives.
mod block;
mod default;
mod directives;
mod display;
mod enclosed;
mod integers;
mod laws;
mod levels;
mod pretty;
mod quotes;
mod spaces;
mod strings;
mod types;
mod values;

pub use block::{has_block_lines, write_block};
pub use default::{levels_in_default, write_default};
pub use directives::{write_arguments, write_directives};
pub use laws::{brackets_are_those_of_layouts, worked_layouts};
pub use levels::{is_too_wide, levels_in_arguments, levels_in_directives, levels_in_string};
pub use pretty::{Pretty, fmt_in_default_style, levels_in_each, write_each, write_joined};
pub use quotes::write_quoted;
pub use spaces::write_spaces;
pub use strings::write_string;
pub use types::write_type;
pub use values::write_value;
