//! The name of a status, and the version of the library.
ghost use Rattle.std.specs.Prelude.{◌≡◌};
ghost use Rattle.graphql_c.specs.{status_name, with_zeros};

use crate::call_result::put;

/// The name of a status as a C string.
#[repr(C)]
#[derive(Drop)]
pub struct StatusName {
    /// The name, and then zero bytes: at least one.
    pub text: [u8; 32],
}

/// The version of the library.
#[repr(C)]
#[derive(Drop)]
pub struct Version {
    /// The first number of the version.
    pub major: u32,
    /// The second number of the version.
    pub minor: u32,
    /// The third number of the version.
    pub patch: u32,
}

/// The name of the status with this number, which is empty if there is none.
fn name_of(status: u32) -> &'static str
    ensures { result.now ≡ status_name status }
{
    match status {
        0 => "OK",
        1 => "BAD_TOKEN",
        2 => "UNEXPECTED_TOKEN",
        3 => "UNEXPECTED_END",
        4 => "TOO_DEEP",
        5 => "INT_OUT_OF_RANGE",
        6 => "MALFORMED_FLOAT",
        7 => "BAD_ESCAPE",
        8 => "UNKNOWN_LOCATION",
        9 => "DUPLICATE_OPERATION",
        10 => "UNKNOWN_OPERATION",
        11 => "EMPTY_EXTENSION",
        12 => "TEXT_TOO_LONG",
        13 => "OUT_OF_MEMORY",
        14 => "TOO_WIDE",
        15 => "NOT_UTF8",
        16 => "BUFFER_TOO_SHORT",
        _ => "",
    }
}

/// The name of a status, with zero bytes after it.
pub fn status_name(status: u32) -> StatusName
    ensures { result.text ≡ with_zeros (status_name status) }
{
    let mut text = [0u8; 32];
    put(&mut text, name_of(status));
    StatusName { text }
}
