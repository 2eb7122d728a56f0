//! The statuses of calls.

/// How a call ends. The numbers, from 0 on, are those of `enum graphql_proved_status` in `graphql_proved.h`.
#[derive(Clone, Copy)]
pub enum Status {
    /// The call succeeded.
    Ok,
    /// A lexical error other than `TooDeep`.
    BadToken,
    /// A token that is not allowed there.
    UnexpectedToken,
    /// The end of the input, where another token is required.
    UnexpectedEnd,
    /// An opening bracket where too many are open.
    TooDeep,
    /// An integer that does not fit an `i64`.
    IntOutOfRange,
    /// A float whose exponent is only a sign.
    MalformedFloat,
    /// An escape that denotes no character.
    BadEscape,
    /// A name that is no directive location.
    UnknownLocation,
    /// An operation that a schema names twice.
    DuplicateOperation,
    /// A name in a schema that is no operation.
    UnknownOperation,
    /// An extension that adds nothing.
    EmptyExtension,
    /// An input that is too long.
    TextTooLong,
    /// An allocation failed.
    OutOfMemory,
    /// An output that is too wide.
    TooWide,
    /// An input that is not UTF-8.
    NotUtf8,
    /// The buffer is too short for the output.
    BufferTooShort,
}
