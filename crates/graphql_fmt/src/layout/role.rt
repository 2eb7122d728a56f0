//! What a token is in, and its role there.

/// What a token is in.
#[derive(Clone, Copy, Debug, PartialEq, Eq)]
pub enum Enclosure {
    /// No brackets.
    Document,
    /// The braces of a selection set, of fields, enum values, input fields or root operations.
    Block,
    /// The parentheses of variables or argument definitions.
    Definitions,
    /// The parentheses of arguments.
    Arguments,
    /// The square brackets of a list value.
    List,
    /// The braces of an object value.
    Object,
    /// The square brackets of a list type.
    Type,
}

/// The role of a token in the layout.
#[derive(Clone, Copy, Debug, PartialEq, Eq)]
pub enum Role {
    /// It is inside an item, right after the token before.
    Tight,
    /// It is inside an item, after a space.
    Spaced,
    /// It begins an item: a definition, a selection, a field, an argument, a value of a list.
    Item,
    /// It begins what a description describes.
    Described,
    /// It begins a directive.
    Directive,
    /// It leads members: `implements`, the `=` of a union, or the `on` of a directive.
    Lead,
    /// It begins a member, with the separator before it: an interface, a type of a union, a location of a directive.
    Member,
    /// It opens the variables of an operation that has no name.
    Variables,
    /// It opens variables, argument definitions or arguments after a name.
    Arguments,
    /// It opens a selection set, or fields, enum values, input fields or root operations.
    Body,
    /// It is a closing bracket.
    End,
}
