//! Directives, arguments, values and type references (sections Arguments, Input Values, Type References, Directives).

use super::{Group, Row, Rule, Symbol};
use crate::terminal::Terminal;

/// An argument, and more of them.
const ARGUMENT_RULES: &[Rule] = &[(
    Group::Name,
    &[Symbol::Colon, Symbol::Value, Symbol::MoreArguments],
)];

/// An argument without variables, and more of them.
const CONST_ARGUMENT_RULES: &[Rule] = &[(
    Group::Name,
    &[
        Symbol::Colon,
        Symbol::ConstValue,
        Symbol::MoreConstArguments,
    ],
)];

/// Directives, or none.
pub(super) const DIRECTIVES: Row = Row {
    is_optional: true,
    own: &[(
        Group::Is(Terminal::At),
        &[Symbol::Name, Symbol::Arguments, Symbol::MoreDirectives],
    )],
    shared: &[],
};

/// More directives, or none.
pub(super) const MORE_DIRECTIVES: Row = Row {
    is_optional: true,
    own: &[(
        Group::Is(Terminal::At),
        &[Symbol::Name, Symbol::Arguments, Symbol::MoreDirectives],
    )],
    shared: &[],
};

/// Directives without variables, or none.
pub(super) const CONST_DIRECTIVES: Row = Row {
    is_optional: true,
    own: &[(
        Group::Is(Terminal::At),
        &[
            Symbol::Name,
            Symbol::ConstArguments,
            Symbol::MoreConstDirectives,
        ],
    )],
    shared: &[],
};

/// More directives without variables, or none.
pub(super) const MORE_CONST_DIRECTIVES: Row = Row {
    is_optional: true,
    own: &[(
        Group::Is(Terminal::At),
        &[
            Symbol::Name,
            Symbol::ConstArguments,
            Symbol::MoreConstDirectives,
        ],
    )],
    shared: &[],
};

/// One or more directives without variables.
pub(super) const SOME_CONST_DIRECTIVES: Row = Row {
    is_optional: false,
    own: &[(
        Group::Is(Terminal::At),
        &[
            Symbol::Name,
            Symbol::ConstArguments,
            Symbol::MoreConstDirectives,
        ],
    )],
    shared: &[],
};

/// Arguments in parentheses, or none.
pub(super) const ARGUMENTS: Row = Row {
    is_optional: true,
    own: &[(Group::Is(Terminal::OpenParen), &[Symbol::FirstArgument])],
    shared: &[],
};

/// One or more arguments, and `)`.
pub(super) const FIRST_ARGUMENT: Row = Row {
    is_optional: false,
    own: &[],
    shared: ARGUMENT_RULES,
};

/// More arguments, or none, and `)`.
pub(super) const MORE_ARGUMENTS: Row = Row {
    is_optional: false,
    own: &[(Group::Is(Terminal::CloseParen), &[])],
    shared: ARGUMENT_RULES,
};

/// Arguments without variables in parentheses, or none.
pub(super) const CONST_ARGUMENTS: Row = Row {
    is_optional: true,
    own: &[(
        Group::Is(Terminal::OpenParen),
        &[Symbol::FirstConstArgument],
    )],
    shared: &[],
};

/// One or more arguments without variables, and `)`.
pub(super) const FIRST_CONST_ARGUMENT: Row = Row {
    is_optional: false,
    own: &[],
    shared: CONST_ARGUMENT_RULES,
};

/// More arguments without variables, or none, and `)`.
pub(super) const MORE_CONST_ARGUMENTS: Row = Row {
    is_optional: false,
    own: &[(Group::Is(Terminal::CloseParen), &[])],
    shared: CONST_ARGUMENT_RULES,
};

/// A value.
pub(super) const VALUE: Row = Row {
    is_optional: false,
    own: &[
        (Group::Is(Terminal::Dollar), &[Symbol::Name]),
        (Group::Name, &[]),
        (Group::Number, &[]),
        (Group::StringValue, &[]),
        (Group::Is(Terminal::OpenBracket), &[Symbol::MoreValues]),
        (Group::Is(Terminal::OpenBrace), &[Symbol::MoreObjectFields]),
    ],
    shared: &[],
};

/// More values of a list, or none, and `]`.
pub(super) const MORE_VALUES: Row = Row {
    is_optional: false,
    own: &[
        (Group::Is(Terminal::CloseBracket), &[]),
        (
            Group::Is(Terminal::Dollar),
            &[Symbol::Name, Symbol::MoreValues],
        ),
        (Group::Name, &[Symbol::MoreValues]),
        (Group::Number, &[Symbol::MoreValues]),
        (Group::StringValue, &[Symbol::MoreValues]),
        (
            Group::Is(Terminal::OpenBracket),
            &[Symbol::MoreValues, Symbol::MoreValues],
        ),
        (
            Group::Is(Terminal::OpenBrace),
            &[Symbol::MoreObjectFields, Symbol::MoreValues],
        ),
    ],
    shared: &[],
};

/// More fields of an input object, or none, and `}`.
pub(super) const MORE_OBJECT_FIELDS: Row = Row {
    is_optional: false,
    own: &[
        (Group::Is(Terminal::CloseBrace), &[]),
        (
            Group::Name,
            &[Symbol::Colon, Symbol::Value, Symbol::MoreObjectFields],
        ),
    ],
    shared: &[],
};

/// A value without variables.
pub(super) const CONST_VALUE: Row = Row {
    is_optional: false,
    own: &[
        (Group::Name, &[]),
        (Group::Number, &[]),
        (Group::StringValue, &[]),
        (Group::Is(Terminal::OpenBracket), &[Symbol::MoreConstValues]),
        (
            Group::Is(Terminal::OpenBrace),
            &[Symbol::MoreConstObjectFields],
        ),
    ],
    shared: &[],
};

/// More values without variables, or none, and `]`.
pub(super) const MORE_CONST_VALUES: Row = Row {
    is_optional: false,
    own: &[
        (Group::Is(Terminal::CloseBracket), &[]),
        (Group::Name, &[Symbol::MoreConstValues]),
        (Group::Number, &[Symbol::MoreConstValues]),
        (Group::StringValue, &[Symbol::MoreConstValues]),
        (
            Group::Is(Terminal::OpenBracket),
            &[Symbol::MoreConstValues, Symbol::MoreConstValues],
        ),
        (
            Group::Is(Terminal::OpenBrace),
            &[Symbol::MoreConstObjectFields, Symbol::MoreConstValues],
        ),
    ],
    shared: &[],
};

/// More fields without variables, or none, and `}`.
pub(super) const MORE_CONST_OBJECT_FIELDS: Row = Row {
    is_optional: false,
    own: &[
        (Group::Is(Terminal::CloseBrace), &[]),
        (
            Group::Name,
            &[
                Symbol::Colon,
                Symbol::ConstValue,
                Symbol::MoreConstObjectFields,
            ],
        ),
    ],
    shared: &[],
};

/// A type reference.
pub(super) const TYPE: Row = Row {
    is_optional: false,
    own: &[
        (Group::Name, &[Symbol::NonNull]),
        (
            Group::Is(Terminal::OpenBracket),
            &[Symbol::Type, Symbol::CloseBracket, Symbol::NonNull],
        ),
    ],
    shared: &[],
};

/// `!`, or nothing.
pub(super) const NON_NULL: Row = Row {
    is_optional: true,
    own: &[(Group::Is(Terminal::Bang), &[])],
    shared: &[],
};

/// A default value, or none.
pub(super) const DEFAULT_VALUE: Row = Row {
    is_optional: true,
    own: &[(Group::Is(Terminal::Equals), &[Symbol::ConstValue])],
    shared: &[],
};
