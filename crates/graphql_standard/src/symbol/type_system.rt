//! The parts of type system definitions (section Type System).

use super::{Group, Row, Rule, Symbol};
use crate::terminal::Terminal;

/// A root operation type, and more of them.
const ROOT_OPERATION_TYPE_RULES: &[Rule] = &[
    (
        Group::Is(Terminal::Query),
        &[Symbol::Colon, Symbol::Name, Symbol::MoreRootOperationTypes],
    ),
    (
        Group::Is(Terminal::Mutation),
        &[Symbol::Colon, Symbol::Name, Symbol::MoreRootOperationTypes],
    ),
    (
        Group::Is(Terminal::Subscription),
        &[Symbol::Colon, Symbol::Name, Symbol::MoreRootOperationTypes],
    ),
];

/// A field definition, and more of them.
const FIELD_DEFINITION_RULES: &[Rule] = &[
    (
        Group::StringValue,
        &[
            Symbol::Name,
            Symbol::ArgumentsDefinition,
            Symbol::Colon,
            Symbol::Type,
            Symbol::ConstDirectives,
            Symbol::MoreFieldDefinitions,
        ],
    ),
    (
        Group::Name,
        &[
            Symbol::ArgumentsDefinition,
            Symbol::Colon,
            Symbol::Type,
            Symbol::ConstDirectives,
            Symbol::MoreFieldDefinitions,
        ],
    ),
];

/// An argument definition, and more of them.
const ARGUMENT_DEFINITION_RULES: &[Rule] = &[
    (
        Group::StringValue,
        &[
            Symbol::Name,
            Symbol::Colon,
            Symbol::Type,
            Symbol::DefaultValue,
            Symbol::ConstDirectives,
            Symbol::MoreArgumentDefinitions,
        ],
    ),
    (
        Group::Name,
        &[
            Symbol::Colon,
            Symbol::Type,
            Symbol::DefaultValue,
            Symbol::ConstDirectives,
            Symbol::MoreArgumentDefinitions,
        ],
    ),
];

/// An input field, and more of them.
const INPUT_FIELD_RULES: &[Rule] = &[
    (
        Group::StringValue,
        &[
            Symbol::Name,
            Symbol::Colon,
            Symbol::Type,
            Symbol::DefaultValue,
            Symbol::ConstDirectives,
            Symbol::MoreInputFields,
        ],
    ),
    (
        Group::Name,
        &[
            Symbol::Colon,
            Symbol::Type,
            Symbol::DefaultValue,
            Symbol::ConstDirectives,
            Symbol::MoreInputFields,
        ],
    ),
];

/// An enum value definition, and more of them.
const ENUM_VALUE_RULES: &[Rule] = &[
    (
        Group::StringValue,
        &[
            Symbol::EnumValue,
            Symbol::ConstDirectives,
            Symbol::MoreEnumValues,
        ],
    ),
    (
        Group::EnumValue,
        &[Symbol::ConstDirectives, Symbol::MoreEnumValues],
    ),
];

/// Root operation types in braces.
pub(super) const ROOT_OPERATION_TYPES: Row = Row {
    is_optional: false,
    own: &[(
        Group::Is(Terminal::OpenBrace),
        &[Symbol::FirstRootOperationType],
    )],
    shared: &[],
};

/// One or more root operation types, and `}`.
pub(super) const FIRST_ROOT_OPERATION_TYPE: Row = Row {
    is_optional: false,
    own: &[],
    shared: ROOT_OPERATION_TYPE_RULES,
};

/// More root operation types, or none, and `}`.
pub(super) const MORE_ROOT_OPERATION_TYPES: Row = Row {
    is_optional: false,
    own: &[(Group::Is(Terminal::CloseBrace), &[])],
    shared: ROOT_OPERATION_TYPE_RULES,
};

/// Implemented interfaces, or none.
pub(super) const IMPLEMENTS_INTERFACES: Row = Row {
    is_optional: true,
    own: &[(Group::Is(Terminal::Implements), &[Symbol::FirstInterface])],
    shared: &[],
};

/// What comes after `implements`.
pub(super) const FIRST_INTERFACE: Row = Row {
    is_optional: false,
    own: &[
        (
            Group::Is(Terminal::Ampersand),
            &[Symbol::Name, Symbol::MoreInterfaces],
        ),
        (Group::Name, &[Symbol::MoreInterfaces]),
    ],
    shared: &[],
};

/// More interfaces, each after `&`, or none.
pub(super) const MORE_INTERFACES: Row = Row {
    is_optional: true,
    own: &[(
        Group::Is(Terminal::Ampersand),
        &[Symbol::Name, Symbol::MoreInterfaces],
    )],
    shared: &[],
};

/// One or more field definitions, and `}`.
pub(super) const FIRST_FIELD_DEFINITION: Row = Row {
    is_optional: false,
    own: &[],
    shared: FIELD_DEFINITION_RULES,
};

/// More field definitions, or none, and `}`.
pub(super) const MORE_FIELD_DEFINITIONS: Row = Row {
    is_optional: false,
    own: &[(Group::Is(Terminal::CloseBrace), &[])],
    shared: FIELD_DEFINITION_RULES,
};

/// Argument definitions in parentheses, or none.
pub(super) const ARGUMENTS_DEFINITION: Row = Row {
    is_optional: true,
    own: &[(
        Group::Is(Terminal::OpenParen),
        &[Symbol::FirstArgumentDefinition],
    )],
    shared: &[],
};

/// One or more argument definitions, and `)`.
pub(super) const FIRST_ARGUMENT_DEFINITION: Row = Row {
    is_optional: false,
    own: &[],
    shared: ARGUMENT_DEFINITION_RULES,
};

/// More argument definitions, or none, and `)`.
pub(super) const MORE_ARGUMENT_DEFINITIONS: Row = Row {
    is_optional: false,
    own: &[(Group::Is(Terminal::CloseParen), &[])],
    shared: ARGUMENT_DEFINITION_RULES,
};

/// One or more input fields, and `}`.
pub(super) const FIRST_INPUT_FIELD: Row = Row {
    is_optional: false,
    own: &[],
    shared: INPUT_FIELD_RULES,
};

/// More input fields, or none, and `}`.
pub(super) const MORE_INPUT_FIELDS: Row = Row {
    is_optional: false,
    own: &[(Group::Is(Terminal::CloseBrace), &[])],
    shared: INPUT_FIELD_RULES,
};

/// Member types of a union, or none.
pub(super) const UNION_MEMBER_TYPES: Row = Row {
    is_optional: true,
    own: &[(Group::Is(Terminal::Equals), &[Symbol::FirstMemberType])],
    shared: &[],
};

/// What comes after `=` in a union.
pub(super) const FIRST_MEMBER_TYPE: Row = Row {
    is_optional: false,
    own: &[
        (
            Group::Is(Terminal::Pipe),
            &[Symbol::Name, Symbol::MoreMemberTypes],
        ),
        (Group::Name, &[Symbol::MoreMemberTypes]),
    ],
    shared: &[],
};

/// More member types, each after a vertical bar, or none.
pub(super) const MORE_MEMBER_TYPES: Row = Row {
    is_optional: true,
    own: &[(
        Group::Is(Terminal::Pipe),
        &[Symbol::Name, Symbol::MoreMemberTypes],
    )],
    shared: &[],
};

/// One or more enum value definitions, and `}`.
pub(super) const FIRST_ENUM_VALUE: Row = Row {
    is_optional: false,
    own: &[],
    shared: ENUM_VALUE_RULES,
};

/// More enum value definitions, or none, and `}`.
pub(super) const MORE_ENUM_VALUES: Row = Row {
    is_optional: false,
    own: &[(Group::Is(Terminal::CloseBrace), &[])],
    shared: ENUM_VALUE_RULES,
};

/// A name other than `true`, `false` and `null`.
pub(super) const ENUM_VALUE: Row = Row {
    is_optional: false,
    own: &[(Group::EnumValue, &[])],
    shared: &[],
};

/// `repeatable`, or nothing.
pub(super) const REPEATABLE: Row = Row {
    is_optional: true,
    own: &[(Group::Is(Terminal::Repeatable), &[])],
    shared: &[],
};

/// One or more directive locations.
pub(super) const DIRECTIVE_LOCATIONS: Row = Row {
    is_optional: false,
    own: &[
        (
            Group::Is(Terminal::Pipe),
            &[Symbol::DirectiveLocation, Symbol::MoreDirectiveLocations],
        ),
        (
            Group::Is(Terminal::DirectiveLocation),
            &[Symbol::MoreDirectiveLocations],
        ),
    ],
    shared: &[],
};

/// More directive locations, each after a vertical bar, or none.
pub(super) const MORE_DIRECTIVE_LOCATIONS: Row = Row {
    is_optional: true,
    own: &[(
        Group::Is(Terminal::Pipe),
        &[Symbol::DirectiveLocation, Symbol::MoreDirectiveLocations],
    )],
    shared: &[],
};
