//! Documents, definitions and extensions (sections Document and Type System).

use super::{Group, Row, Rule, Symbol};
use crate::terminal::Terminal;

/// Definitions that can have a description, and more definitions.
const DESCRIBED_RULES: &[Rule] = &[
    (
        Group::Is(Terminal::Query),
        &[
            Symbol::OperationName,
            Symbol::VariablesDefinition,
            Symbol::Directives,
            Symbol::SelectionSet,
            Symbol::Definitions,
        ],
    ),
    (
        Group::Is(Terminal::Mutation),
        &[
            Symbol::OperationName,
            Symbol::VariablesDefinition,
            Symbol::Directives,
            Symbol::SelectionSet,
            Symbol::Definitions,
        ],
    ),
    (
        Group::Is(Terminal::Subscription),
        &[
            Symbol::OperationName,
            Symbol::VariablesDefinition,
            Symbol::Directives,
            Symbol::SelectionSet,
            Symbol::Definitions,
        ],
    ),
    (
        Group::Is(Terminal::Fragment),
        &[
            Symbol::FragmentName,
            Symbol::On,
            Symbol::Name,
            Symbol::Directives,
            Symbol::SelectionSet,
            Symbol::Definitions,
        ],
    ),
    (
        Group::Is(Terminal::Schema),
        &[
            Symbol::ConstDirectives,
            Symbol::RootOperationTypes,
            Symbol::Definitions,
        ],
    ),
    (
        Group::Is(Terminal::Scalar),
        &[Symbol::Name, Symbol::ConstDirectives, Symbol::Definitions],
    ),
    (
        Group::Is(Terminal::Type),
        &[
            Symbol::Name,
            Symbol::ImplementsInterfaces,
            Symbol::ConstDirectives,
            Symbol::FieldsThenDefinitions,
        ],
    ),
    (
        Group::Is(Terminal::Interface),
        &[
            Symbol::Name,
            Symbol::ImplementsInterfaces,
            Symbol::ConstDirectives,
            Symbol::FieldsThenDefinitions,
        ],
    ),
    (
        Group::Is(Terminal::Union),
        &[
            Symbol::Name,
            Symbol::ConstDirectives,
            Symbol::UnionMemberTypes,
            Symbol::Definitions,
        ],
    ),
    (
        Group::Is(Terminal::Enum),
        &[
            Symbol::Name,
            Symbol::ConstDirectives,
            Symbol::EnumValuesThenDefinitions,
        ],
    ),
    (
        Group::Is(Terminal::Input),
        &[
            Symbol::Name,
            Symbol::ConstDirectives,
            Symbol::InputFieldsThenDefinitions,
        ],
    ),
    (
        Group::Is(Terminal::Directive),
        &[
            Symbol::At,
            Symbol::Name,
            Symbol::ArgumentsDefinition,
            Symbol::Repeatable,
            Symbol::On,
            Symbol::DirectiveLocations,
            Symbol::Definitions,
        ],
    ),
];

/// A document.
pub(super) const DOCUMENT: Row = Row {
    is_optional: false,
    own: &[
        (
            Group::Is(Terminal::OpenBrace),
            &[Symbol::FirstSelection, Symbol::Definitions],
        ),
        (Group::StringValue, &[Symbol::DescribedDefinitions]),
        (
            Group::Is(Terminal::Extend),
            &[Symbol::ExtensionThenDefinitions],
        ),
    ],
    shared: DESCRIBED_RULES,
};

/// More definitions, or none.
pub(super) const DEFINITIONS: Row = Row {
    is_optional: true,
    own: &[
        (
            Group::Is(Terminal::OpenBrace),
            &[Symbol::FirstSelection, Symbol::Definitions],
        ),
        (Group::StringValue, &[Symbol::DescribedDefinitions]),
        (
            Group::Is(Terminal::Extend),
            &[Symbol::ExtensionThenDefinitions],
        ),
    ],
    shared: DESCRIBED_RULES,
};

/// A definition that can have a description, and more definitions.
pub(super) const DESCRIBED_DEFINITIONS: Row = Row {
    is_optional: false,
    own: &[],
    shared: DESCRIBED_RULES,
};

/// Fields in braces, or none, and more definitions. A `{` begins fields.
pub(super) const FIELDS_THEN_DEFINITIONS: Row = Row {
    is_optional: true,
    own: &[
        (
            Group::Is(Terminal::OpenBrace),
            &[Symbol::FirstFieldDefinition, Symbol::Definitions],
        ),
        (Group::StringValue, &[Symbol::DescribedDefinitions]),
        (
            Group::Is(Terminal::Extend),
            &[Symbol::ExtensionThenDefinitions],
        ),
    ],
    shared: DESCRIBED_RULES,
};

/// Enum values in braces, or none, and more definitions. A `{` begins enum values.
pub(super) const ENUM_VALUES_THEN_DEFINITIONS: Row = Row {
    is_optional: true,
    own: &[
        (
            Group::Is(Terminal::OpenBrace),
            &[Symbol::FirstEnumValue, Symbol::Definitions],
        ),
        (Group::StringValue, &[Symbol::DescribedDefinitions]),
        (
            Group::Is(Terminal::Extend),
            &[Symbol::ExtensionThenDefinitions],
        ),
    ],
    shared: DESCRIBED_RULES,
};

/// Input fields in braces, or none, and more definitions. A `{` begins input fields.
pub(super) const INPUT_FIELDS_THEN_DEFINITIONS: Row = Row {
    is_optional: true,
    own: &[
        (
            Group::Is(Terminal::OpenBrace),
            &[Symbol::FirstInputField, Symbol::Definitions],
        ),
        (Group::StringValue, &[Symbol::DescribedDefinitions]),
        (
            Group::Is(Terminal::Extend),
            &[Symbol::ExtensionThenDefinitions],
        ),
    ],
    shared: DESCRIBED_RULES,
};

/// Root operation types in braces, or none, and more definitions. A `{` begins root operation types.
pub(super) const ROOT_OPERATION_TYPES_THEN_DEFINITIONS: Row = Row {
    is_optional: true,
    own: &[
        (
            Group::Is(Terminal::OpenBrace),
            &[Symbol::FirstRootOperationType, Symbol::Definitions],
        ),
        (Group::StringValue, &[Symbol::DescribedDefinitions]),
        (
            Group::Is(Terminal::Extend),
            &[Symbol::ExtensionThenDefinitions],
        ),
    ],
    shared: DESCRIBED_RULES,
};

/// What comes after `extend`, and more definitions.
pub(super) const EXTENSION_THEN_DEFINITIONS: Row = Row {
    is_optional: false,
    own: &[
        (Group::Is(Terminal::Schema), &[Symbol::SchemaExtension]),
        (
            Group::Is(Terminal::Scalar),
            &[
                Symbol::Name,
                Symbol::SomeConstDirectives,
                Symbol::Definitions,
            ],
        ),
        (
            Group::Is(Terminal::Type),
            &[Symbol::Name, Symbol::ObjectExtension],
        ),
        (
            Group::Is(Terminal::Interface),
            &[Symbol::Name, Symbol::ObjectExtension],
        ),
        (
            Group::Is(Terminal::Union),
            &[Symbol::Name, Symbol::UnionExtension],
        ),
        (
            Group::Is(Terminal::Enum),
            &[Symbol::Name, Symbol::EnumExtension],
        ),
        (
            Group::Is(Terminal::Input),
            &[Symbol::Name, Symbol::InputObjectExtension],
        ),
    ],
    shared: &[],
};

/// What comes after `extend schema`, and more definitions.
pub(super) const SCHEMA_EXTENSION: Row = Row {
    is_optional: false,
    own: &[
        (
            Group::Is(Terminal::At),
            &[
                Symbol::Name,
                Symbol::ConstArguments,
                Symbol::MoreConstDirectives,
                Symbol::RootOperationTypesThenDefinitions,
            ],
        ),
        (
            Group::Is(Terminal::OpenBrace),
            &[Symbol::FirstRootOperationType, Symbol::Definitions],
        ),
    ],
    shared: &[],
};

/// What comes after the name of an extended object or interface, and more definitions.
pub(super) const OBJECT_EXTENSION: Row = Row {
    is_optional: false,
    own: &[
        (
            Group::Is(Terminal::Implements),
            &[
                Symbol::FirstInterface,
                Symbol::ConstDirectives,
                Symbol::FieldsThenDefinitions,
            ],
        ),
        (
            Group::Is(Terminal::At),
            &[
                Symbol::Name,
                Symbol::ConstArguments,
                Symbol::MoreConstDirectives,
                Symbol::FieldsThenDefinitions,
            ],
        ),
        (
            Group::Is(Terminal::OpenBrace),
            &[Symbol::FirstFieldDefinition, Symbol::Definitions],
        ),
    ],
    shared: &[],
};

/// What comes after the name of an extended union, and more definitions.
pub(super) const UNION_EXTENSION: Row = Row {
    is_optional: false,
    own: &[
        (
            Group::Is(Terminal::At),
            &[
                Symbol::Name,
                Symbol::ConstArguments,
                Symbol::MoreConstDirectives,
                Symbol::UnionMemberTypes,
                Symbol::Definitions,
            ],
        ),
        (
            Group::Is(Terminal::Equals),
            &[Symbol::FirstMemberType, Symbol::Definitions],
        ),
    ],
    shared: &[],
};

/// What comes after the name of an extended enum, and more definitions.
pub(super) const ENUM_EXTENSION: Row = Row {
    is_optional: false,
    own: &[
        (
            Group::Is(Terminal::At),
            &[
                Symbol::Name,
                Symbol::ConstArguments,
                Symbol::MoreConstDirectives,
                Symbol::EnumValuesThenDefinitions,
            ],
        ),
        (
            Group::Is(Terminal::OpenBrace),
            &[Symbol::FirstEnumValue, Symbol::Definitions],
        ),
    ],
    shared: &[],
};

/// What comes after the name of an extended input object, and more definitions.
pub(super) const INPUT_OBJECT_EXTENSION: Row = Row {
    is_optional: false,
    own: &[
        (
            Group::Is(Terminal::At),
            &[
                Symbol::Name,
                Symbol::ConstArguments,
                Symbol::MoreConstDirectives,
                Symbol::InputFieldsThenDefinitions,
            ],
        ),
        (
            Group::Is(Terminal::OpenBrace),
            &[Symbol::FirstInputField, Symbol::Definitions],
        ),
    ],
    shared: &[],
};
