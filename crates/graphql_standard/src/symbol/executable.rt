//! Operations, selections and fragments (sections Operations to Fragments, and Variables).

use super::{Group, Row, Rule, Symbol};
use crate::terminal::Terminal;

/// A variable definition, and more of them.
const VARIABLE_DEFINITION_RULES: &[Rule] = &[
    (
        Group::StringValue,
        &[
            Symbol::Dollar,
            Symbol::Name,
            Symbol::Colon,
            Symbol::Type,
            Symbol::DefaultValue,
            Symbol::ConstDirectives,
            Symbol::MoreVariableDefinitions,
        ],
    ),
    (
        Group::Is(Terminal::Dollar),
        &[
            Symbol::Name,
            Symbol::Colon,
            Symbol::Type,
            Symbol::DefaultValue,
            Symbol::ConstDirectives,
            Symbol::MoreVariableDefinitions,
        ],
    ),
];

/// A selection, and more of them.
const SELECTION_RULES: &[Rule] = &[
    (
        Group::Name,
        &[
            Symbol::AliasedName,
            Symbol::Arguments,
            Symbol::Directives,
            Symbol::OptionalSelectionSet,
            Symbol::MoreSelections,
        ],
    ),
    (
        Group::Is(Terminal::Spread),
        &[Symbol::Fragment, Symbol::MoreSelections],
    ),
];

/// The name of an operation, or none.
pub(super) const OPERATION_NAME: Row = Row {
    is_optional: true,
    own: &[(Group::Name, &[])],
    shared: &[],
};

/// Variable definitions in parentheses, or none.
pub(super) const VARIABLES_DEFINITION: Row = Row {
    is_optional: true,
    own: &[(
        Group::Is(Terminal::OpenParen),
        &[Symbol::FirstVariableDefinition],
    )],
    shared: &[],
};

/// One or more variable definitions, and `)`.
pub(super) const FIRST_VARIABLE_DEFINITION: Row = Row {
    is_optional: false,
    own: &[],
    shared: VARIABLE_DEFINITION_RULES,
};

/// More variable definitions, or none, and `)`.
pub(super) const MORE_VARIABLE_DEFINITIONS: Row = Row {
    is_optional: false,
    own: &[(Group::Is(Terminal::CloseParen), &[])],
    shared: VARIABLE_DEFINITION_RULES,
};

/// A selection set.
pub(super) const SELECTION_SET: Row = Row {
    is_optional: false,
    own: &[(Group::Is(Terminal::OpenBrace), &[Symbol::FirstSelection])],
    shared: &[],
};

/// A selection set, or none.
pub(super) const OPTIONAL_SELECTION_SET: Row = Row {
    is_optional: true,
    own: &[(Group::Is(Terminal::OpenBrace), &[Symbol::FirstSelection])],
    shared: &[],
};

/// One or more selections, and `}`.
pub(super) const FIRST_SELECTION: Row = Row {
    is_optional: false,
    own: &[],
    shared: SELECTION_RULES,
};

/// More selections, or none, and `}`.
pub(super) const MORE_SELECTIONS: Row = Row {
    is_optional: false,
    own: &[(Group::Is(Terminal::CloseBrace), &[])],
    shared: SELECTION_RULES,
};

/// The name of a field after its alias, or nothing.
pub(super) const ALIASED_NAME: Row = Row {
    is_optional: true,
    own: &[(Group::Is(Terminal::Colon), &[Symbol::Name])],
    shared: &[],
};

/// What comes after `...`.
pub(super) const FRAGMENT: Row = Row {
    is_optional: false,
    own: &[
        (Group::FragmentName, &[Symbol::Directives]),
        (
            Group::Is(Terminal::On),
            &[Symbol::Name, Symbol::Directives, Symbol::SelectionSet],
        ),
        (
            Group::Is(Terminal::At),
            &[
                Symbol::Name,
                Symbol::Arguments,
                Symbol::MoreDirectives,
                Symbol::SelectionSet,
            ],
        ),
        (Group::Is(Terminal::OpenBrace), &[Symbol::FirstSelection]),
    ],
    shared: &[],
};

/// A name other than `on`.
pub(super) const FRAGMENT_NAME: Row = Row {
    is_optional: false,
    own: &[(Group::FragmentName, &[])],
    shared: &[],
};
