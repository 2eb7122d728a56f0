//! Single tokens.

use super::{Group, Row, Symbol};
use crate::terminal::Terminal;

/// A directive location.
pub(super) const DIRECTIVE_LOCATION: Row = Row {
    is_optional: false,
    own: &[(Group::Is(Terminal::DirectiveLocation), &[])],
    shared: &[],
};

/// A name.
pub(super) const NAME: Row = Row {
    is_optional: false,
    own: &[(Group::Name, &[])],
    shared: &[],
};

/// `on`.
pub(super) const ON: Row = Row {
    is_optional: false,
    own: &[(Group::Is(Terminal::On), &[])],
    shared: &[],
};

/// `:`.
pub(super) const COLON: Row = Row {
    is_optional: false,
    own: &[(Group::Is(Terminal::Colon), &[])],
    shared: &[],
};

/// `$`.
pub(super) const DOLLAR: Row = Row {
    is_optional: false,
    own: &[(Group::Is(Terminal::Dollar), &[])],
    shared: &[],
};

/// `@`.
pub(super) const AT: Row = Row {
    is_optional: false,
    own: &[(Group::Is(Terminal::At), &[])],
    shared: &[],
};

/// `]`.
pub(super) const CLOSE_BRACKET: Row = Row {
    is_optional: false,
    own: &[(Group::Is(Terminal::CloseBracket), &[])],
    shared: &[],
};
