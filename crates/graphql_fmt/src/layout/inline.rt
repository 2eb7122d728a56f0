//! What comes between two tokens of one line.

use crate::layout::role::Role;
use crate::layout::symbol::Symbol;
use crate::pieces::Gap;
use graphql_core::helpers::Punctuator;

/// What comes before an item in its line.
fn before_item(before: Symbol) -> Gap {
    match before {
        Symbol::Punctuator(Punctuator::OpenParen | Punctuator::OpenBracket) => Gap::Nothing,
        Symbol::Punctuator(Punctuator::OpenBrace) => Gap::Space,
        _ => Gap::Comma,
    }
}

/// What comes before a closing bracket in its line.
fn before_end(before: Symbol, symbol: Symbol) -> Gap {
    if symbol.is_close_brace() && !before.is_opener() {
        Gap::Space
    } else {
        Gap::Nothing
    }
}

/// What comes between a token and one of this role in the same line.
#[inline]
pub fn inline_gap(before: Symbol, role: Role, symbol: Symbol) -> Gap {
    match role {
        Role::Tight | Role::Arguments => Gap::Nothing,
        Role::Item => before_item(before),
        Role::End => before_end(before, symbol),
        Role::Spaced
        | Role::Described
        | Role::Directive
        | Role::Lead
        | Role::Member
        | Role::Variables
        | Role::Body => Gap::Space,
    }
}
