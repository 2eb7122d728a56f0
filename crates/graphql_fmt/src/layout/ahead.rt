//! What comes after a token.

use crate::layout::columns::{columns, has_lines};
use crate::layout::context::Context;
use crate::layout::inline::inline_gap;
use crate::layout::role::{Enclosure, Role};
use crate::layout::symbol::{Symbol, symbol_of};
use crate::pieces::{Gap, Piece};

/// The role of the first token of these pieces. The end of the document has the role of a closing bracket.
pub fn next_role(mut context: Context, pieces: &[Piece<'_>]) -> Role {
    'pieces: for piece in pieces {
        let symbol = symbol_of(piece);
        if !symbol.is_comment() {
            return context.read(symbol, piece);
        }
    }
    Role::End
}

/// Whether a line can end before a token of this role, if it comes after a group.
fn can_begin_line(within: Enclosure, before: Symbol, role: Role) -> bool {
    match role {
        Role::Item => within != Enclosure::Type,
        Role::End => within != Enclosure::Type && !before.is_opener(),
        Role::Described | Role::Directive | Role::Member => true,
        _ => false,
    }
}

/// The number of open brackets after a token.
fn depth_after(depth: usize, symbol: Symbol) -> usize {
    if symbol.is_opener() {
        depth.saturating_add(1)
    } else if symbol.is_closer() {
        depth.saturating_sub(1)
    } else {
        depth
    }
}

/// Whether a token of this role is one of the locations of a directive, or a separator among them.
fn is_of_locations(role: Role) -> bool {
    matches!(role, Role::Spaced | Role::Member)
}

/// Whether the arguments of a directive stay in one line before these locations. `end` is the column at which the
/// arguments end, and `start` the one at which the locations begin.
///
/// They do if the locations fit, and if each location begins a line in any case: if a comment is among the locations,
/// or if these do not fit behind the `)` of broken arguments either.
fn fits_as_locations(
    mut context: Context,
    end: usize,
    start: usize,
    width: usize,
    pieces: &[Piece<'_>],
) -> bool {
    let mut column = start;
    'pieces: for (index, piece) in pieces.iter().enumerate() {
        let symbol = symbol_of(piece);
        if symbol.is_comment() {
            let rest = pieces.get(index..).unwrap_or(&[]);
            return column <= width || is_of_locations(next_role(context, rest));
        }
        if !is_of_locations(context.read(symbol, piece)) {
            return column <= width;
        }
        column = column
            .saturating_add(Gap::Space.width())
            .saturating_add(columns(symbol, piece));
        if column.saturating_sub(end) >= width {
            return true;
        }
    }
    column <= width
}

/// Whether the pieces after a token fit in its line, up to where the line can end. The token ends at column `start`.
pub fn fits(
    mut context: Context,
    mut before: Symbol,
    start: usize,
    width: usize,
    pieces: &[Piece<'_>],
) -> bool {
    let outer = context.within;
    let mut depth = 0usize;
    let mut column = start;
    'pieces: for (index, piece) in pieces.iter().enumerate() {
        let symbol = symbol_of(piece);
        if context.begins_locations() && matches!(symbol, Symbol::Name) {
            let locations = pieces.get(index..).unwrap_or(&[]);
            return fits_as_locations(context, start, column, width, locations);
        }
        let within = context.within;
        let role = context.read(symbol, piece);
        if symbol.is_comment() || can_begin_line(within, before, role) {
            return column <= width;
        }
        column = column
            .saturating_add(inline_gap(before, role, symbol).width())
            .saturating_add(columns(symbol, piece));
        if column > width || has_lines(symbol, piece) {
            return column <= width;
        }
        depth = depth_after(depth, symbol);
        if depth == 0 {
            context.within = outer;
        }
        before = symbol;
    }
    column <= width
}
