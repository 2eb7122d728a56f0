//! Groups of items that are all in one line, or each begin a line.
//!
//! A group is placed in the line, and taken back if it does not fit.

use crate::layout::ahead::{fits, next_role};
use crate::layout::columns::{columns, has_lines};
use crate::layout::context::Context;
use crate::layout::inline::inline_gap;
use crate::layout::line::Line;
use crate::layout::placing::Placer;
use crate::layout::role::{Enclosure, Role};
use crate::layout::symbol::{Symbol, symbol_of};
use crate::pieces::Piece;
use std::alloc::AllocError;

/// Directives or members.
#[derive(Clone, Copy, Debug, PartialEq, Eq)]
enum Chain {
    /// Directives, after the first `@`.
    Directives,
    /// Members, after the lead.
    Members,
}

impl Chain {
    /// Whether a token of this role, outside the brackets in the chain, continues the chain.
    fn is_continued(self, role: Role) -> bool {
        match self {
            Chain::Directives => matches!(role, Role::Tight | Role::Arguments | Role::Directive),
            Chain::Members => matches!(role, Role::Spaced | Role::Member),
        }
    }
}

/// Where a group begins.
#[derive(Clone, Copy)]
struct Start {
    context: Context,
    /// The number of brackets that are open.
    depth: usize,
    /// The number of pieces that are placed.
    placed: usize,
    line: Line,
    before: Symbol,
}

impl Placer {
    /// A group that begins after the last token.
    fn start(&self) -> Start {
        Start {
            context: self.reader.context(),
            depth: self.reader.depth(),
            placed: self.gaps.len(),
            line: self.line,
            before: self.before,
        }
    }

    /// Takes back the pieces of a group.
    fn take_back(&mut self, start: Start) -> Result<(), AllocError> {
        self.gaps.truncate(start.placed);
        self.line = start.line;
        self.before = start.before;
        self.reader.go_back(start.context, start.depth)
    }

    /// Places a piece of a group in the line. Whether it fits in `width` columns, and is a token of one line.
    fn place_in_line(&mut self, width: usize, piece: &Piece<'_>) -> Result<bool, AllocError> {
        let symbol = symbol_of(piece);
        if symbol.is_comment() || has_lines(symbol, piece) {
            return Ok(false);
        }
        let role = self.reader.read(symbol, piece)?;
        let gap = inline_gap(self.before, role, symbol);
        self.place_gap(gap)?;
        self.line.column = self.line.column.saturating_add(columns(symbol, piece));
        self.before = symbol;
        Ok(self.line.column <= width)
    }

    /// Whether the pieces after a group fit in its line, up to where the line can end.
    fn fits(&self, width: usize, rest: &[Piece<'_>]) -> bool {
        fits(
            self.reader.context(),
            self.before,
            self.line.column,
            width,
            rest,
        )
    }

    /// Places what is in the brackets that the last token opens, in the line: the number of pieces.
    /// `None` if that does not fit in `width` columns.
    fn place_inside(
        &mut self,
        width: usize,
        rest: &[Piece<'_>],
    ) -> Result<Option<usize>, AllocError> {
        let start = self.start();
        'pieces: for (index, piece) in rest.iter().enumerate() {
            if !self.place_in_line(width, piece)? {
                break;
            }
            if self.reader.depth() < start.depth {
                let count = index + 1;
                if self.fits(width, rest.get(count..).unwrap_or(&[])) {
                    return Ok(Some(count));
                }
                break;
            }
        }
        self.take_back(start)?;
        Ok(None)
    }

    /// Places the directives or the members that begin with the last token, in the line: the number of pieces.
    /// `None` if they do not fit.
    fn place_chain(
        &mut self,
        chain: Chain,
        rest: &[Piece<'_>],
    ) -> Result<Option<usize>, AllocError> {
        let width = self.options.width;
        let start = self.start();
        'pieces: for (count, piece) in rest.iter().enumerate() {
            let ahead = rest.get(count..).unwrap_or(&[]);
            let is_over = self.reader.depth() == start.depth
                && !chain.is_continued(next_role(self.reader.context(), ahead));
            if is_over && !self.has_comment_of_chain(ahead) && self.fits(width, ahead) {
                return Ok(Some(count));
            }
            if is_over || !self.place_in_line(width, piece)? {
                self.take_back(start)?;
                return Ok(None);
            }
        }
        Ok(Some(rest.len()))
    }

    /// Places the `@` of the first directive of an item, and the directives in its line.
    pub fn place_directives(
        &mut self,
        symbol: Symbol,
        piece: &Piece<'_>,
        rest: &[Piece<'_>],
    ) -> Result<usize, AllocError> {
        let gap = self.gap(symbol, Role::Directive, piece);
        self.push(gap, symbol, Role::Directive, piece)?;
        if let Some(count) = self.place_chain(Chain::Directives, rest)? {
            return Ok(count);
        }
        let _ = self.gaps.pop();
        self.frames.break_item();
        let level = self.frames.level_of(Role::Directive);
        let gap = self.new_line(level, false);
        self.push(gap, symbol, Role::Directive, piece)?;
        Ok(0)
    }

    /// Places what is in the brackets that the last token opens if that stays in the line, and enters them otherwise.
    pub fn place_brackets(&mut self, rest: &[Piece<'_>]) -> Result<usize, AllocError> {
        let within = self.reader.within();
        let is_empty = rest.first().is_some_and(|next| symbol_of(next).is_closer());
        if within == Enclosure::Block && !is_empty {
            let level = self.frames.level();
            self.frames.enter(level)?;
            return Ok(0);
        }
        let width = if is_empty || within == Enclosure::Type {
            usize::MAX
        } else {
            self.options.width
        };
        if let Some(count) = self.place_inside(width, rest)? {
            return Ok(count);
        }
        self.frames.enter(self.line.level)?;
        Ok(0)
    }

    /// Places the members after the last token if they stay in the line: if they fit, and none comes after a leading
    /// separator. Otherwise each begins a line, and so does each directive after them.
    pub fn place_members(&mut self, rest: &[Piece<'_>]) -> Result<usize, AllocError> {
        if self.frames.is_item_broken() {
            return Ok(0);
        }
        let has_separator = rest
            .first()
            .is_some_and(|next| symbol_of(next).is_separator());
        if !has_separator {
            if let Some(count) = self.place_chain(Chain::Members, rest)? {
                return Ok(count);
            }
        }
        self.frames.break_item();
        Ok(0)
    }
}
