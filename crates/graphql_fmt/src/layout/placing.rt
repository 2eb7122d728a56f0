//! Where pieces are written, one after another.

mod comments;
mod groups;

use crate::layout::columns::has_lines;
use crate::layout::definitions::Definitions;
use crate::layout::frames::Frames;
use crate::layout::inline::inline_gap;
use crate::layout::line::Line;
use crate::layout::placing::comments::Comments;
use crate::layout::reader::Reader;
use crate::layout::role::Role;
use crate::layout::symbol::{Symbol, symbol_of};
use crate::options::FormatOptions;
use crate::pieces::{Gap, Piece};
use std::alloc::{AllocError, Global};

/// Where the pieces so far are written.
#[derive(Drop)]
pub struct Placer {
    options: FormatOptions,
    reader: Reader,
    frames: Frames,
    definitions: Definitions,
    line: Line,
    /// What comes before each of them.
    gaps: Vec<Gap>,
    /// The last token; a comment before the first one.
    before: Symbol,
    /// The comments after it.
    comments: Comments,
    /// The role of the token after these comments, if one of them needed it.
    role_after_comments: Option<Role>,
}

/// Whether a token is a separator of members that stays in the line of the token before it, as in the input, because a
/// comment comes next. So a comment in this line stays with the member before it.
fn ends_line(symbol: Symbol, piece: &Piece<'_>, rest: &[Piece<'_>]) -> bool {
    symbol.is_separator()
        && !piece.begins_line
        && rest
            .first()
            .is_some_and(|next| symbol_of(next).is_comment())
}

impl Placer {
    /// Before the first of `count` pieces.
    pub fn new(alloc: Global, options: &FormatOptions, count: usize) -> Result<Self, AllocError> {
        Ok(Placer {
            options: *options,
            reader: Reader::new(alloc),
            frames: Frames::new(alloc),
            definitions: Definitions::NONE,
            line: Line::FIRST,
            gaps: Vec::with_capacity(alloc, count)?,
            before: Symbol::Comment,
            comments: Comments::Nothing,
            role_after_comments: None,
        })
    }

    /// What comes before each piece.
    pub fn into_gaps(mut self) -> Vec<Gap> {
        self.take_back_empty_line();
        self.gaps
    }

    /// Takes back the empty line that was added before the last definition, unless it stays.
    fn take_back_empty_line(&mut self) {
        let Some(index) = self.definitions.taken_back() else {
            return;
        };
        if let Some(Gap::Line { is_blank, .. }) = self.gaps.get_mut(index) {
            *is_blank = false;
        }
    }

    /// A line end, and the beginning of a line at this level.
    fn new_line(&mut self, level: usize, is_blank: bool) -> Gap {
        self.line.level = level;
        Gap::Line {
            indent: u32::try_from(level.saturating_mul(self.options.indent)).unwrap_or(u32::MAX),
            is_blank,
        }
    }

    /// Whether an empty line of the input before a piece stays, at the place of an item or at the end.
    fn is_blank_before(&self, piece: &Piece<'_>) -> bool {
        let is_first_line = matches!(self.comments, Comments::Nothing | Comments::InLine);
        piece.after_blank && !(is_first_line && self.before.is_opener())
    }

    /// A line end before an item, or before a comment that comes before an item. An empty line is added before a
    /// definition and the comments before it.
    fn new_line_before_item(&mut self, piece: &Piece<'_>) -> Gap {
        let is_kept = self.is_blank_before(piece);
        let begins_definition = self.frames.is_document() && self.comments != Comments::BeforeItem;
        if begins_definition && !is_kept {
            self.definitions.add_empty_line(self.gaps.len());
        }
        let level = self.frames.level();
        self.new_line(level, is_kept || begins_definition)
    }

    /// Whether a token of this role begins a line.
    fn begins_line(&self, role: Role) -> bool {
        let is_broken = match role {
            Role::Item | Role::Described | Role::Member | Role::End => true,
            Role::Directive => self.frames.is_item_broken(),
            _ => false,
        };
        is_broken || self.comments != Comments::Nothing
    }

    /// What comes before a token of this role.
    fn gap(&mut self, symbol: Symbol, role: Role, piece: &Piece<'_>) -> Gap {
        if self.gaps.is_empty() {
            Gap::Nothing
        } else if !self.begins_line(role) {
            inline_gap(self.before, role, symbol)
        } else if role == Role::Item {
            self.new_line_before_item(piece)
        } else {
            let level = self.frames.level_of(role);
            self.new_line(level, false)
        }
    }

    /// Places a gap after the last piece.
    #[inline]
    fn place_gap(&mut self, gap: Gap) -> Result<(), AllocError> {
        self.line.go_past_gap(gap);
        self.gaps.push(gap)?;
        Ok(())
    }

    /// Begins a definition if a token of this role begins one. Otherwise lets the last definition take several lines if
    /// the token, after this gap, is in another line or has several.
    #[inline]
    fn update_definitions(&mut self, gap: Gap, symbol: Symbol, role: Role, piece: &Piece<'_>) {
        if role == Role::Item && self.frames.is_document() {
            self.take_back_empty_line();
            self.definitions.begin();
        } else if matches!(gap, Gap::Line { .. }) || has_lines(symbol, piece) {
            self.definitions.break_line();
        }
    }

    /// Places a token after a gap.
    fn push(
        &mut self,
        gap: Gap,
        symbol: Symbol,
        role: Role,
        piece: &Piece<'_>,
    ) -> Result<(), AllocError> {
        self.update_definitions(gap, symbol, role, piece);
        self.place_gap(gap)?;
        self.line.go_past_token(symbol, piece);
        self.frames.update(role, piece);
        self.before = symbol;
        self.comments = Comments::Nothing;
        self.role_after_comments = None;
        Ok(())
    }

    /// Places a piece that comes before `rest`, and some of the next pieces: the number of these.
    pub fn place(&mut self, piece: &Piece<'_>, rest: &[Piece<'_>]) -> Result<usize, AllocError> {
        let symbol = symbol_of(piece);
        if symbol.is_comment() {
            self.place_comment(piece, rest)?;
            return Ok(0);
        }
        let role = self.reader.read(symbol, piece)?;
        if role == Role::Directive && !self.frames.is_item_broken() {
            return self.place_directives(symbol, piece, rest);
        }
        if ends_line(symbol, piece, rest) {
            // It leads the next member, which begins a line.
            self.push(Gap::Space, symbol, Role::Lead, piece)?;
            return Ok(0);
        }
        let gap = self.gap(symbol, role, piece);
        self.push(gap, symbol, role, piece)?;
        if symbol.is_opener() {
            self.place_brackets(rest)
        } else if role == Role::Lead {
            self.place_members(rest)
        } else {
            Ok(0)
        }
    }
}
