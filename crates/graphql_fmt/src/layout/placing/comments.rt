//! Where comments are written.

use crate::layout::ahead::next_role;
use crate::layout::placing::Placer;
use crate::layout::role::Role;
use crate::layout::symbol::symbol_of;
use crate::pieces::{Gap, Piece};
use std::alloc::AllocError;

/// The comments after the last token.
#[derive(Clone, Copy, Debug, PartialEq, Eq)]
pub enum Comments {
    /// There are none.
    Nothing,
    /// The only one is in the line of the token.
    InLine,
    /// All on separate lines belong to the item before them, and are a level in.
    OfItem,
    /// The last one stays in the line below the definition before it, at its level.
    Below,
    /// The last one comes before an item.
    BeforeItem,
    /// The last one is inside an item, or before a closing bracket.
    Inside,
}

impl Comments {
    /// Whether the next comment on a separate line can still belong to the item before it.
    fn follow_item(self) -> bool {
        matches!(
            self,
            Comments::Nothing | Comments::InLine | Comments::OfItem
        )
    }
}

/// Whether an empty line or the end comes after the comments that these pieces begin with, before any token.
fn ends_block(pieces: &[Piece<'_>]) -> bool {
    'pieces: for piece in pieces {
        if piece.after_blank || !symbol_of(piece).is_comment() {
            return piece.after_blank;
        }
    }
    true
}

impl Placer {
    /// The role of the first token after comments.
    fn role_after_comments(&mut self, rest: &[Piece<'_>]) -> Role {
        let context = self.reader.context();
        *self
            .role_after_comments
            .get_or_insert_with(|| next_role(context, rest))
    }

    /// Whether a comment on a separate line is indented further than the item that it is in or comes after. Without
    /// indentation, the output would not show that.
    fn is_indented(&self, piece: &Piece<'_>) -> bool {
        self.frames.is_indented(piece) && self.options.indent > 0
    }

    /// Whether a comment on a separate line belongs to the definition before it, if the next token has this role.
    fn ends_definition(&self, role: Role, piece: &Piece<'_>) -> bool {
        self.frames.is_document()
            && matches!(role, Role::Item | Role::End)
            && !self.before.is_close_brace()
            && self.is_indented(piece)
    }

    /// Whether a comment on a separate line counts as a directive or a member of the item before it, if the next token
    /// has this role.
    fn ends_chain(&self, role: Role, piece: &Piece<'_>) -> bool {
        let is_after_chain = match role {
            Role::Body => true,
            Role::Item | Role::End => {
                !self.frames.is_document() && self.frames.has_chain() && !piece.after_blank
            }
            _ => false,
        };
        is_after_chain && self.is_indented(piece)
    }

    /// Whether the first comment on a separate line, of those that these pieces begin with, counts as a directive or a
    /// member of the item before it.
    pub fn has_comment_of_chain(&self, pieces: &[Piece<'_>]) -> bool {
        let separate = match pieces.first() {
            Some(piece) if symbol_of(piece).is_comment() && !piece.begins_line => pieces.get(1),
            first => first,
        };
        match separate {
            Some(piece) if symbol_of(piece).is_comment() => {
                let role = next_role(self.reader.context(), pieces);
                self.ends_chain(role, piece)
            }
            _ => false,
        }
    }

    /// Whether a comment on a separate line, before `rest`, stays in the line below the definition before it, if the
    /// next token has this role. The comments in the next lines then stay with it.
    fn stays_below(&self, role: Role, piece: &Piece<'_>, rest: &[Piece<'_>]) -> bool {
        !self.before.is_comment()
            && self.frames.is_document()
            && matches!(role, Role::Item | Role::End)
            && !piece.after_blank
            && ends_block(rest)
    }

    /// The comments with one more, on a separate line, before `rest`, if the next token has this role.
    fn comments_with(&self, role: Role, piece: &Piece<'_>, rest: &[Piece<'_>]) -> Comments {
        let follow_item = self.comments.follow_item();
        if follow_item && (self.ends_definition(role, piece) || self.ends_chain(role, piece)) {
            Comments::OfItem
        } else if follow_item && self.stays_below(role, piece, rest) {
            Comments::Below
        } else if self.comments == Comments::Below && !piece.after_blank {
            Comments::Below
        } else if role == Role::Item {
            Comments::BeforeItem
        } else {
            Comments::Inside
        }
    }

    /// What comes before a comment that belongs to the item before it, if the next token has this role.
    fn gap_of_item(&mut self, role: Role, piece: &Piece<'_>) -> Gap {
        self.definitions.break_line();
        let level = self.frames.level_of(Role::Member);
        let is_blank = piece.after_blank && matches!(role, Role::Item | Role::End);
        self.new_line(level, is_blank)
    }

    /// What comes before a comment that is before the next token, if that has this role.
    fn gap_before_token(&mut self, role: Role, piece: &Piece<'_>) -> Gap {
        if role == Role::Item {
            return self.new_line_before_item(piece);
        }
        let is_end = role == Role::End;
        let level = if is_end {
            self.frames.level()
        } else {
            self.frames.level_of(role)
        };
        let is_blank = is_end && self.is_blank_before(piece);
        self.new_line(level, is_blank)
    }

    /// Places a comment on a separate line that comes before `rest`.
    fn place_separate(&mut self, piece: &Piece<'_>, rest: &[Piece<'_>]) -> Result<(), AllocError> {
        let role = self.role_after_comments(rest);
        let comments = self.comments_with(role, piece, rest);
        let gap = match comments {
            Comments::OfItem => self.gap_of_item(role, piece),
            Comments::Below => self.new_line(0, false),
            _ => self.gap_before_token(role, piece),
        };
        self.comments = comments;
        self.place_gap(gap)
    }

    /// Places a comment that comes before `rest`.
    pub fn place_comment(
        &mut self,
        piece: &Piece<'_>,
        rest: &[Piece<'_>],
    ) -> Result<(), AllocError> {
        if piece.begins_line {
            return self.place_separate(piece, rest);
        }
        self.comments = Comments::InLine;
        self.place_gap(Gap::Space)
    }
}
