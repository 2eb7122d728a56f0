//! The levels of lines.

use crate::layout::role::Role;
use crate::pieces::Piece;
use std::alloc::{AllocError, Global};

/// A document, or brackets whose items each begin a line.
#[derive(Clone, Copy)]
struct Frame {
    /// The level of the items.
    level: usize,
    /// The level of the last item, directive or member.
    item_level: usize,
    /// Whether the directives and the members of the last item begin lines.
    is_item_broken: bool,
    /// Whether the last item ends with directives or members so far.
    has_chain: bool,
    /// The indentation in the input of the last item, if it begins a line there.
    item_indent: Option<usize>,
}

impl Frame {
    /// Before the first item, which is at this level.
    fn at_level(level: usize) -> Self {
        Frame {
            level,
            item_level: level,
            is_item_broken: false,
            has_chain: false,
            item_indent: None,
        }
    }
}

/// The brackets around a token whose items begin lines.
#[derive(Drop)]
pub struct Frames {
    /// The innermost one, or the document.
    frame: Frame,
    /// Those around it.
    outer: Vec<Frame>,
}

impl Frames {
    /// The document.
    pub fn new(alloc: Global) -> Self {
        Frames {
            frame: Frame::at_level(0),
            outer: Vec::new(alloc),
        }
    }

    /// Whether the frame is the document.
    pub fn is_document(&self) -> bool {
        self.outer.is_empty()
    }

    /// The level of the items.
    pub fn level(&self) -> usize {
        self.frame.level
    }

    /// The level of a line that begins with a token of this role.
    #[inline]
    pub fn level_of(&self, role: Role) -> usize {
        match role {
            Role::Item | Role::Described | Role::Body => self.frame.level,
            Role::Directive | Role::Lead | Role::Member => self.frame.level.saturating_add(1),
            Role::Variables | Role::Arguments => self.frame.item_level,
            Role::Tight | Role::Spaced => self.frame.item_level.saturating_add(1),
            Role::End => self.frame.level.saturating_sub(1),
        }
    }

    /// Whether the directives and the members of the last item begin lines.
    pub fn is_item_broken(&self) -> bool {
        self.frame.is_item_broken
    }

    /// Whether the last item ends with directives or members so far.
    pub fn has_chain(&self) -> bool {
        self.frame.has_chain
    }

    /// Whether a piece is indented further in the input than the last item. That must begin a line there.
    pub fn is_indented(&self, piece: &Piece<'_>) -> bool {
        self.frame
            .item_indent
            .is_some_and(|indent| piece.indent > indent)
    }

    /// Lets the directives and the members of the last item begin lines.
    pub fn break_item(&mut self) {
        self.frame.is_item_broken = true;
    }

    /// Goes past a token of this role. A closing bracket leaves the innermost brackets.
    #[inline]
    pub fn update(&mut self, role: Role, piece: &Piece<'_>) {
        let level = self.frame.level;
        match role {
            Role::Item => {
                self.frame = Frame {
                    item_indent: piece.begins_line.then_some(piece.indent),
                    ..Frame::at_level(level)
                };
            }
            Role::Described => self.frame.item_level = level,
            Role::Lead => {
                self.frame.item_level = level;
                self.frame.has_chain = true;
            }
            Role::Directive | Role::Member => {
                self.frame.item_level = level.saturating_add(1);
                self.frame.has_chain = true;
            }
            Role::Body => self.frame.has_chain = false,
            Role::End => {
                if let Some(frame) = self.outer.pop() {
                    self.frame = frame;
                }
            }
            Role::Tight | Role::Spaced | Role::Variables | Role::Arguments => {}
        }
    }

    /// Enters brackets whose items are a level in from this level.
    pub fn enter(&mut self, level: usize) -> Result<(), AllocError> {
        let level = level.saturating_add(1);
        self.outer.push(self.frame)?;
        self.frame = Frame::at_level(level);
        Ok(())
    }
}
