//! Reads a document with its brackets.

use crate::layout::context::Context;
use crate::layout::role::{Enclosure, Role};
use crate::layout::symbol::Symbol;
use crate::pieces::Piece;
use std::alloc::{AllocError, Global};

/// Reads a document, token by token.
#[derive(Drop)]
pub struct Reader {
    context: Context,
    /// What each bracket that is open is in, the outermost first.
    outer: Vec<Enclosure>,
}

impl Reader {
    /// Before the first token.
    pub fn new(alloc: Global) -> Self {
        Reader {
            context: Context::FIRST,
            outer: Vec::new(alloc),
        }
    }

    /// The context of the next token.
    pub fn context(&self) -> Context {
        self.context
    }

    /// What the next token is in.
    pub fn within(&self) -> Enclosure {
        self.context.within
    }

    /// The number of brackets that are open.
    pub fn depth(&self) -> usize {
        self.outer.len()
    }

    /// Goes back to this context, in which `depth` brackets were open. At most one of these was closed since.
    pub fn go_back(&mut self, context: Context, depth: usize) -> Result<(), AllocError> {
        if self.outer.len() < depth {
            self.outer.push(self.context.within)?;
        }
        self.outer.truncate(depth);
        self.context = context;
        Ok(())
    }

    /// Reads the next token: its role.
    #[inline]
    pub fn read(&mut self, symbol: Symbol, piece: &Piece<'_>) -> Result<Role, AllocError> {
        let within = self.context.within;
        let role = self.context.read(symbol, piece);
        if symbol.is_opener() {
            self.outer.push(within)?;
        } else if symbol.is_closer() {
            self.context.within = self.outer.pop().unwrap_or(Enclosure::Document);
        }
        Ok(role)
    }
}
