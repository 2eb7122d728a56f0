//! Recognizes documents, token by token.
ghost use Rattle.std.specs.Prelude.{◌≡◌, ◌≤◌, ◌+◌, ◌↔◌, ◌++◌, [], ◌∷◌, List, length, reverse, take, IfOk, IsTrue};
ghost use Rattle.std.specs.Prelude.{MatchOption, IsOk, OnOk};
ghost use Rattle.std.specs.Prelude.{vec_len, vec_capacity};
ghost use Rattle.graphql_core.specs.{Token};
ghost use Rattle.graphql_standard.specs.Terminals.{IsTokenOf};
ghost use Rattle.graphql_standard.specs.Recognizing.{IsDocument, BeginsDocument, HasRead, Advances, contains};
ghost use Rattle.graphql_standard.specs.Recognizing.{contains_end};
ghost use Rattle.graphql_standard.specs.steps.Stacks.{AtEnd, Comes, StopsAt, IsNext};
ghost use Rattle.graphql_standard.specs.declared.terminal.Terminal.{Terminal};

use crate::expected::ExpectedSet;
use crate::symbol::{Step, Symbol, after, row_of};
use crate::terminal::{TERMINALS, Terminal};
use std::alloc::{AllocError, Global};

/// Recognizes a document of the GraphQL specification of September 2025 (section Document), token by token.
#[derive(Drop)]
pub struct Recognizer {
    /// What has to come, the next one last.
    stack: Vec<Symbol>,
}

impl Recognizer {
    /// Returns a recognizer that has read no token. The only error is out of memory.
    pub fn new(alloc: Global) -> Result<Recognizer, AllocError>
        ensures { IfOk result (λ r. HasRead [] r) }
    {
        let mut stack = Vec::new(alloc);
        stack.push(Symbol::Document)?;
        Ok(Recognizer { stack })
    }

    /// Reads a token, by its terminal. Returns `true` if some document begins with the tokens so far and this one.
    /// Otherwise returns `false`, and the recognizer is as before. The only error is out of memory, and then the
    /// recognizer has read the same tokens as before.
    pub fn advance(&mut self, terminal: Terminal) -> Result<bool, AllocError>
        ensures { (ts : List Token) (t : Token) → HasRead ts self.old → IsTokenOf terminal t
            → Advances result ts t self.new }
    {
        let Some((kept, symbols)) = next_step(&self.stack, terminal) else {
            return Ok(false);
        };
        self.stack.reserve(symbols.len())?;
        self.stack.truncate(kept);
        push_all(&mut self.stack, symbols)?;
        Ok(true)
    }

    /// Returns whether the tokens so far are a document (section Document).
    pub fn is_complete(&self) -> bool
        ensures { (ts : List Token) → HasRead ts self.now → IsTrue result ↔ IsDocument ts }
    {
        can_end(&self.stack)
    }

    /// Returns what can come next: the terminals whose tokens some document has after the tokens so far, and the end
    /// of the input if the tokens so far are a document.
    pub fn expected(&self) -> ExpectedSet
        ensures terminals { (ts : List Token) (k : Terminal) (t : Token) → HasRead ts self.now → IsTokenOf k t
            → IsTrue (contains result k) ↔ BeginsDocument (ts ++ t ∷ []) }
        ensures end { (ts : List Token) → HasRead ts self.now → IsTrue (contains_end result) ↔ IsDocument ts }
    {
        let mut terminals = [false; TERMINALS];
        for (i, terminal) in Terminal::ALL.iter().enumerate() {
            terminals[i] = can_come(&self.stack, *terminal);
        }
        ExpectedSet {
            terminals,
            has_end: can_end(&self.stack),
        }
    }
}

/// Pushes symbols, so that the first is on top.
fn push_all(stack: &mut Vec<Symbol>, symbols: &[Symbol]) -> Result<(), AllocError>
    ensures items { IfOk result (λ r. stack.new.items ≡ stack.old.items ++ reverse symbols.now) }
    ensures capacity { vec_len stack.old + length symbols.now ≤ vec_capacity stack.old → IsOk result }
{
    for next in symbols.iter().rev().copied() {
        stack.push(next)?;
    }
    Ok(())
}

/// How many symbols of the stack stay after the terminal, and the symbols that come on top of them, the next one
/// first. `None` if the terminal is not allowed.
fn next_step(stack: &[Symbol], terminal: Terminal) -> Option<(usize, &'static [Symbol])>
    ensures { MatchOption result (StopsAt stack.now terminal) (λ p. IsNext stack.now terminal p.0 p.1.now) }
{
    let mut rest = stack;
    'symbols: while let Some((symbol, below)) = rest.split_last() {
        match after(*symbol, terminal) {
            Step::Take(symbols) => return Some((below.len(), symbols)),
            Step::Skip => {}
            Step::Reject => return None,
        }
        rest = below;
    }
    None
}

/// Whether tokens of the terminal are allowed where this is the stack.
fn can_come(stack: &[Symbol], terminal: Terminal) -> bool
    ensures { Comes result stack.now terminal }
{
    next_step(stack, terminal).is_some()
}

/// Whether the input can end where this is the stack.
fn can_end(stack: &[Symbol]) -> bool
    ensures { AtEnd result stack.now }
{
    let mut rest = stack;
    'symbols: while let Some((symbol, below)) = rest.split_last() {
        if !row_of(*symbol).is_optional {
            return false;
        }
        rest = below;
    }
    true
}
