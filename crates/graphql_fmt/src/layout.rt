//! Where the pieces of an input are written.

mod ahead;
mod columns;
mod context;
mod definitions;
mod frames;
mod inline;
mod line;
mod placing;
mod reader;
mod role;
mod symbol;

use crate::layout::placing::Placer;
use crate::options::FormatOptions;
use crate::pieces::{Gap, Piece};
use std::alloc::{AllocError, Global};

/// What comes before each piece of an input.
pub fn gaps(
    alloc: Global,
    options: &FormatOptions,
    pieces: &[Piece<'_>],
) -> Result<Vec<Gap>, AllocError> {
    let mut placer = Placer::new(alloc, options, pieces.len())?;
    let mut next = 0usize;
    'pieces: for (index, piece) in pieces.iter().enumerate() {
        if index >= next {
            let after = index.saturating_add(1);
            let rest = pieces.get(after..).unwrap_or(&[]);
            next = after.saturating_add(placer.place(piece, rest)?);
        }
    }
    Ok(placer.into_gaps())
}
