//! Output made of pieces.
ghost use Rattle.std.specs.Prelude.{◌≡◌, ◌++◌, List, ℕ, string_bytes, IfOk, OnOk};
ghost use Rattle.graphql_fmt.specs.steps.Pieces.{IsPiece, ArePieces};
ghost use Rattle.graphql_fmt.specs.steps.Joining.{AreJoined, IsWrittenFor, gap_bytes};

use crate::pieces::gap::{Gap, apart};
use crate::pieces::piece::{Piece, PieceKind};
use crate::pieces::raw::{with_line_feeds, with_margin};
use graphql_core::common::unquote_block_string;
use graphql_core::format::print::{has_block_lines, write_block, write_spaces};
use graphql_core::tokenizer::Kind;
use std::alloc::{AllocError, Global};

/// Appends a gap.
fn push_gap(out: &mut String, gap: Gap) -> Result<(), AllocError>
    ensures { OnOk result (string_bytes out.new ≡ string_bytes out.old ++ gap_bytes gap) }
{
    match gap {
        Gap::Nothing => Ok(()),
        Gap::Space => out.push_str(" "),
        Gap::Comma => out.push_str(", "),
        Gap::Line { indent, is_blank } => {
            out.push_str("\n")?;
            if is_blank {
                out.push_str("\n")?;
            }
            write_spaces(out, indent as usize)
        }
    }
}

/// Appends the spelling of a piece as it is, but with LF in place of each CR LF in a block string, if its value allows
/// that.
fn push_as_it_is(alloc: Global, out: &mut String, piece: &Piece<'_>) -> Result<(), AllocError>
    requires { IsPiece piece.now }
    ensures { OnOk result ((s : List ℕ) × (string_bytes out.new ≡ string_bytes out.old ++ s)
        × IsWrittenFor piece.now s) }
{
    let changed = match piece.kind {
        PieceKind::Token(Kind::BlockString) => with_line_feeds(alloc, piece.text)?,
        _ => None,
    };
    match changed {
        Some(text) => out.push_str(&text),
        None => out.push_str(piece.text),
    }
}

/// Appends the spelling of a piece. Each line of a block string begins with `margin` spaces, if its value allows that.
fn push_spelling(
    alloc: Global,
    out: &mut String,
    piece: &Piece<'_>,
    margin: usize,
) -> Result<(), AllocError>
    requires { IsPiece piece.now }
    ensures { OnOk result ((s : List ℕ) × (string_bytes out.new ≡ string_bytes out.old ++ s)
        × IsWrittenFor piece.now s) }
{
    if !piece.is_indented {
        return push_as_it_is(alloc, out, piece);
    }
    let value = unquote_block_string(alloc, piece.text)?;
    if has_block_lines(&value) {
        return write_block(out, &value, margin, margin);
    }
    match with_margin(alloc, piece.text, &value, margin)? {
        Some(text) => out.push_str(&text),
        None => push_as_it_is(alloc, out, piece),
    }
}

/// The pieces, each after the gap with its index, and a line end after the last. Without a gap nothing comes between
/// them. Where a gap does not keep two pieces apart, another takes its place.
pub fn joined(alloc: Global, pieces: &[Piece<'_>], gaps: &[Gap]) -> Result<String, AllocError>
    requires { ArePieces pieces.now }
    // The output is these pieces, and nothing but gaps is between them. Each gap keeps two pieces apart, whatever the
    // chosen gaps are.
    ensures { IfOk result (λ text. AreJoined pieces.now (string_bytes text)) }
{
    let mut out = String::new(alloc);
    let Some((first, others)) = pieces.split_first() else {
        return Ok(out);
    };
    push_spelling(alloc, &mut out, first, 0)?;
    let mut before = first.kind;
    let mut index = 1usize;
    let mut margin = 0usize;
    'pieces: for piece in others {
        let chosen = gaps.get(index).copied().unwrap_or(Gap::Nothing);
        let gap = apart(before, chosen, piece);
        margin = gap.margin_after(margin);
        push_gap(&mut out, gap)?;
        push_spelling(alloc, &mut out, piece, margin)?;
        before = piece.kind;
        index = index.saturating_add(1);
    }
    out.push_str("\n")?;
    Ok(out)
}
