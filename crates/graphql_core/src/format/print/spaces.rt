//! Margins.
ghost use Rattle.std.specs.Prelude.{OnOk};
ghost use Rattle.graphql_core.specs.{text_of, new_line, spaces};

use crate::format::Sink;
use crate::format::place::LOAD;

/// A line end and the longest margin that is appended at once.
const LINE: &str =
    "\n                                                                                                                                ";

/// The number of spaces in `LINE`.
const MOST: usize = 128;

/// Appends some spaces, one after another.
#[inline(never)]
fn write_many_spaces<S: Sink>(out: &mut S, count: usize) -> Result<(), S::Error>
    ensures { OnOk result (S.took out.old (spaces count) out.new) }
{
    'spaces: for _index in 0..count {
        out.push_str(" ")?;
    }
    Ok(())
}

/// Appends `count` spaces. `write_spaces` appends at most `LOAD` itself.
#[cold]
#[inline(never)]
fn write_wide_margin<S: Sink>(out: &mut S, count: usize) -> Result<(), S::Error>
    ensures { OnOk result (S.took out.old (spaces count) out.new) }
{
    if count > MOST {
        return write_many_spaces(out, count);
    }
    out.push_start(&LINE[1..count + 1], &LINE[1..])
}

/// Appends `count` spaces.
#[inline(always)]
pub fn write_spaces<S: Sink>(out: &mut S, count: usize) -> Result<(), S::Error>
    ensures { OnOk result (S.took out.old (spaces count) out.new) }
{
    if count > LOAD {
        return write_wide_margin(out, count);
    }
    out.push_start(&LINE[1..count + 1], &LINE[1..])
}

/// Appends a line end and the margin of the next line.
#[inline(never)]
pub fn write_new_line<S: Sink>(out: &mut S, margin: usize) -> Result<(), S::Error>
    ensures { OnOk result (S.took out.old (text_of (new_line margin)) out.new) }
{
    if margin > MOST {
        out.push_str("\n")?;
        return write_many_spaces(out, margin);
    }
    out.push_start(&LINE[..margin + 1], LINE)
}
