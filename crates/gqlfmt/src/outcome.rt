//! What becomes of the inputs, and the exit status.
ghost use Rattle.std.specs.Prelude.{◌≡◌, ◌≢◌};
ghost use Rattle.gqlfmt.specs.{IsWorst, one_more, times};
ghost use Rattle.gqlfmt.specs.declared.outcome.Outcome.{Outcome};

use crate::arguments::Task;
use std::alloc::{AllocError, Global};

/// What became of an input.
#[derive(Clone, Copy, Debug, PartialEq, Eq)]
pub enum Outcome {
    /// The formatted text was written to standard output.
    Printed,
    /// The input is formatted.
    Unchanged,
    /// The input would change.
    Differs,
    /// The file was rewritten.
    Rewritten,
    /// The input was rejected.
    Rejected,
    /// The input could not be read or written, standard output failed, or an allocation failed.
    Failed,
}

/// How many inputs had each outcome.
#[derive(Clone, Copy, Debug, PartialEq, Eq)]
pub struct Tally {
    printed: usize,
    unchanged: usize,
    differing: usize,
    rewritten: usize,
    rejected: usize,
    failed: usize,
}

impl Tally {
    /// No input.
    pub fn new() -> Tally
        ensures { (o : Outcome) → times result o ≡ 0 }
    {
        Tally {
            printed: 0,
            unchanged: 0,
            differing: 0,
            rewritten: 0,
            rejected: 0,
            failed: 0,
        }
    }

    /// Counts one more input.
    pub fn count(&mut self, outcome: Outcome)
        ensures counted { times self.new outcome ≡ one_more (times self.old outcome) }
        ensures others { (o : Outcome) → o ≢ outcome → times self.new o ≡ times self.old o }
    {
        match outcome {
            Outcome::Printed => self.printed = self.printed.saturating_add(1),
            Outcome::Unchanged => self.unchanged = self.unchanged.saturating_add(1),
            Outcome::Differs => self.differing = self.differing.saturating_add(1),
            Outcome::Rewritten => self.rewritten = self.rewritten.saturating_add(1),
            Outcome::Rejected => self.rejected = self.rejected.saturating_add(1),
            Outcome::Failed => self.failed = self.failed.saturating_add(1),
        }
    }

    /// The exit status, which is the worst of all inputs.
    pub fn status(&self) -> u8
        ensures { IsWorst self.now result }
    {
        if self.failed > 0 {
            2
        } else if self.differing > 0 || self.rejected > 0 {
            1
        } else {
            0
        }
    }

    /// How many inputs there were.
    fn total(&self) -> usize {
        self.printed
            .saturating_add(self.unchanged)
            .saturating_add(self.differing)
            .saturating_add(self.rewritten)
            .saturating_add(self.rejected)
            .saturating_add(self.failed)
    }

    /// One line about several inputs. `None` for fewer than two, and for `Task::Print` and `Task::Diff`. An error means
    /// that an allocation failed.
    pub fn summary(&self, alloc: Global, task: Task) -> Result<Option<String>, AllocError> {
        let (changed, what) = match task {
            Task::Check => (self.differing, "would change"),
            Task::Write => (self.rewritten, "rewritten"),
            Task::Print | Task::Diff => return Ok(None),
        };
        if self.total() < 2 {
            return Ok(None);
        }
        let files = if changed == 1 { "file" } else { "files" };
        let unchanged = self.unchanged;
        let mut text = format!(in alloc; "{changed} {files} {what}, {unchanged} unchanged")?;
        push_count(&mut text, self.rejected, "rejected")?;
        push_count(&mut text, self.failed, "failed")?;
        Ok(Some(text))
    }
}

/// Puts a count that is not 0 at the end of a text.
fn push_count(text: &mut String, count: usize, what: &str) -> Result<(), AllocError> {
    if count > 0 {
        write!(text, ", {count} {what}")?;
    }
    Ok(())
}
