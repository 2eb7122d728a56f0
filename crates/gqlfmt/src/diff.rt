//! Unified diffs of two texts.

use crate::name::InHeader;
use std::alloc::{AllocError, Global};

/// How many lines ahead, in both texts together, the next common line is looked for.
const REACH: usize = 1000;

/// How many unchanged lines are shown around a change.
const AROUND: usize = 3;

/// The greatest length of a line that is too common to tell where texts meet again, such as a lone bracket. It is in
/// bytes, with the line end.
const TRIVIAL: usize = 2;

/// What happens to a line.
#[derive(Clone, Copy, PartialEq, Eq)]
enum Change {
    Kept,
    Removed,
    Added,
}

/// A line of either text, with its line end.
#[derive(Clone, Copy)]
struct Line<'a> {
    change: Change,
    text: &'a str,
}

/// Some lines that are shown together.
#[derive(Clone, Copy)]
struct Hunk {
    /// The index of the first line.
    from: usize,
    /// The index after the last line; it can exceed the number of lines.
    to: usize,
    /// How many lines of the old text come before.
    old: usize,
    /// How many lines of the new text come before.
    new: usize,
}

/// The lines of a text, each with its line end.
fn lines_of<'a>(alloc: Global, text: &'a str) -> Result<Vec<&'a str>, AllocError> {
    text.split_inclusive('\n').collect(alloc)
}

/// The first elements, at most this many.
fn first<T>(items: &[T], count: usize) -> &[T] {
    items.split_at(count.min(items.len())).0
}

/// All elements after the first ones.
fn after<T>(items: &[T], count: usize) -> &[T] {
    items.split_at(count.min(items.len())).1
}

/// How many lines both begin with.
fn common_start(old: &[&str], new: &[&str]) -> usize {
    old.iter()
        .zip(new.iter())
        .take_while(|(left, right)| **left == **right)
        .count()
}

/// How many lines both end with.
fn common_end(old: &[&str], new: &[&str]) -> usize {
    old.iter()
        .rev()
        .zip(new.iter().rev())
        .take_while(|(left, right)| **left == **right)
        .count()
}

/// Whether both begin with the same line, or both are empty.
fn begin_alike(old: &[&str], new: &[&str]) -> bool {
    match (old.first(), new.first()) {
        (Some(left), Some(right)) => *left == *right,
        (None, None) => true,
        _ => false,
    }
}

/// Whether both begin with the same line, and it is not trivial or not alone.
fn meet(old: &[&str], new: &[&str]) -> bool {
    match (old, new) {
        ([left, old_rest @ ..], [right, new_rest @ ..]) if *left == *right => {
            left.len() > TRIVIAL || begin_alike(old_rest, new_rest)
        }
        _ => false,
    }
}

/// How many of these lines ahead are removed if both texts meet after them. `None` if they do not meet.
fn meeting(old: &[&str], new: &[&str], ahead: usize) -> Option<usize> {
    (0..=ahead).find(|removed| {
        let added = ahead.saturating_sub(*removed);
        meet(after(old, *removed), after(new, added))
    })
}

/// How many lines of each text come before the next line that both have, as far as it is looked for.
fn lines_ahead(old: &[&str], new: &[&str]) -> (usize, usize) {
    if old.is_empty() || new.is_empty() {
        return (old.len(), new.len());
    }
    for ahead in 1..=REACH {
        if let Some(removed) = meeting(old, new, ahead) {
            return (removed, ahead.saturating_sub(removed));
        }
    }
    (REACH, REACH)
}

/// Puts lines with the same change behind the others.
fn push_lines<'a>(
    changes: &mut Vec<Line<'a>>,
    change: Change,
    lines: &[&'a str],
) -> Result<(), AllocError> {
    for text in lines {
        changes.push(Line {
            change,
            text: *text,
        })?;
    }
    Ok(())
}

/// The lines of two texts that do not end with the same line, as `changes_between` returns them.
fn changes_before_end<'a>(
    alloc: Global,
    old: &[&'a str],
    new: &[&'a str],
) -> Result<Vec<Line<'a>>, AllocError> {
    let mut changes = Vec::new(alloc);
    let mut old_at = 0usize;
    let mut new_at = 0usize;
    // Each round takes at least one line.
    for _ in 0..old.len().saturating_add(new.len()) {
        let kept = common_start(after(old, old_at), after(new, new_at));
        push_lines(&mut changes, Change::Kept, first(after(old, old_at), kept))?;
        old_at = old_at.saturating_add(kept);
        new_at = new_at.saturating_add(kept);
        let (removed, added) = lines_ahead(after(old, old_at), after(new, new_at));
        push_lines(
            &mut changes,
            Change::Removed,
            first(after(old, old_at), removed),
        )?;
        push_lines(
            &mut changes,
            Change::Added,
            first(after(new, new_at), added),
        )?;
        old_at = old_at.saturating_add(removed);
        new_at = new_at.saturating_add(added);
        if old_at >= old.len() && new_at >= new.len() {
            break;
        }
    }
    Ok(changes)
}

/// The lines of both texts, in order; a line that both keep once.
fn changes_between<'a>(
    alloc: Global,
    old: &[&'a str],
    new: &[&'a str],
) -> Result<Vec<Line<'a>>, AllocError> {
    let start = common_start(old, new);
    let end = common_end(after(old, start), after(new, start));
    let old_end = old.len().saturating_sub(end);
    let new_end = new.len().saturating_sub(end);
    let mut changes = changes_before_end(alloc, first(old, old_end), first(new, new_end))?;
    push_lines(&mut changes, Change::Kept, after(old, old_end))?;
    Ok(changes)
}

/// Which lines are shown: those that change, and some around them.
fn hunks_of(alloc: Global, changes: &[Line<'_>]) -> Result<Vec<Hunk>, AllocError> {
    let mut hunks: Vec<Hunk> = Vec::new(alloc);
    let mut old = 0usize;
    let mut new = 0usize;
    for (index, line) in changes.iter().enumerate() {
        if line.change != Change::Kept {
            let to = index.saturating_add(AROUND).saturating_add(1);
            push_change(&mut hunks, index, to, old, new)?;
        }
        if line.change != Change::Added {
            old = old.saturating_add(1);
        }
        if line.change != Change::Removed {
            new = new.saturating_add(1);
        }
    }
    Ok(hunks)
}

/// Shows a line that changes: in the last hunk, if it is near, and else in a hunk of its own.
fn push_change(
    hunks: &mut Vec<Hunk>,
    index: usize,
    to: usize,
    old: usize,
    new: usize,
) -> Result<(), AllocError> {
    let before = index.min(AROUND);
    let from = index.saturating_sub(before);
    if let Some(last) = hunks.last_mut() {
        if from <= last.to {
            last.to = to;
            return Ok(());
        }
    }
    hunks.push(Hunk {
        from,
        to,
        old: old.saturating_sub(before),
        new: new.saturating_sub(before),
    })?;
    Ok(())
}

/// Puts a line with its sign at the end of a text.
fn push_line(text: &mut String, line: &Line<'_>) -> Result<(), AllocError> {
    text.push(match line.change {
        Change::Kept => ' ',
        Change::Removed => '-',
        Change::Added => '+',
    })?;
    text.push_str(line.text)?;
    if line.text.ends_with('\n') {
        Ok(())
    } else {
        text.push_str("\n\\ No newline at end of file\n")
    }
}

/// The number of a hunk's first line. For a hunk without lines it is that of the line before it.
fn first_line(before: usize, count: usize) -> usize {
    before.saturating_add(count.min(1))
}

/// Puts a hunk at the end of a text.
fn push_hunk(text: &mut String, hunk: Hunk, changes: &[Line<'_>]) -> Result<(), AllocError> {
    let lines = after(first(changes, hunk.to), hunk.from);
    let old = lines.iter().filter(|line| line.change != Change::Added);
    let new = lines.iter().filter(|line| line.change != Change::Removed);
    let old = old.count();
    let new = new.count();
    let old_line = first_line(hunk.old, old);
    let new_line = first_line(hunk.new, new);
    write!(text, "@@ -{old_line},{old} +{new_line},{new} @@\n")?;
    for line in lines {
        push_line(text, line)?;
    }
    Ok(())
}

/// A path without `./` at its start, as `git apply -p0` requires it.
fn without_dot(path: &str) -> &str {
    match path.strip_prefix("./") {
        Some(rest) if !rest.starts_with('/') => rest,
        _ => path,
    }
}

/// What changes from the old text of a file to the new one, as `patch` reads it. Empty if the texts are the same.
pub fn unified(alloc: Global, name: &str, old: &str, new: &str) -> Result<String, AllocError> {
    let mut text = String::new(alloc);
    if old == new {
        return Ok(text);
    }
    let old_lines = lines_of(alloc, old)?;
    let new_lines = lines_of(alloc, new)?;
    let changes = changes_between(alloc, &old_lines, &new_lines)?;
    let name = InHeader(without_dot(name));
    write!(&mut text, "--- {name}\n+++ {name}\n")?;
    for hunk in &hunks_of(alloc, &changes)? {
        push_hunk(&mut text, *hunk, &changes)?;
    }
    Ok(text)
}
