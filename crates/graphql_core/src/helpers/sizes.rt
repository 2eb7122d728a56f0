//! Spare capacity of lists.
ghost use Rattle.std.specs.Prelude.{◌≡◌, ◌≤◌, IfOk, OnOk, length, take, drop};

use crate::helpers::source::TokenSource;
use std::alloc::{AllocError, Global};
use std::mem::replace;

// The minimum length of a long input: 256 KiB. The tree of a shorter input is small, so moving its lists would take
// time and save little memory.
const LONG_TEXT: usize = 262144;

// The minimum number of elements of a long list. Copying a shorter list takes little time.
const LONG_LIST: usize = 4096;

/// Whether an input is long, so that `shrink_list` shrinks.
#[inline(always)]
pub fn is_long(text: &str) -> bool {
    text.len() >= LONG_TEXT
}

/// Shrinks a complete list to fit if the input is long.
pub fn shrink_list<S: TokenSource, T>(source: &S, items: &mut Vec<T>)
    ensures { items.new.items ≡ items.old.items }
{
    if source.is_long() {
        items.shrink_to_fit();
    }
}

/// Removes the elements from `start` on, and returns them as a list without much spare capacity. All elements of a long
/// list are moved as they are, since a copy would need twice the memory.
pub fn split_list<T>(alloc: Global, items: &mut Vec<T>, start: usize) -> Result<Vec<T>, AllocError>
    requires { start ≤ length items.old.items }
    ensures left { OnOk result (items.new.items ≡ take start items.old.items) }
    ensures taken { IfOk result (λ v. v.items ≡ drop start items.old.items) }
{
    if start > 0 || items.len() < LONG_LIST {
        return items.split_off(start);
    }
    let mut taken = replace(items, Vec::new(alloc));
    taken.shrink_to_fit();
    Ok(taken)
}
