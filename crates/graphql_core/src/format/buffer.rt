//! An output buffer: a vector whose first `len` bytes are the output. The bytes after them are initialized ahead, so
//! that appending a short string takes one test.
ghost use Rattle.std.specs.Prelude.{◌≡◌, ◌≤◌, [], ◌++◌, length, take, vec_len, string_bytes, IfOk, OnOk, OnErr};
ghost use Rattle.graphql_core.specs.sources.Minified.{space_if};
ghost use Rattle.graphql_core.specs.steps.StringSink.{list_nil, list_more};

use crate::format::place::{LOAD, copy_prefix, copy_space, copy_text};
use crate::format::sink::Sink;
use std::alloc::{AllocError, Global};
use std::marker::Model;

/// The least length to which the vector grows, except within a smaller capacity.
const LEAST_CAPACITY: usize = 512;

/// The most bytes that are initialized ahead at once. They are few enough to be in the cache when output reaches them.
const MOST_AHEAD: usize = 16384;

static ZEROS: [u8; 1024] = [0; 1024];

/// Grows the vector to at least `end` bytes, and initializes more bytes ahead. If `end` fits the capacity, the vector
/// stays within the capacity, so that its bytes are not moved early.
#[cold]
#[inline(never)]
fn ensure_capacity(bytes: &mut Vec<u8>, end: usize) -> Result<(), AllocError>
    ensures front { take (vec_len bytes.old) bytes.new.items ≡ bytes.old.items }
    ensures allowed { OnOk result (end ≤ vec_len bytes.new) }
{
    let capacity = bytes.capacity();
    let allowed = if end <= capacity {
        capacity
    } else {
        usize::MAX
    };
    let ahead = bytes.len().saturating_add(bytes.len().min(MOST_AHEAD));
    let wanted = ahead.max(LEAST_CAPACITY).min(allowed).max(end);
    'blocks: while bytes.len() < wanted {
        let step = (wanted - bytes.len()).min(ZEROS.len());
        bytes.extend_from_slice(&ZEROS[..step])?;
    }
    Ok(())
}

/// Output, and bytes behind it that are initialized ahead.
#[derive(Drop)]
struct Filled {
    bytes: Vec<u8>,
    len: usize,
}

impl Model for Filled {
    ghost use Rattle.std.specs.Prelude.{ℕ, List, ◌≤◌, length, take};

    ghost Value = { List ℕ };

    ghost view = { λ s. take s.len s.bytes.items };

    ghost invariant = { λ s. s.len ≤ length s.bytes.items };
}

/// Each method appends, or returns an error if an allocation fails; then the output is what it was.
impl Filled {
    #[inline(always)]
    fn append(&mut self, more: &[u8]) -> Result<(), AllocError>
        ensures text { OnOk result (self.new ≡ self.old ++ more.now) }
        ensures kept { OnErr result (self.new ≡ self.old) }
    {
        let end = self.len + more.len();
        if end > self.bytes.len() {
            ensure_capacity(&mut self.bytes, end)?;
        }
        self.len = copy_text(self.bytes.as_mut_slice(), self.len, more);
        Ok(())
    }

    #[inline(always)]
    fn append_three(&mut self, first: &[u8], second: &[u8], third: &[u8]) -> Result<(), AllocError>
        ensures text { OnOk result (self.new ≡ self.old ++ (first.now ++ (second.now ++ third.now))) }
        ensures kept { OnErr result (self.new ≡ self.old) }
    {
        let end = (self.len + first.len())
            .saturating_add(second.len())
            .saturating_add(third.len());
        if end > self.bytes.len() {
            ensure_capacity(&mut self.bytes, end)?;
        }
        let to = self.bytes.as_mut_slice();
        let after_first = copy_text(to, self.len, first);
        let after_second = copy_text(to, after_first, second);
        self.len = copy_text(to, after_second, third);
        Ok(())
    }

    /// Appends a space if `is_spaced`, then `more`.
    #[cold]
    #[inline(never)]
    fn append_slow(&mut self, is_spaced: bool, more: &[u8]) -> Result<(), AllocError>
        ensures text { OnOk result (self.new ≡ self.old ++ (space_if is_spaced ++ more.now)) }
        ensures kept { OnErr result (self.new ≡ self.old) }
    {
        let most = self.len + more.len() + 1;
        if most > self.bytes.len() {
            ensure_capacity(&mut self.bytes, most)?;
        }
        let start = copy_space(self.bytes.as_mut_slice(), self.len, is_spaced);
        self.len = copy_text(self.bytes.as_mut_slice(), start, more);
        Ok(())
    }

    /// Appends what `append_slow` appends. `from` must begin with `more`. If both `from` and the vector are long
    /// enough, up to `LOAD` bytes are one load and one store.
    #[inline(always)]
    fn append_spaced(&mut self, is_spaced: bool, more: &[u8], from: &[u8]) -> Result<(), AllocError>
        requires { take (length more.now) from.now ≡ more.now }
        ensures text { OnOk result (self.new ≡ self.old ++ (space_if is_spaced ++ more.now)) }
        ensures kept { OnErr result (self.new ≡ self.old) }
    {
        let Filled { bytes, len } = self;
        if more.len() > LOAD || from.len() < LOAD || bytes.len() - *len <= LOAD {
            return self.append_slow(is_spaced, more);
        }
        let start = copy_space(bytes.as_mut_slice(), *len, is_spaced);
        *len = copy_prefix(bytes.as_mut_slice(), start, more, from);
        Ok(())
    }

    /// Appends `more`, with which `from` must begin.
    #[inline(always)]
    fn append_start(&mut self, more: &[u8], from: &[u8]) -> Result<(), AllocError>
        requires { take (length more.now) from.now ≡ more.now }
        ensures text { OnOk result (self.new ≡ self.old ++ more.now) }
        ensures kept { OnErr result (self.new ≡ self.old) }
    {
        let Filled { bytes, len } = self;
        if more.len() > LOAD || from.len() < LOAD || bytes.len() - *len < LOAD {
            return self.append_slow(false, more);
        }
        *len = copy_prefix(bytes.as_mut_slice(), *len, more, from);
        Ok(())
    }
}

/// An output buffer: UTF-8 that grows at its end.
#[derive(Drop)]
pub struct Buffer {
    output: Filled,
}

impl Model for Buffer {
    ghost use Rattle.std.specs.Prelude.{ℕ, List};
    ghost use Rattle.std.specs.Str.{IsUtf8};

    ghost Value = { List ℕ };

    ghost view = { λ s. s.output };

    ghost invariant = { λ s. IsUtf8 s.output };
}

impl Buffer {
    /// Returns the empty buffer.
    pub fn new(alloc: Global) -> Buffer
        ensures { result ≡ [] }
    {
        let bytes = Vec::new(alloc);
        Buffer {
            output: Filled { bytes, len: 0 },
        }
    }

    /// Returns the empty buffer with capacity for this many bytes: output of up to that length is never moved.
    ///
    /// The capacity is not initialized. An error means that an allocation failed.
    pub fn with_capacity(alloc: Global, capacity: usize) -> Result<Buffer, AllocError>
        ensures { IfOk result (λ b. b ≡ []) }
    {
        // The last short string is also stored as `LOAD` bytes, possibly after a space.
        let bytes = Vec::with_capacity(alloc, capacity.saturating_add(LOAD + 1))?;
        Ok(Buffer {
            output: Filled { bytes, len: 0 },
        })
    }

    /// Appends a space if `is_spaced`, then `text`. `from` must begin with `text`.
    ///
    /// An error means that an allocation failed.
    #[inline(always)]
    pub fn push_spaced(&mut self, is_spaced: bool, text: &str, from: &str) -> Result<(), AllocError>
        requires { take (length text.now) from.now ≡ text.now }
        ensures { OnOk result (self.new ≡ self.old ++ (space_if is_spaced ++ text.now)) }
    {
        self.output
            .append_spaced(is_spaced, text.as_bytes(), from.as_bytes())
    }

    /// Returns the output.
    pub fn into_string(self) -> String
        ensures { string_bytes result ≡ self }
    {
        let Buffer { output } = self;
        let Filled { mut bytes, len } = output;
        bytes.truncate(len);
        // SAFETY: by the invariant of `Buffer` the first `len` bytes are UTF-8.
        unsafe { String::from_utf8_unchecked(bytes) }
    }
}

impl Sink for Buffer {
    type Error = AllocError;

    ghost took = { λ s text t. t ≡ s ++ text };

    ghost took_nil = { list_nil };

    ghost took_more = { list_more };

    #[inline(always)]
    fn push_str(&mut self, text: &str) -> Result<(), AllocError> {
        self.output.append(text.as_bytes())
    }

    #[inline(always)]
    fn push_two(&mut self, first: &str, second: &str) -> Result<(), AllocError> {
        self.push_three(first, second, "")
    }

    #[inline(always)]
    fn push_three(&mut self, first: &str, second: &str, third: &str) -> Result<(), AllocError> {
        self.output
            .append_three(first.as_bytes(), second.as_bytes(), third.as_bytes())
    }

    #[inline(always)]
    fn push_start(&mut self, text: &str, from: &str) -> Result<(), AllocError> {
        self.output.append_start(text.as_bytes(), from.as_bytes())
    }
}
