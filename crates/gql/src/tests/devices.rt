//! A reader and a writer that fail on purpose.
use std::alloc::Global;
use std::io;
use std::io::{ErrorKind, Read, Write};

/// Returns its bytes, at most `step` in a call, and fails at the call numbered `failing`.
#[derive(Drop)]
pub struct Source<'a> {
    pub left: &'a [u8],
    pub step: usize,
    pub calls: usize,
    pub failing: usize,
    pub kind: ErrorKind,
}

impl<'a> Source<'a> {
    /// Never fails.
    pub fn of(text: &'a [u8]) -> Self {
        Source {
            left: text,
            step: 4096,
            calls: 0,
            failing: 0,
            kind: ErrorKind::Other,
        }
    }
}

impl<'a> Read for Source<'a> {
    fn read(&mut self, buf: &mut [u8]) -> io::Result<usize> {
        self.calls = self.calls.saturating_add(1);
        if self.calls == self.failing {
            return Err(io::Error::from(self.kind));
        }
        let count = self.left.len().min(self.step).min(buf.len());
        let (given, left) = self.left.split_at(count);
        buf[..count].copy_from_slice(given);
        self.left = left;
        Ok(count)
    }
}

/// Takes at most `step` bytes in a call. Fails at the call numbered `failing`, and at each flush unless `flushes`.
/// `flushed` counts the flushes, also failed ones.
#[derive(Drop)]
pub struct Sink {
    pub taken: Vec<u8>,
    pub step: usize,
    pub calls: usize,
    pub failing: usize,
    pub flushes: bool,
    pub flushed: usize,
    pub kind: ErrorKind,
}

impl Sink {
    /// Never fails.
    pub fn new(alloc: Global) -> Self {
        Sink {
            taken: Vec::new(alloc),
            step: 4096,
            calls: 0,
            failing: 0,
            flushes: true,
            flushed: 0,
            kind: ErrorKind::BrokenPipe,
        }
    }
}

impl Write for Sink {
    fn write(&mut self, buf: &[u8]) -> io::Result<usize> {
        self.calls = self.calls.saturating_add(1);
        if self.calls == self.failing {
            return Err(io::Error::from(self.kind));
        }
        let count = buf.len().min(self.step);
        match self.taken.extend_from_slice(&buf[..count]) {
            Ok(()) => Ok(count),
            Err(_) => Err(io::Error::from(ErrorKind::OutOfMemory)),
        }
    }

    fn flush(&mut self) -> io::Result<()> {
        self.flushed = self.flushed.saturating_add(1);
        if self.flushes {
            Ok(())
        } else {
            Err(io::Error::from(self.kind))
        }
    }
}
