//! A reader or writer whose failures are counted.
ghost use Rattle.std.specs.Prelude.{◌≡◌, ◌<◌, ◌-◌, length};
ghost use Rattle.std.specs.Io.{ReadsAtMost, WritesAtMost};
ghost use Rattle.std.specs.Io.KnownBytes.{ReadConsumes, WriteAppends, Keeps};
ghost use Rattle.gql.specs.{faults_after_read, faults_after_write, faults_after_flush};

use std::io;
use std::io::{Read, Write};
use std::marker::Model;

/// Forwards each call to its device once, and counts the calls that fail.
#[derive(Drop)]
pub struct Counted<D> {
    device: D,
    faults: u64,
}

impl<D> Model for Counted<D> {
    ghost use Rattle.gql.specs.Counting as spec;

    ghost Value = { spec.Counting D };

    ghost view = { λ c. record { device = c.device; faults = c.faults } };
}

impl<D> Counted<D> {
    /// Wraps a device, with a count of 0.
    pub fn new(device: D) -> Self
        ensures device { result.device ≡ device }
        ensures faults { result.faults ≡ 0 }
    {
        Counted { device, faults: 0 }
    }

    /// How many calls failed, at most `u64::MAX`: those that returned an error, and the writes that took 0 bytes of a
    /// non-empty buffer.
    pub fn faults(&self) -> u64
        ensures { result ≡ self.now.faults }
    {
        self.faults
    }
}

impl<R: Read> Read for Counted<R> {
    ghost remaining = { λ c. R.remaining c.device };

    fn read(&mut self, buf: &mut [u8]) -> io::Result<usize>
        ensures bound { ReadsAtMost result buf.new }
        ensures bytes { ReadConsumes (R.remaining self.old.device) (R.remaining self.new.device) result buf.new }
        ensures faults { self.new.faults ≡ faults_after_read self.old.faults result }
    {
        let result = self.device.read(buf);
        if result.is_err() {
            self.faults = self.faults.saturating_add(1);
        }
        result
    }
}

impl<W: Write> Write for Counted<W> {
    ghost contents = { λ c. W.contents c.device };

    fn write(&mut self, buf: &[u8]) -> io::Result<usize>
        ensures bound { WritesAtMost result buf.now }
        ensures bytes { WriteAppends (W.contents self.old.device) (W.contents self.new.device) result buf.now }
        ensures faults { self.new.faults ≡ faults_after_write self.old.faults result (length buf.now) }
    {
        let result = self.device.write(buf);
        let failed = match &result {
            Ok(count) => *count == 0 && !buf.is_empty(),
            Err(_) => true,
        };
        if failed {
            self.faults = self.faults.saturating_add(1);
        }
        result
    }

    fn flush(&mut self) -> io::Result<()>
        ensures bytes { Keeps (W.contents self.old.device) (W.contents self.new.device) }
        ensures faults { self.new.faults ≡ faults_after_flush self.old.faults result }
    {
        let result = self.device.flush();
        if result.is_err() {
            self.faults = self.faults.saturating_add(1);
        }
        result
    }
}
