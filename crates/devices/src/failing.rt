//! A reader or a writer that fails, for tests.

ghost use Rattle.std.specs.Prelude.{◌≡◌, ◌≤◌, ◌<◌, false};
ghost use Rattle.devices.specs.Devices.{failing_inner};

use std::io;
use std::io::{Error, ErrorKind, Read, Write};

/// A reader or a writer that fails: at one call, or after some bytes.
#[derive(Drop)]
pub struct Failing<X> {
    inner: X,
    calls: u64,
    at_call: u64,
    room: u64,
}

impl<X> Failing<X> {
    /// One that fails at call `call`, counted from 1, a flush included, and at no other.
    pub fn at_call(inner: X, call: u64) -> Failing<X>
        ensures { failing_inner result ≡ inner }
    {
        Failing {
            inner,
            calls: 0,
            at_call: call,
            room: u64::MAX,
        }
    }

    /// One that fails at every call after `bytes` bytes.
    pub fn after(inner: X, bytes: u64) -> Failing<X>
        ensures { failing_inner result ≡ inner }
    {
        Failing {
            inner,
            calls: 0,
            at_call: 0,
            room: bytes,
        }
    }

    /// The reader or writer that fails no more.
    pub fn into_inner(self) -> X
        ensures { result ≡ failing_inner self }
    {
        self.inner
    }

    fn fails(&mut self) -> bool
        ensures kept { self.new.inner ≡ self.old.inner }
        ensures room { result ≡ false → 0 < self.new.room }
    {
        self.calls = self.calls.saturating_add(1);
        self.calls == self.at_call || self.room == 0
    }

    /// How many of `len` bytes may still go through.
    fn part(&self, len: usize) -> usize
        ensures within { result ≤ len }
        ensures some { 0 < self.now.room → 0 < len → 0 < result }
    {
        usize::try_from(self.room).unwrap_or(len).min(len)
    }

    fn spend(&mut self, len: usize)
        ensures { self.new.inner ≡ self.old.inner }
    {
        if self.room != u64::MAX {
            self.room = self.room.saturating_sub(len as u64);
        }
    }
}

impl<R: Read> Read for Failing<R> {
    ghost remaining = { λ s. R.remaining s.inner };

    fn read(&mut self, buf: &mut [u8]) -> io::Result<usize> {
        if self.fails() {
            return Err(Error::from(ErrorKind::Other));
        }
        let part = self.part(buf.len());
        let given = self.inner.read(&mut buf[..part])?;
        self.spend(given);
        Ok(given)
    }
}

impl<W: Write> Write for Failing<W> {
    ghost contents = { λ s. W.contents s.inner };

    fn write(&mut self, buf: &[u8]) -> io::Result<usize> {
        if self.fails() {
            return Err(Error::from(ErrorKind::Other));
        }
        let part = self.part(buf.len());
        let taken = self.inner.write(&buf[..part])?;
        self.spend(taken);
        Ok(taken)
    }

    fn flush(&mut self) -> io::Result<()> {
        if self.fails() {
            return Err(Error::from(ErrorKind::Other));
        }
        self.inner.flush()
    }
}
