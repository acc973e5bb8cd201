//! A reader or a writer with its history.

ghost use Rattle.std.specs.Prelude.{◌≡◌, []};
ghost use Rattle.devices.specs.Devices.{counted_inner, moved_by, failures_of, stops_of, flushes_of, since_of};

use crate::moved::Moved;
use crate::source::{Sink, Source};
use std::io;
use std::io::{Read, Write};

/// A reader or a writer with its history. At run time it is just the reader or writer.
#[derive(Drop)]
pub struct Counted<X> {
    inner: X,
    moved: Moved,
}

impl<X> Counted<X> {
    /// The reader or writer, before its first call.
    pub fn new(inner: X) -> Counted<X>
        ensures inner { counted_inner result ≡ inner }
        ensures moved { moved_by result ≡ [] }
        ensures failures { failures_of result ≡ 0 }
        ensures stops { stops_of result ≡ 0 }
        ensures flushes { flushes_of result ≡ 0 }
        ensures since { since_of result ≡ 0 }
    {
        Counted {
            inner,
            moved: Moved::new(),
        }
    }

    /// The reader or writer, without its history.
    pub fn into_inner(self) -> X
        ensures { result ≡ counted_inner self }
    {
        self.inner
    }
}

impl<R: Read> Read for Counted<R> {
    ghost remaining = { λ s. R.remaining (counted_inner s) };

    fn read(&mut self, buf: &mut [u8]) -> io::Result<usize> {
        self.give(buf)
    }
}

impl<R: Read> Source for Counted<R> {
    ghost given = { moved_by };

    ghost failures = { failures_of };

    ghost ends = { stops_of };

    fn give(&mut self, buf: &mut [u8]) -> io::Result<usize> {
        let read = self.inner.read(buf);
        self.moved.add(&read, buf);
        read
    }
}

impl<W: Write> Write for Counted<W> {
    ghost contents = { λ s. W.contents (counted_inner s) };

    fn write(&mut self, buf: &[u8]) -> io::Result<usize> {
        self.take_some(buf)
    }

    fn flush(&mut self) -> io::Result<()> {
        self.finish()
    }
}

impl<W: Write> Sink for Counted<W> {
    ghost taken = { moved_by };

    ghost failures = { failures_of };

    ghost idle = { stops_of };

    ghost flushes = { flushes_of };

    ghost since = { since_of };

    fn take_some(&mut self, buf: &[u8]) -> io::Result<usize> {
        let written = self.inner.write(buf);
        self.moved.add(&written, buf);
        written
    }

    fn finish(&mut self) -> io::Result<()> {
        let done = self.inner.flush();
        self.moved.add_flush(&done);
        done
    }
}
