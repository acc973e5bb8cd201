//! Readers and writers of which contracts name what they gave and took, and count what went wrong.

ghost use Rattle.std.specs.Prelude.{◌≡◌, ◌+◌, ◌++◌, ℕ, List, length};
ghost use Rattle.std.specs.Io.{ReadsAtMost, WritesAtMost};
ghost use Rattle.std.specs.Io.KnownBytes.{ReadConsumes, WriteAppends, Keeps};
ghost use Rattle.devices.specs.Moves.{moved, failure_count, stops_after, since_after, since_flush};

use std::io;
use std::io::{Read, Write};

/// A reader of which contracts name all bytes that it gave so far, and how often it failed or was at its end.
pub trait Source: Read {
    ghost given: { Self → List ℕ };

    ghost failures: { Self → ℕ };

    ghost ends: { Self → ℕ };

    /// Reads some bytes. Each call adds to one of the three: it gives bytes, fails, or is at its end, which is
    /// to give no byte where there is room for some.
    fn give(&mut self, buf: &mut [u8]) -> io::Result<usize>
        ensures bound { ReadsAtMost result buf.new }
        ensures gives { given self.new ≡ given self.old ++ moved result buf.new }
        ensures fails { failures self.new ≡ failures self.old + failure_count result }
        ensures stops { ends self.new ≡ stops_after result (length buf.new) (ends self.old) }
        // Where it is known what is left, these are its next bytes.
        ensures bytes { ReadConsumes (Self.remaining self.old) (Self.remaining self.new) result buf.new };
}

/// A writer of which contracts name all bytes that it took so far, and how often it failed, took none of some
/// bytes, or was asked to flush, and how many calls came behind the last one that failed or took none.
pub trait Sink: Write {
    ghost taken: { Self → List ℕ };

    ghost failures: { Self → ℕ };

    ghost idle: { Self → ℕ };

    ghost flushes: { Self → ℕ };

    ghost since: { Self → ℕ };

    /// Writes some of the bytes. Each call adds to one of the first three.
    fn take_some(&mut self, buf: &[u8]) -> io::Result<usize>
        ensures bound { WritesAtMost result buf.now }
        ensures takes { taken self.new ≡ taken self.old ++ moved result buf.now }
        ensures fails { failures self.new ≡ failures self.old + failure_count result }
        ensures stops { idle self.new ≡ stops_after result (length buf.now) (idle self.old) }
        ensures flushes { flushes self.new ≡ flushes self.old }
        ensures since { since self.new ≡ since_after result (length buf.now) (since self.old) }
        // Where it is known what is held, the bytes stand behind it.
        ensures bytes { WriteAppends (Self.contents self.old) (Self.contents self.new) result buf.now };

    /// Flushes.
    fn finish(&mut self) -> io::Result<()>
        ensures takes { taken self.new ≡ taken self.old }
        ensures fails { failures self.new ≡ failures self.old + failure_count result }
        ensures stops { idle self.new ≡ idle self.old }
        ensures flushes { flushes self.new ≡ flushes self.old + 1 }
        ensures since { since self.new ≡ since_flush result (since self.old) }
        ensures bytes { Keeps (Self.contents self.old) (Self.contents self.new) };
}
