//! Bytes in memory, as a source.

ghost use Rattle.std.specs.Prelude.{◌≡◌};
ghost use Rattle.devices.specs.Devices.{held_bytes, left_in, given_by, ends_of};

use crate::moved::Moved;
use crate::source::Source;
use std::io;
use std::io::Read;

/// Bytes in memory, as a source that never fails. At run time it is just the bytes that are left.
#[derive(Drop)]
pub struct Held<'a> {
    left: &'a [u8],
    moved: Moved,
}

impl<'a> Held<'a> {
    /// All of the bytes.
    pub fn new(bytes: &'a [u8]) -> Held<'a>
        ensures { held_bytes result ≡ bytes.now }
    {
        Held {
            left: bytes,
            moved: Moved::new(),
        }
    }
}

impl<'a> Read for Held<'a> {
    ghost remaining = { left_in };

    fn read(&mut self, buf: &mut [u8]) -> io::Result<usize> {
        self.give(buf)
    }
}

impl<'a> Source for Held<'a> {
    ghost given = { given_by };

    ghost failures = { λ _. 0 };

    ghost ends = { ends_of };

    fn give(&mut self, buf: &mut [u8]) -> io::Result<usize> {
        let read = self.left.read(buf);
        self.moved.add(&read, buf);
        read
    }
}
