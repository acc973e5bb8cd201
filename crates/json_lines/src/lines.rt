//! The lines of a reader, out of a buffer before it.

ghost use Rattle.std.specs.Prelude.{◌≡◌, ◌≢◌, ◌+◌, ◌-◌, ◌<◌, ◌≤◌, ◌++◌, ℕ, List, [], length, take, drop, vec_len, Ok, Err, true, false, IfOk, OnOk, IfErr, ◌⊎◌};
ghost use Rattle.devices.specs.Given.{AreNext};
ghost use Rattle.json_lines.specs.Lines.{line_len, first_line, after_line, has_newline, lacks, line_ending, Takes, BeginsTooLong, ComeAtMost};
ghost use Rattle.devices.specs.Moves.{failure_count, end_count};
ghost use Rattle.json_lines.specs.declared.lines.TheConstants.{CHUNK};
ghost use Rattle.json_lines.specs.declared.lines.InputFault.TheVariants.{Read, TooLong, OutOfMemory};

use devices::Source;
use memchr::memchr;
use std::alloc::{AllocError, Global};
use std::io;
use std::marker::Model;
use thiserror::Error;

/// Why the bytes of an input ended before their end.
#[derive(Clone, Copy, Debug, PartialEq, Eq, Error)]
pub enum InputFault {
    /// The reader failed.
    #[error("read fault")]
    Read,
    /// A line or the input is longer than it may be.
    #[error("too long")]
    TooLong,
    #[error("out of memory")]
    OutOfMemory,
}

impl From<AllocError> for InputFault {
    ghost from_gives = { λ _ e. e ≡ OutOfMemory };

    fn from(_: AllocError) -> InputFault {
        InputFault::OutOfMemory
    }
}

/// What was read and not yet taken. Contracts see it as the list of these bytes.
#[derive(Drop)]
pub struct Lines {
    chunk: Vec<u8>,
    at: usize,
    end: usize,
}

impl Model for Lines {
    ghost Value = { List ℕ };

    ghost view = { λ s. take (s.end - s.at) (drop s.at s.chunk.items) };

    ghost invariant = { λ s. (s.at ≤ s.end) × (s.end ≤ vec_len s.chunk) × (vec_len s.chunk ≡ CHUNK) };
}

/// How many bytes come before the first newline, or all.
pub fn line_end(bytes: &[u8]) -> usize
    ensures { result ≡ line_len bytes.now }
{
    memchr(b'\n', bytes).unwrap_or(bytes.len())
}

/// How many bytes a reader is asked for at a time.
pub const CHUNK: usize = 65536;

impl Lines {
    pub fn new(alloc: Global) -> Result<Lines, AllocError>
        ensures { IfOk result (λ s. s ≡ []) }
    {
        Ok(Lines {
            chunk: vec![in alloc; 0u8; CHUNK]?,
            at: 0,
            end: 0,
        })
    }

    /// Whether a whole line is there, with its newline.
    pub fn holds_line(&self) -> bool
        ensures holds { result ≡ has_newline self.now }
        ensures few { length self.now ≤ CHUNK }
    {
        let pending = self.pending();
        line_end(pending) < pending.len()
    }

    fn pending(&self) -> &[u8]
        ensures bytes { result.now ≡ self.now }
        ensures few { length self.now ≤ CHUNK }
    {
        &self.chunk[self.at..self.end]
    }

    /// Takes away the first `n` bytes, or all.
    fn skip(&mut self, n: usize)
        ensures { self.new ≡ drop n self.old }
    {
        let rest = self.end - self.at;
        self.at += n.min(rest);
    }

    /// Reads more, and says whether anything came.
    fn refill<R: Source>(&mut self, reader: &mut R) -> io::Result<bool>
        requires { self.old ≡ [] }
        ensures came { R.given reader.new ≡ R.given reader.old ++ self.new }
        ensures few { length self.new ≤ CHUNK }
        ensures known { AreNext R.given R.ends R.remaining reader.old reader.new }
        ensures some { result ≡ Ok true → 0 < length self.new }
        ensures none { result ≢ Ok true → self.new ≡ [] }
        ensures ends { R.ends reader.new ≡ R.ends reader.old + end_count result }
        ensures failures { R.failures reader.new ≡ R.failures reader.old + failure_count result }
    {
        self.at = 0;
        self.end = 0;
        let n = reader.give(&mut self.chunk)?;
        self.end = n;
        Ok(n != 0)
    }

    /// Reads more where nothing is left, and says whether anything is there.
    fn ready<R: Source>(&mut self, reader: &mut R) -> io::Result<bool>
        ensures came { Takes (R.given reader.old) (R.given reader.new) self.old self.new [] }
        ensures few { length self.new ≤ CHUNK }
        ensures held { line_len self.old ≤ line_len self.new }
        ensures known { AreNext R.given R.ends R.remaining reader.old reader.new }
        ensures some { result ≡ Ok true → 0 < length self.new }
        ensures none { result ≢ Ok true → self.new ≡ [] }
        ensures ends { R.ends reader.new ≡ R.ends reader.old + end_count result }
        ensures failures { R.failures reader.new ≡ R.failures reader.old + failure_count result }
    {
        if self.pending().is_empty() {
            self.refill(reader)
        } else {
            Ok(true)
        }
    }

    /// Takes the bytes before the newline, or all that are there, and says whether the newline was there.
    fn take_piece(&mut self, max: usize, line: &mut Vec<u8>) -> Result<bool, InputFault>
        requires { vec_len line.old ≤ max }
        ensures ok { IfOk result (λ found. (line.new.items ≡ line.old.items ++ first_line self.old)
            × (found ≡ has_newline self.old) × (self.new ≡ after_line self.old)) }
        ensures bound { OnOk result (vec_len line.new ≤ max) }
        ensures whole { result ≡ Ok false → vec_len line.new ≡ vec_len line.old + length self.old }
        ensures long { result ≡ Err TooLong → (max < vec_len line.old + line_len self.old)
            × (line.new.items ≡ line.old.items) × (self.new ≡ self.old) }
        ensures causes { IfErr result (λ e. (e ≡ TooLong) ⊎ (e ≡ OutOfMemory)) }
    {
        let pending = self.pending();
        let n = line_end(pending);
        if n > max - line.len() {
            return Err(InputFault::TooLong);
        }
        line.extend_from_slice(&pending[..n])?;
        let found = n < pending.len();
        self.skip(n + 1);
        Ok(found)
    }

    /// Takes the next line, without its newline, and says whether it has one.
    pub fn next<R: Source>(
        &mut self,
        reader: &mut R,
        max: usize,
        line: &mut Vec<u8>,
    ) -> Result<bool, InputFault>
        // It is the first of the bytes that were at hand and came, with its newline.
        ensures line { IfOk result (λ more. (lacks line.new.items ≡ true)
            × Takes (R.given reader.old) (R.given reader.new) self.old self.new (line.new.items ++ line_ending more)) }
        ensures last { result ≡ Ok false → self.new ≡ [] }
        ensures bound { OnOk result (vec_len line.new ≤ max) }
        ensures reached { OnOk result (line_len self.old ≤ vec_len line.new) }
        ensures long { result ≡ Err TooLong → BeginsTooLong max (R.given reader.old) (R.given reader.new) self.old }
        // The line is then what was taken of it, and more of it is at hand.
        ensures stuck { result ≡ Err TooLong
            → Takes (R.given reader.old) (R.given reader.new) self.old self.new line.new.items
            × (lacks line.new.items ≡ true) × (vec_len line.new ≤ max) × (max < vec_len line.new + line_len self.new)
            × (max < vec_len line.new + CHUNK) }
        // Where the reader fails, the line is what came of it before.
        ensures cut { result ≡ Err Read → Takes (R.given reader.old) (R.given reader.new) self.old [] line.new.items
            × (lacks line.new.items ≡ true) × (vec_len line.new ≤ max) }
        ensures most { ComeAtMost (max + CHUNK) (R.given reader.old) (R.given reader.new) self.old }
        ensures known { AreNext R.given R.ends R.remaining reader.old reader.new }
        ensures ends { R.ends reader.new ≡ R.ends reader.old + end_count result }
        // A reader's failure alone gives this error.
        ensures failed { result ≡ Err Read → R.failures reader.new ≡ R.failures reader.old + 1 }
        ensures kept { result ≢ Err Read → R.failures reader.new ≡ R.failures reader.old }
    {
        line.clear();
        for _turn in 0..u64::MAX {
            match self.ready(reader) {
                Ok(true) => {}
                Ok(false) => return Ok(false),
                Err(_) => return Err(InputFault::Read),
            }
            if self.take_piece(max, line)? {
                return Ok(true);
            }
        }
        Err(InputFault::TooLong)
    }
}
