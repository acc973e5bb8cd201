//! The lines of a reader, one by one.

ghost use Rattle.std.specs.Prelude.{◌≡◌, ◌≢◌, ◌+◌, ◌≤◌, ◌<◌, ◌^◌, [], length, Ok, true, false, IfOk, IfErr};
ghost use Rattle.devices.specs.Given.{AreNext, OfBytes};
ghost use Rattle.json_lines.specs.InputRead.{LinesRead};
ghost use Rattle.json_lines.specs.Json.{taken_line};
ghost use Rattle.json_lines.specs.Lines.{has_newline};
ghost use Rattle.json_lines.specs.Reading.{IsOfSomeLine, line_count};
ghost use Rattle.json_lines.specs.SoFar.{IsReadSoFar, lines_taken};
ghost use Rattle.json_lines.specs.declared.lines.TheConstants.{CHUNK};
ghost use Rattle.json_lines.specs.declared.reading.TheConstants.{MAX_INPUT};

use crate::lines::{InputFault, Lines};
use crate::reading::{LineFault, MAX_INPUT, MAX_LINE, Stop, is_over};
use crate::taking::{TakeJson, take_line};
use devices::Source;
use std::alloc::{AllocError, Global};

/// What was read of an input and not yet taken, and how far the input's lines were taken.
#[derive(Drop)]
pub struct LineReader {
    pub lines: Lines,
    /// The last line that was taken.
    pub line: Vec<u8>,
    /// The number of the next line, from 1.
    pub number: u64,
    /// How many bytes may still come, with those at hand.
    pub room: usize,
}

impl LineReader {
    /// Of an input of which nothing was read.
    pub fn new(alloc: Global) -> Result<LineReader, AllocError>
        ensures { IfOk result (λ r. (r.lines ≡ []) × (r.number ≡ 1) × (r.room ≡ MAX_INPUT)) }
    {
        Ok(LineReader {
            lines: Lines::new(alloc)?,
            line: Vec::new(alloc),
            number: 1,
            room: MAX_INPUT,
        })
    }

    /// Whether a whole line is at hand, so that the reader is not asked for the next one.
    pub fn holds_line(&self) -> bool
        ensures holds { result ≡ has_newline self.now.lines }
        ensures few { length self.now.lines ≤ CHUNK }
    {
        self.lines.holds_line()
    }

    /// How many lines the input has, where the last was taken: behind the last newline none begins, unless bytes stand
    /// there.
    pub fn count(&self) -> u64
        ensures { result ≡ lines_taken self.now }
    {
        self.number.saturating_sub(u64::from(self.line.is_empty()))
    }

    /// Hands the next line to `value`, and says whether a further one follows. The reader is asked for more only where
    /// no whole line is at hand. It is refused as [`read_lines`](crate::read_lines) is.
    pub fn take_next<R: Source, T: TakeJson>(
        &mut self,
        reader: &mut R,
        value: &mut T,
    ) -> Result<bool, LineFault<T::Cause>>
        requires next { T.next value.old ≤ self.old.number }
        requires room { self.old.number + self.old.room ≤ MAX_INPUT + 1 }
        // Where a line follows, all before it were taken.
        ensures goes { result ≡ Ok true → (first : R) (start : T)
            → IsReadSoFar R.given R.ends R.failures R.remaining (taken_line T.Cause.not_json T.taken)
            first reader.old start value.old self.old
            → IsReadSoFar R.given R.ends R.failures R.remaining (taken_line T.Cause.not_json T.taken)
            first reader.new start value.new self.new }
        ensures next { result ≡ Ok true → (self.new.number ≡ self.old.number + 1)
            × (T.next value.new ≤ self.new.number) }
        ensures room { result ≡ Ok true → (self.new.number + self.new.room ≤ MAX_INPUT + 1)
            × (self.new.room < self.old.room) }
        // Else the reading has ended, or a line is refused.
        ensures read { result ≢ Ok true → (first : R) (start : T)
            → IsReadSoFar R.given R.ends R.failures R.remaining (taken_line T.Cause.not_json T.taken)
            first reader.old start value.old self.old
            → LinesRead R.given R.ends R.failures R.remaining (taken_line T.Cause.not_json T.taken)
            first reader.new start value.new result }
        // Behind the last line it counts those of the input.
        ensures last { result ≡ Ok false → (first : R) (start : T)
            → IsReadSoFar R.given R.ends R.failures R.remaining (taken_line T.Cause.not_json T.taken)
            first reader.old start value.old self.old
            → OfBytes R.given first reader.new (λ a. lines_taken self.new ≡ line_count a) }
        // What came is the next of what the reader had left, where that is known.
        ensures known { AreNext R.given R.ends R.remaining reader.old reader.new }
        // A cause is what some line gave.
        ensures told { IfErr result (IsOfSomeLine (taken_line T.Cause.not_json T.taken)) }
    {
        let number = self.number;
        let more = match self
            .lines
            .next(reader, self.room.min(MAX_LINE), &mut self.line)
        {
            Ok(more) => more,
            Err(fault) => return Err(LineFault {
                line: number,
                stop: Stop::Input(fault),
            }),
        };
        if is_over(more, self.line.len(), self.room) {
            return Err(LineFault {
                line: number,
                stop: Stop::Input(InputFault::TooLong),
            });
        }
        if let Err(stop) = take_line(value, number, &self.line) {
            return Err(LineFault { line: number, stop });
        }
        if more {
            self.room -= self.line.len() + 1;
            self.number += 1;
        }
        Ok(more)
    }
}
