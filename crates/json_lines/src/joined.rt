//! Joined input: a front of lines, a line that is exactly `---`, and what stands behind it.

ghost use Rattle.std.specs.Prelude.{◌≡◌, ◌≢◌, ◌+◌, ◌≤◌, ◌<◌, ℕ, length, Option, None, Some, Ok, Err, IfOk, IfErr, OnOk, IfSome, true, false, ◌&&◌};
ghost use Rattle.devices.specs.Given.{OfBytes, OfWhole, AreNext};
ghost use Rattle.json_lines.specs.Joined.{is_marker, joined_of, line_taken, IsTaken, IsFront, IsNextLine, IsPart, AsksFor, RestRead, ends_left};
ghost use Rattle.json_lines.specs.Json.{taken_line};
ghost use Rattle.json_lines.specs.Reading.{read_all, Reads, IsOfSomeLine, IsOfLine};
ghost use Rattle.json_lines.specs.declared.lines.InputFault.TheVariants.{Read, TooLong, OutOfMemory};

use crate::lines::{CHUNK, InputFault, Lines};
use crate::reading::{LineFault, MAX_INPUT, MAX_LINE, Stop, is_over};
use crate::taking::{TakeJson, take_line};
use devices::Source;
use std::alloc::Global;
use std::marker::Model;

/// What the lines in front of the marker were.
#[derive(Drop)]
pub struct Front<C> {
    /// The first of them that is refused.
    pub read: Result<(), LineFault<C>>,
    /// What stands behind the marker; none where the input ended without one.
    pub rest: Option<Rest>,
}

/// What stands behind the marker.
#[derive(Drop)]
pub struct Rest {
    lines: Lines,
    room: usize,
    ended: bool,
}

impl Model for Rest {
    ghost use Rattle.std.specs.Prelude.{◌≡◌, ◌^◌, ◌≤◌, [], true};
    ghost use Rattle.json_lines.specs.Joined.{RestValue};

    ghost Value = { RestValue };

    ghost view = { λ s. record { at_hand = s.lines; room = s.room; ended = s.ended } };

    ghost invariant = { λ s. (s.ended ≡ true → s.lines ≡ []) × (s.room ≤ 2 ^ 30) };
}

/// Whether a line that was read is the marker, where that is sought.
fn is_marker(sought: bool, whole: bool, line: &[u8]) -> bool
    ensures { result ≡ (sought && (whole && is_marker line.now)) }
{
    sought && whole && line == b"---".as_slice()
}

/// Takes a line of which all is there, and refuses another.
fn take_whole<T: TakeJson>(
    value: &mut T,
    number: u64,
    line: &[u8],
    whole: bool,
) -> Result<Result<(), LineFault<T::Cause>>, InputFault>
    requires { T.next value.old ≤ number }
    ensures exact { IfOk result
        (λ read. Reads read value.new (line_taken (taken_line T.Cause.not_json T.taken) whole number value.old line.now)) }
    ensures refused { IfOk result (λ read. IfErr read
        (λ e. IsOfLine e.stop × IsOfSomeLine (taken_line T.Cause.not_json T.taken) e)) }
    ensures further { IfOk result (λ read. OnOk read (T.next value.new ≤ number + 1)) }
    ensures memory { IfErr result (λ e. e ≡ OutOfMemory) }
{
    if !whole {
        return Ok(Err(LineFault {
            line: number,
            stop: Stop::Input(InputFault::TooLong),
        }));
    }
    match take_line(value, number, line) {
        Ok(()) => Ok(Ok(())),
        Err(Stop::Line(cause)) => Ok(Err(LineFault {
            line: number,
            stop: Stop::Line(cause),
        })),
        Err(Stop::Input(_)) => Err(InputFault::OutOfMemory),
    }
}

/// Hands the lines of a reader up to the first that is exactly `---`, from number 1 on, to `value`, up to the first
/// that is refused. The others are passed over.
///
/// An error is of the whole input: the reader failed, there are more than 2^30 bytes, or memory ran out.
pub fn read_front<R: Source, T: TakeJson>(
    alloc: Global,
    reader: &mut R,
    value: &mut T,
) -> Result<Front<T::Cause>, InputFault>
    requires { T.next value.old ≤ 1 }
    // Where there is a marker: what the lines before it made of the value, or which is the first that is refused.
    ensures front { IfOk result (λ f. IfSome f.rest
        (λ rest. IsFront (R.given reader.old) (R.given reader.new) rest (λ front.
        Reads f.read value.new (read_all (taken_line T.Cause.not_json T.taken) true value.old front)))) }
    ensures none { IfOk result (λ f. f.rest ≡ None
        → OfWhole R.given R.ends reader.old reader.new (λ came. joined_of came ≡ None)) }
    ensures refused { IfOk result (λ f. IfErr f.read
        (λ e. IsOfLine e.stop × IsOfSomeLine (taken_line T.Cause.not_json T.taken) e)) }
    ensures ended { IfOk result (λ f. IfSome f.rest
        (λ rest. R.ends reader.new + ends_left rest.ended ≡ R.ends reader.old + 1)) }
    ensures long { result ≡ Err TooLong → OfBytes R.given reader.old reader.new (λ came. MAX_INPUT < length came) }
    // Also of a reader that never ends.
    ensures most { OfBytes R.given reader.old reader.new (λ came. length came ≤ MAX_INPUT + CHUNK) }
    ensures known { AreNext R.given R.ends R.remaining reader.old reader.new }
    // A reader's failure alone gives this error.
    ensures failed { result ≡ Err Read → R.failures reader.new ≡ R.failures reader.old + 1 }
    ensures kept { result ≢ Err Read → R.failures reader.new ≡ R.failures reader.old }
{
    let mut rest = Rest {
        lines: Lines::new(alloc)?,
        room: MAX_INPUT,
        ended: false,
    };
    let (read, found) = rest.part(alloc, reader, value, true)?;
    Ok(Front {
        read,
        rest: found.then_some(rest),
    })
}

impl Rest {
    /// Hands the lines behind the marker, from number 1 on, to `value`, up to the first that is refused, and reads
    /// the others to the reader's end. The reader is that of the front.
    ///
    /// An error is of the whole input: the reader failed, there are more than 2^30 bytes with those of the front, or
    /// memory ran out.
    pub fn read<R: Source, T: TakeJson>(
        mut self,
        alloc: Global,
        reader: &mut R,
        value: &mut T,
    ) -> Result<Result<(), LineFault<T::Cause>>, InputFault>
        requires { T.next value.old ≤ 1 }
        // What the lines made of the value, or which is the first that is refused.
        ensures exact { IfOk result (λ read. IsTaken (R.given reader.old) (R.given reader.new) self.at_hand
            (λ input. (length input ≤ self.room)
            × Reads read value.new (read_all (taken_line T.Cause.not_json T.taken) true value.old input))) }
        ensures refused { IfOk result (λ read. IfErr read
            (λ e. IsOfLine e.stop × IsOfSomeLine (taken_line T.Cause.not_json T.taken) e)) }
        ensures read { RestRead self R.given R.ends R.failures R.remaining reader.old reader.new result }
    {
        if self.ended {
            return Ok(Ok(()));
        }
        let (read, _) = self.part(alloc, reader, value, false)?;
        Ok(read)
    }

    /// Passes over what stands behind the marker, to the reader's end. The errors are those of [`Rest::read`].
    pub fn pass<R: Source>(mut self, alloc: Global, reader: &mut R) -> Result<(), InputFault>
        ensures taken { OnOk result (IsTaken (R.given reader.old) (R.given reader.new) self.at_hand
            (λ input. length input ≤ self.room)) }
        ensures read { RestRead self R.given R.ends R.failures R.remaining reader.old reader.new result }
    {
        let mut line = Vec::new(alloc);
        while !self.ended {
            self.next(reader, &mut line)?;
        }
        Ok(())
    }

    /// Takes the next line, and says whether all of it is in `line`. One with more than 2^20 bytes is passed over.
    fn next<R: Source>(&mut self, reader: &mut R, line: &mut Vec<u8>) -> Result<bool, InputFault>
        requires { self.old.ended ≡ false }
        ensures line { IfOk result
            (λ whole. IsNextLine (R.given reader.old) (R.given reader.new) self.old self.new whole line.new.items) }
        ensures ended { OnOk result (R.ends reader.new + ends_left self.new.ended ≡ R.ends reader.old + 1) }
        ensures asked { AsksFor self.old R.given R.ends R.failures R.remaining reader.old reader.new result }
    {
        let mut whole = true;
        'pieces: loop {
            match self.lines.next(reader, self.room.min(MAX_LINE), line) {
                Ok(more) => {
                    if is_over(more, line.len(), self.room) {
                        return Err(InputFault::TooLong);
                    }
                    self.room -= line.len() + usize::from(more);
                    self.ended = !more;
                    return Ok(whole);
                }
                Err(fault) => {
                    if fault != InputFault::TooLong || self.room < MAX_LINE {
                        return Err(fault);
                    }
                    self.room -= line.len();
                    whole = false;
                }
            }
        }
    }

    /// Hands lines to `value`, up to the first that is refused: those before the marker, where it is sought, or those
    /// to the reader's end. Says what they were, and whether the marker was found.
    fn part<R: Source, T: TakeJson>(
        &mut self,
        alloc: Global,
        reader: &mut R,
        value: &mut T,
        marked: bool,
    ) -> Result<(Result<(), LineFault<T::Cause>>, bool), InputFault>
        requires first { T.next value.old ≤ 1 }
        requires unended { self.old.ended ≡ false }
        requires room { self.old.room ≤ MAX_INPUT }
        ensures part { IfOk result
            (λ p. IsPart (taken_line T.Cause.not_json T.taken) (R.given reader.old) (R.given reader.new) self.old self.new value.old value.new marked p.0 p.1) }
        ensures refused { IfOk result (λ p. IfErr p.0
            (λ e. IsOfLine e.stop × IsOfSomeLine (taken_line T.Cause.not_json T.taken) e)) }
        ensures ended { OnOk result (R.ends reader.new + ends_left self.new.ended ≡ R.ends reader.old + 1) }
        ensures asked { AsksFor self.old R.given R.ends R.failures R.remaining reader.old reader.new result }
    {
        let mut line = Vec::new(alloc);
        let mut read = Ok(());
        let mut number = 1;
        while !self.ended {
            let whole = self.next(reader, &mut line)?;
            if is_marker(marked, whole, &line) {
                return Ok((read, true));
            }
            if read.is_ok() {
                read = take_whole(value, number, &line, whole)?;
                number += 1;
            }
        }
        Ok((read, false))
    }
}
