//! The lines of a reader, handed to a value that takes them.

ghost use Rattle.std.specs.Prelude.{◌≡◌, ◌≤◌, IfErr, ◌&&◌, ◌==◌};
ghost use Rattle.json_lines.specs.InputRead.{LinesRead};
ghost use Rattle.json_lines.specs.Json.{taken_line};
ghost use Rattle.json_lines.specs.Reading.{cause_of, IsOfSomeLine};

use crate::lines::{CHUNK, InputFault};
use crate::next::LineReader;
use crate::taking::{LineCause, TakeJson};
use devices::Source;
use std::alloc::Global;
use std::fmt::Display;
use thiserror::Error;

/// Why reading stopped: the input, or what a line says.
#[derive(Clone, Copy, Debug, PartialEq, Eq, Drop, Error)]
#[error_bound(C: Display)]
pub enum Stop<C> {
    #[error("{0}")]
    Input(InputFault),
    #[error("{0}")]
    Line(C),
}

/// The line at which reading stopped, from 1.
#[derive(Clone, Copy, Debug, PartialEq, Eq, Drop, Error)]
#[error_bound(C: Display)]
#[error("line {line}: {stop}")]
pub struct LineFault<C> {
    pub line: u64,
    pub stop: Stop<C>,
}

impl<C: LineCause> LineFault<C> {
    /// Why, whether the input or the line gave it.
    pub fn cause(self) -> C
        ensures { result ≡ cause_of C.of_input self.stop }
    {
        match self.stop {
            Stop::Line(cause) => cause,
            Stop::Input(fault) => C::of_input(fault),
        }
    }
}

/// How many bytes a line may have, without its newline.
pub const MAX_LINE: usize = 1 << 20;

/// How many bytes an input may have.
pub const MAX_INPUT: usize = 1 << 30;

/// Whether the newline of a line is past the end of what may come.
pub(crate) fn is_over(more: bool, len: usize, room: usize) -> bool
    ensures { result ≡ (more && (len == room)) }
{
    more && len == room
}

/// Hands the lines of a reader to `value`, up to the first that is refused.
///
/// A line has at most 2^20 bytes without its newline, and the input 2^30 bytes, so that input that never ends is
/// refused: at most 2^30 + 65,536 bytes are taken from the reader. Any failure of the reader ends the reading.
/// A refusal holds of every input that begins with the bytes that the reader gave.
pub fn read_lines<R: Source, T: TakeJson>(
    alloc: Global,
    reader: &mut R,
    value: &mut T,
) -> Result<(), LineFault<T::Cause>>
    requires { T.next value.old ≤ 1 }
    ensures read { LinesRead R.given R.ends R.failures R.remaining (taken_line T.Cause.not_json T.taken)
        reader.old reader.new value.old value.new result }
    // A cause is what some line gave.
    ensures told { IfErr result (IsOfSomeLine (taken_line T.Cause.not_json T.taken)) }
{
    let mut lines = match LineReader::new(alloc) {
        Ok(lines) => lines,
        Err(_) => return Err(LineFault {
            line: 1,
            stop: Stop::Input(InputFault::OutOfMemory),
        }),
    };
    // bounded by the room for an input, of which each line takes some
    loop {
        match lines.take_next(reader, value) {
            Ok(true) => {}
            Ok(false) => return Ok(()),
            Err(fault) => return Err(fault),
        }
    }
}
