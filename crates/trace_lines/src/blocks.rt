//! A trace as what its lines say by themselves, put in line by line.

use crate::builder::TraceBuilder;
use crate::cause::Cause;
use crate::line::TraceLine;
use json_lines::{InputFault, LineCause, Stop, is_blank};
use line_blocks::{PutTold, TellLine};
use simdutf8::basic::from_utf8;
use std::alloc::{AllocError, Global};

/// What lines of a trace say is told by their texts alone.
#[derive(Drop)]
pub(crate) struct TraceLines;

impl TellLine for TraceLines {
    ghost use Rattle.std.specs.Prelude.{⊤};
    ghost use Rattle.trace_lines.specs.LinesTold.{line_told};

    // None of a line that is blank.
    type Value = Option<TraceLine>;

    type Cause = Cause;

    type Scratch = ();

    // What lines say is put in meanwhile, which takes one worker about as long as telling it takes the others
    // together: so there are many blocks.
    const BLOCK: usize = 1 << 16;

    const PUTTERS: usize = 1;

    const WAVE: usize = 2;

    ghost told = { λ _ line. line_told line };

    ghost suits = { λ _ _. ⊤ };

    fn scratch(&self, _alloc: Global) {}

    fn tell(
        &self,
        alloc: Global,
        _scratch: &mut (),
        line: &[u8],
    ) -> Result<Result<Option<TraceLine>, Cause>, AllocError> {
        if is_blank(line) {
            return Ok(Ok(None));
        }
        let Ok(text) = from_utf8(line) else {
            return Ok(Err(Cause::NotJson));
        };
        match TraceLine::read(alloc, text) {
            Ok(said) => Ok(Ok(Some(said))),
            Err(cause) if cause.is_memory() => Err(AllocError),
            Err(cause) => Ok(Err(cause)),
        }
    }
}

impl PutTold<TraceLines> for TraceBuilder {
    ghost use Rattle.trace_lines.specs.Values.{next_line};
    ghost use Rattle.trace_lines.specs.LinesTold.{put_told};

    ghost next = { next_line };

    ghost put = { put_told };

    fn put(&mut self, number: u64, line: Option<TraceLine>) -> Result<(), Stop<Cause>> {
        let Some(said) = line else {
            return Ok(());
        };
        match self.put_line(number, said) {
            Ok(()) => Ok(()),
            Err(cause) if cause.is_memory() => Err(Stop::Input(InputFault::OutOfMemory)),
            Err(cause) => Err(Stop::Line(cause)),
        }
    }
}
