//! Evidence as what its lines say by themselves, put into the judgements.

ghost use Rattle.std.specs.Prelude.{◌≡◌};

use crate::alone::{Verdict, judge_alone};
use crate::asked_rules::AskedRules;
use crate::cause::EvidenceCause;
use crate::judging::Judging;
use crate::placed::EntryLines;
use json_lines::{LineCause, Stop, is_blank};
use line_blocks::{PutTold, TellLine};
use simdutf8::basic::from_utf8;
use std::alloc::{AllocError, Global};
use trace_lines::Trace;

/// What lines of evidence say is told by a trace.
#[derive(Drop)]
pub(crate) struct Records<'t> {
    pub(crate) trace: &'t Trace,
    pub(crate) lines: EntryLines,
}

/// What a thread keeps from one record to the next: the rules that it asked, and the place behind the entry that it
/// found last.
#[derive(Drop)]
pub(crate) struct Desk<'t> {
    asked: AskedRules<'t>,
    next: usize,
}

impl<'t> TellLine for Records<'t> {
    ghost use Rattle.evidence_check.specs.Verdicts.{verdict_told};

    type Value = Option<Verdict>;

    type Cause = EvidenceCause;

    type Scratch = Desk<'t>;

    // Small, so that the threads end at about one time; what was asked of rules is kept for all blocks that one takes.
    const BLOCK: usize = 1 << 16;

    const PUTTERS: usize = 0;

    // All that one call of the reader gives, since putting a verdict in takes next to nothing.
    const WAVE: usize = 16;

    ghost told = { λ r line. verdict_told r.trace.now r.lines line };

    ghost suits = { λ r desk. desk.asked ≡ r.trace.now };

    fn scratch(&self, alloc: Global) -> Desk<'t> {
        Desk {
            asked: AskedRules::new(alloc, self.trace),
            next: 0,
        }
    }

    fn tell(
        &self,
        alloc: Global,
        desk: &mut Desk<'t>,
        line: &[u8],
    ) -> Result<Result<Option<Verdict>, EvidenceCause>, AllocError> {
        if is_blank(line) {
            return Ok(Ok(None));
        }
        let Ok(text) = from_utf8(line) else {
            return Ok(Err(EvidenceCause::NotJson));
        };
        match judge_alone(alloc, &mut desk.asked, &self.lines, &mut desk.next, text) {
            Ok(verdict) => Ok(Ok(Some(verdict))),
            Err(cause) if cause.is_memory() => Err(AllocError),
            Err(cause) => Ok(Err(cause)),
        }
    }
}

impl<'t> PutTold<Records<'t>> for Judging<'t> {
    ghost use Rattle.evidence_check.specs.Verdicts.{put_verdict};

    ghost next = { λ _. 0 };

    ghost put = { λ _. put_verdict };

    fn put(&mut self, _number: u64, value: Option<Verdict>) -> Result<(), Stop<EvidenceCause>> {
        match value {
            Some(verdict) => self.settle(verdict).map_err(Stop::Line),
            None => Ok(()),
        }
    }
}
