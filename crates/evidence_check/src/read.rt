//! Reading the evidence for a trace, to keep it or to judge by it.

ghost use Rattle.std.specs.Prelude.{◌≡◌};
ghost use Rattle.evidence_check.specs.Evidences.{evidence_value};
ghost use Rattle.evidence_check.specs.Judging.{GivesJudged};
ghost use Rattle.evidence_check.specs.Reading.{EvidenceRead, GivesEvidence};
ghost use Rattle.evidence_check.specs.declared.cause.EvidenceCause.TheVariants.{OutOfMemory};

use crate::cause::{EvidenceCause, EvidenceFault};
use crate::evidence::Evidence;
use crate::judged::Judged;
use crate::judging::Judging;
use crate::recorder::Recorder;
use devices::Source;
use json_lines::read_lines;
use std::alloc::Global;
use trace_lines::Trace;

/// There was no memory to begin with, so that no line was read.
fn unbegun() -> EvidenceFault
    ensures { result ≡ record { line = 1; cause = OutOfMemory } }
{
    EvidenceFault {
        line: 1,
        cause: EvidenceCause::OutOfMemory,
    }
}

/// Reads the evidence for a trace: a record for an entry on each line that is not blank, in any order. Lines and
/// limits are those of a trace.
pub fn read_evidence<R: Source>(
    alloc: Global,
    reader: &mut R,
    trace: &Trace,
) -> Result<Evidence, EvidenceFault>
    ensures { EvidenceRead (GivesEvidence evidence_value) trace.now.entries R.given R.ends R.failures R.remaining
        reader.old reader.new result }
{
    let mut recorder = match Recorder::new(alloc, trace) {
        Ok(recorder) => recorder,
        Err(_) => return Err(unbegun()),
    };
    match read_lines(alloc, reader, &mut recorder) {
        Ok(()) => Ok(Evidence {
            steps: recorder.into_steps(),
        }),
        Err(fault) => Err(EvidenceFault {
            line: fault.line,
            cause: fault.cause(),
        }),
    }
}

/// Judges the entries of a trace by the evidence for it, each record as it is read, and keeps the judgements alone.
/// What is read, and what is refused, is as [`read_evidence`] says.
pub fn judge_evidence<R: Source>(
    alloc: Global,
    reader: &mut R,
    trace: &Trace,
) -> Result<Vec<Judged>, EvidenceFault>
    // The evidence that is read judges so.
    ensures { EvidenceRead (GivesJudged trace.now) trace.now.entries R.given R.ends R.failures R.remaining
        reader.old reader.new result }
{
    let mut judging = match Judging::new(alloc, trace) {
        Ok(judging) => judging,
        Err(_) => return Err(unbegun()),
    };
    match read_lines(alloc, reader, &mut judging) {
        Ok(()) => Ok(judging.into_judgements()),
        Err(refused) => Err(EvidenceFault {
            line: refused.line,
            cause: refused.cause(),
        }),
    }
}
