//! Judging by the evidence behind the marker of joined input.

ghost use Rattle.std.specs.Prelude.{◌≢◌, ◌≤◌, length, true, IfOk, IfErr};
ghost use Rattle.json_lines.specs.Joined.{IsTaken, RestRead};
ghost use Rattle.evidence_check.specs.Judging.{GivesJudged};
ghost use Rattle.evidence_check.specs.Reading.{evidence_of};
ghost use Rattle.evidence_check.specs.declared.cause.EvidenceCause.TheVariants.{Read};

use crate::cause::EvidenceFault;
use crate::judged::Judged;
use crate::judging::Judging;
use devices::Source;
use json_lines::{InputFault, Rest};
use std::alloc::Global;
use trace_lines::Trace;

/// Judges the entries of a trace by the evidence behind the marker of joined input, as
/// [`judge_evidence`](crate::judge_evidence) does by that of a whole input.
///
/// An outer error is of the whole input: the reader failed, there are more than 2^30 bytes, or memory ran out.
pub fn judge_evidence_behind<R: Source>(
    alloc: Global,
    rest: Rest,
    reader: &mut R,
    trace: &Trace,
) -> Result<Result<Vec<Judged>, EvidenceFault>, InputFault>
    // The evidence that stands there judges so, or its first fault is answered.
    ensures exact { IfOk result (λ judged. IsTaken (R.given reader.old) (R.given reader.new) rest.at_hand
        (λ b. (length b ≤ rest.room)
        × GivesJudged trace.now judged (evidence_of trace.now.entries true b))) }
    ensures refused { IfOk result (λ judged. IfErr judged (λ e. e.cause ≢ Read)) }
    ensures read { RestRead rest R.given R.ends R.failures R.remaining reader.old reader.new result }
{
    let Ok(mut judging) = Judging::new(alloc, trace) else {
        return Err(InputFault::OutOfMemory);
    };
    match rest.read(alloc, reader, &mut judging)? {
        Ok(()) => Ok(Ok(judging.into_judgements())),
        Err(refused) => Ok(Err(EvidenceFault {
            line: refused.line,
            cause: refused.cause(),
        })),
    }
}
