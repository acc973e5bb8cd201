//! The audit of joined input.

ghost use Rattle.std.specs.Prelude.{◌≡◌};
ghost use Rattle.audit.specs.Devices.{reads, writes};
ghost use Rattle.audit.specs.Joined.{AuditedJoined};
ghost use Rattle.audit.specs.JoinedParts.{PartsRead, FrontRead, BehindRead, of_input};

use crate::plain::{AuditFault, Verdict};
use crate::telling::tell_findings;
use devices::{Sink, Source};
use evidence_check::{Judged, judge_evidence_behind};
use findings::findings_judged;
use findings::laws::right_and_fresh_without_findings;
use json_lines::{InputFault, Rest};
use std::alloc::Global;
use trace_lines::{Trace, TraceFront, read_trace_front};

impl From<InputFault> for AuditFault {
    ghost from_gives = { λ fault e. e ≡ of_input fault };

    fn from(fault: InputFault) -> AuditFault {
        match fault {
            InputFault::Read => AuditFault::Input,
            InputFault::TooLong => AuditFault::Joined,
            InputFault::OutOfMemory => AuditFault::OutOfMemory,
        }
    }
}

/// The trace in front of the marker of joined input, and what stands behind it. Where the trace is refused, that is
/// read to its end.
fn trace_of_front<R: Source>(alloc: Global, input: &mut R) -> Result<(Trace, Rest), AuditFault>
    ensures { FrontRead (reads R.given R.ends R.failures R.remaining input.old input.new) result }
{
    let TraceFront { trace, rest } = read_trace_front(alloc, input)?;
    let Some(rest) = rest else {
        return Err(AuditFault::Joined);
    };
    match trace {
        Ok(trace) => Ok((trace, rest)),
        Err(fault) => match rest.pass(alloc, input) {
            Ok(()) => Err(AuditFault::from(fault)),
            Err(stop) => Err(AuditFault::from(stop)),
        },
    }
}

/// How the evidence behind the marker judges each entry of the trace in front of it.
fn judgements_behind<R: Source>(
    alloc: Global,
    rest: Rest,
    input: &mut R,
    trace: &Trace,
) -> Result<Vec<Judged>, AuditFault>
    ensures { BehindRead trace.now rest (reads R.given R.ends R.failures R.remaining input.old input.new) result }
{
    match judge_evidence_behind(alloc, rest, input, trace) {
        Ok(Ok(judgements)) => Ok(judgements),
        Ok(Err(fault)) => Err(AuditFault::from(fault)),
        Err(stop) => Err(AuditFault::from(stop)),
    }
}

/// The trace in front of the marker, and how the evidence behind it judges each entry.
fn parts_from<R: Source>(alloc: Global, input: &mut R) -> Result<(Trace, Vec<Judged>), AuditFault>
    ensures { PartsRead (reads R.given R.ends R.failures R.remaining input.old input.new) result }
{
    let (trace, rest) = trace_of_front(alloc, input)?;
    let judgements = judgements_behind(alloc, rest, input, &trace)?;
    Ok((trace, judgements))
}

/// Audits joined input: the trace, a line that is exactly `---`, and the evidence. The first such line counts, and
/// each of the two parts has lines from 1.
///
/// `Input` is a failure of the reader, and `Joined` is input without such a line, or with more than 2^30 bytes. A
/// part is refused, by `Trace` or `Evidence`, only once the reader was at its end, and only where the input has such
/// a line and no more than 2^30 bytes; and never with the cause `Read`. Under each of these faults nothing is
/// written. No text is kept once it is read; no clause speaks of memory.
pub fn audit_joined<R: Source, W: Sink>(
    alloc: Global,
    input: &mut R,
    out: &mut W,
) -> Result<Verdict, AuditFault>
    ensures { AuditedJoined (reads R.given R.ends R.failures R.remaining input.old input.new)
        (writes W.taken W.flushes W.failures W.idle W.contents out.old out.new) result }
{
    let (trace, judgements) = parts_from(alloc, input)?;
    right_and_fresh_without_findings(&trace);
    let found = findings_judged(alloc, &trace, &judgements);
    let entries = trace.len();
    drop(trace);
    tell_findings(alloc, &found?, entries, out)
}
