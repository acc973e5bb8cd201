//! What an audit reads.

ghost use Rattle.std.specs.Prelude.{◌<◌, ◌≤◌};
ghost use Rattle.evidence_check.specs.Judging.{AreJudged};
ghost use Rattle.audit.specs.Devices.{reads};
ghost use Rattle.audit.specs.Parts.{TraceRead, EvidenceRead};

use crate::plain::AuditFault;
use devices::Source;
use evidence_check::{EvidenceCause, EvidenceFault, Judged, judge_evidence, judge_evidence_by};
use std::alloc::Global;
use std::thread::Threads;
use trace_lines::{Cause, Trace, TraceFault, read_trace, read_trace_by};

impl From<TraceFault> for AuditFault {
    ghost use Rattle.audit.specs.Faults.{TellsTraceFault};

    ghost from_gives = { TellsTraceFault };

    fn from(fault: TraceFault) -> AuditFault {
        match fault.cause {
            Cause::OutOfMemory => AuditFault::OutOfMemory,
            _ => AuditFault::Trace(fault),
        }
    }
}

impl From<EvidenceFault> for AuditFault {
    ghost use Rattle.audit.specs.Faults.{TellsEvidenceFault};

    ghost from_gives = { TellsEvidenceFault };

    fn from(fault: EvidenceFault) -> AuditFault {
        match fault.cause {
            EvidenceCause::OutOfMemory => AuditFault::OutOfMemory,
            _ => AuditFault::Evidence(fault),
        }
    }
}

/// The trace of a reader.
#[tactic(auto, using(crate::proofs::TracesRead::trace_refused))]
pub(crate) fn trace_from<R: Source>(alloc: Global, reader: &mut R) -> Result<Trace, AuditFault>
    ensures { TraceRead (reads R.given R.ends R.failures R.remaining reader.old reader.new) result }
{
    Ok(read_trace(alloc, reader)?)
}

/// The trace of a reader, by so many workers, of which several read a block of lines each.
#[tactic(auto, using(crate::proofs::TracesRead::trace_refused))]
pub(crate) fn trace_by<R: Source, T: Threads + Sync>(
    rt: &T,
    alloc: Global,
    reader: &mut R,
    workers: usize,
) -> Result<Trace, AuditFault>
    requires { (0 < workers) × (workers ≤ 16) }
    ensures { TraceRead (reads R.given R.ends R.failures R.remaining reader.old reader.new) result }
{
    if workers == 1 {
        return trace_from(alloc, reader);
    }
    Ok(read_trace_by(rt, alloc, reader, workers)?)
}

/// How the evidence of a reader judges each entry of a trace, each record as it is read.
#[tactic(auto, using(crate::proofs::Answering::judged_stopped))]
pub(crate) fn judgements_from<R: Source>(
    alloc: Global,
    reader: &mut R,
    trace: &Trace,
) -> Result<Vec<Judged>, AuditFault>
    ensures { EvidenceRead (λ given v. AreJudged trace.now given v.items) trace.now
        (reads R.given R.ends R.failures R.remaining reader.old reader.new) result }
{
    Ok(judge_evidence(alloc, reader, trace)?)
}

/// How the evidence of a reader judges each entry of a trace, by so many workers that read and judge blocks of records.
#[tactic(auto, using(crate::proofs::Answering::judged_stopped))]
pub(crate) fn judgements_by<R: Source, T: Threads + Sync>(
    rt: &T,
    alloc: Global,
    reader: &mut R,
    trace: &Trace,
    workers: usize,
) -> Result<Vec<Judged>, AuditFault>
    requires { (0 < workers) × (workers ≤ 16) }
    ensures { EvidenceRead (λ given v. AreJudged trace.now given v.items) trace.now
        (reads R.given R.ends R.failures R.remaining reader.old reader.new) result }
{
    Ok(judge_evidence_by(rt, alloc, reader, trace, workers)?)
}
