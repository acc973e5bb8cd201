//! Judging by evidence as several threads read it.

ghost use Rattle.std.specs.Prelude.{◌≡◌, ◌<◌, ◌≤◌, IfOk};
ghost use Rattle.evidence_check.specs.Judging.{GivesJudged, no_judgements};
ghost use Rattle.evidence_check.specs.Reading.{EvidenceRead};
ghost use Rattle.trace_lines.specs.Values.{entry_lines};

use crate::blocks::Records;
use crate::cause::{EvidenceCause, EvidenceFault};
use crate::judged::Judged;
use crate::judging::Judging;
use crate::placed::EntryLines;
use devices::Source;
use line_blocks::read_blocks;
use std::alloc::{AllocError, Global};
use std::thread::Threads;
use trace_lines::Trace;

/// The records of evidence for a trace, and the judgements before the first of them.
fn before_first<'t>(
    alloc: Global,
    trace: &'t Trace,
) -> Result<(Records<'t>, Judging<'t>), AllocError>
    ensures records { IfOk result (λ r. (r.0.trace.now ≡ trace.now) × (r.0.lines ≡ entry_lines trace.now.entries)) }
    ensures judging { IfOk result (λ r. r.1 ≡ no_judgements trace.now) }
{
    let lines = EntryLines::of(alloc, trace)?;
    let judging = Judging::new(alloc, trace)?;
    Ok((Records { trace, lines }, judging))
}

/// Judges the entries of a trace by the evidence for it, as [`judge_evidence`](crate::judge_evidence) does, with so many
/// workers that read and judge the records of a block each.
pub fn judge_evidence_by<R: Source, T: Threads + Sync>(
    rt: &T,
    alloc: Global,
    reader: &mut R,
    trace: &Trace,
    workers: usize,
) -> Result<Vec<Judged>, EvidenceFault>
    requires { (0 < workers) × (workers ≤ 16) }
    ensures { EvidenceRead (GivesJudged trace.now) trace.now.entries R.given R.ends R.failures R.remaining
        reader.old reader.new result }
{
    let Ok((records, mut judging)) = before_first(alloc, trace) else {
        return Err(EvidenceFault {
            line: 1,
            cause: EvidenceCause::OutOfMemory,
        });
    };
    match read_blocks(rt, alloc, reader, &records, &mut judging, workers) {
        Ok(()) => Ok(judging.into_judgements()),
        Err(refused) => Err(EvidenceFault {
            line: refused.line,
            cause: refused.cause(),
        }),
    }
}
