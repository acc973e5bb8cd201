//! The audit on one thread.

ghost use Rattle.std.specs.Prelude.{◌≡◌, ◌⊎◌, [], ◌∷◌, Ok, IfErr};
ghost use Rattle.evidence_check.specs.Evidences.{evidence_value};
ghost use Rattle.audit.specs.Answers.{Audited};
ghost use Rattle.audit.specs.Parts.{Told, IsReport};
ghost use Rattle.audit.specs.Audit.{IsOfBytes};
ghost use Rattle.audit.specs.Devices.{reads, writes, OfBoth};
ghost use Rattle.audit.specs.Kinds.{IsOneOf};
ghost use Rattle.audit.specs.Kinds as kind;
ghost use Rattle.audit.specs.declared.plain.AuditFault.TheVariants as faults;
ghost use Rattle.audit.specs.declared.plain.Verdict.TheVariants.{Clean};
ghost use Rattle.findings.specs.Findings.{findings_of};
ghost use Rattle.findings.specs.EachEntry.{SpeaksOfEachEntry};
ghost use Rattle.findings.specs.Headline.{IsRightAndFresh};
ghost use Rattle.findings.specs.NewEnemy.{HasNoNewEnemy};
ghost use Rattle.findings.specs.WrongReplies.{HasOnlyWrongRepliesNamed};

use crate::finder::{Finder, OneThread};
use crate::telling::tell_findings;
use devices::{Sink, Source};
use evidence_check::{Evidence, EvidenceFault};
use findings::findings_of;
use findings::laws::{
    each_entry, no_new_enemy, right_and_fresh_without_findings, wrong_replies_are_wrong,
};
use std::alloc::{AllocError, Global};
use thiserror::Error;
use trace_lines::{Trace, TraceFault};

/// What an audit answers.
#[derive(Clone, Copy, Debug, PartialEq, Eq)]
pub enum Verdict {
    /// There is no finding.
    Clean,
    Dirty,
}

/// Why an audit gives no verdict.
#[derive(Clone, Copy, Debug, PartialEq, Eq, Error)]
pub enum AuditFault {
    #[error("{0}")]
    Trace(TraceFault),
    #[error("{0}")]
    Evidence(EvidenceFault),
    /// So many bytes of the text, which is a report, records or a history, went out before the writer failed or took
    /// none of some bytes.
    #[error("write fault after {written} bytes")]
    Write { written: usize },
    #[error("out of memory")]
    OutOfMemory,
    /// The number of workers or the size of a slice is outside its limits.
    #[error("limits")]
    Limits,
    /// Joined input has no line `---`, or more than 2^30 bytes.
    #[error("joined input refused")]
    Joined,
    /// The reader of joined input failed.
    #[error("read fault")]
    Input,
}

impl From<AllocError> for AuditFault {
    ghost from_gives = { λ _ e. e ≡ faults.OutOfMemory };

    fn from(_: AllocError) -> AuditFault {
        AuditFault::OutOfMemory
    }
}

/// Writes the report on a trace by its evidence.
pub fn audit_values<W: Sink>(
    alloc: Global,
    trace: &Trace,
    evidence: &Evidence,
    out: &mut W,
) -> Result<Verdict, AuditFault>
    ensures told { Told (IsReport trace.now (evidence_value evidence.now))
        (writes W.taken W.flushes W.failures W.idle W.contents out.old out.new) result }
    // Whoever made the evidence.
    ensures headline { result ≡ Ok Clean → IsRightAndFresh trace.now }
    ensures no_new_enemy { result ≡ Ok Clean → HasNoNewEnemy trace.now }
    // Whatever the verdict: a reply that a finding F10 calls wrong is wrong.
    ensures wrong_replies { HasOnlyWrongRepliesNamed trace.now (findings_of trace.now (evidence_value evidence.now)) }
    // Of each entry by itself: what is wrong with it stands on its line.
    ensures entries { SpeaksOfEachEntry trace.now (findings_of trace.now (evidence_value evidence.now)) }
{
    right_and_fresh_without_findings(trace);
    no_new_enemy(trace);
    wrong_replies_are_wrong(trace);
    each_entry(trace);
    let findings = findings_of(alloc, trace, evidence)?;
    tell_findings(alloc, &findings, trace.len(), out)
}

/// Audits a trace by its evidence, and writes the report of what this finder finds.
pub(crate) fn audit_with<A: Source, B: Source, W: Sink, F: Finder<A, B>>(
    alloc: Global,
    trace: &mut A,
    evidence: &mut B,
    out: &mut W,
    finder: &mut F,
) -> Result<Verdict, AuditFault>
    requires { F.asks finder.old }
    ensures audited { Audited (reads A.given A.ends A.failures A.remaining trace.old trace.new)
        (reads B.given B.ends B.failures B.remaining evidence.old evidence.new)
        (writes W.taken W.flushes W.failures W.idle W.contents out.old out.new) result }
    ensures kinds { IfErr result (IsOneOf (kind.trace ∷ kind.evidence ∷ kind.write ∷ kind.memory ∷ [])) }
    ensures mark { F.mark finder.new ≡ F.mark finder.old }
    // It is asked once at most, by what the readers gave.
    ensures tells { (finder.new ≡ finder.old)
        ⊎ OfBoth (reads A.given A.ends A.failures A.remaining trace.old trace.new)
        (reads B.given B.ends B.failures B.remaining evidence.old evidence.new)
        (λ a b. IsOfBytes a b (λ t given. F.tells t given finder.old finder.new)) }
{
    let trace = finder.trace_of(trace)?;
    right_and_fresh_without_findings(&trace);
    let found = finder.findings(&trace, evidence);
    let entries = trace.len();
    drop(trace);
    tell_findings(alloc, &found?, entries, out)
}

/// Audits a trace by its evidence, and writes the report: a line for each finding, by trace line, then how many
/// entries and findings there are, and the verdict.
///
/// With a verdict the report went out whole, and one flush was asked for; which of the two came first no clause says.
/// Under `Write` the first bytes of the report went out, and under any other fault nothing did. `Trace` or `Evidence`
/// with the cause `Read`, and `Write`, are answered only where that device failed; `Write` also where it took none of
/// some bytes. At most 2^30 + 65,536 bytes are taken from either reader, also from one that never ends.
pub fn audit_plain<A: Source, B: Source, W: Sink>(
    alloc: Global,
    trace: &mut A,
    evidence: &mut B,
    out: &mut W,
) -> Result<Verdict, AuditFault>
    ensures audited { Audited (reads A.given A.ends A.failures A.remaining trace.old trace.new)
        (reads B.given B.ends B.failures B.remaining evidence.old evidence.new)
        (writes W.taken W.flushes W.failures W.idle W.contents out.old out.new) result }
    ensures kinds { IfErr result (IsOneOf (kind.trace ∷ kind.evidence ∷ kind.write ∷ kind.memory ∷ [])) }
{
    audit_with(alloc, trace, evidence, out, &mut OneThread { alloc })
}
