//! What an audit writes.

ghost use Rattle.std.specs.Prelude.{◌≡◌};
ghost use Rattle.audit.specs.Parts.{Told};
ghost use Rattle.audit.specs.Audit.{verdict_of};
ghost use Rattle.audit.specs.Devices.{writes};
ghost use Rattle.findings.specs.Report.{report_text};

use crate::plain::{AuditFault, Verdict};
use devices::{Sink, send};
use findings::{Finding, report_of};
use std::alloc::Global;

/// Writes a text, and then has this answer.
pub fn tell<V: Drop, W: Sink>(text: &str, answer: V, out: &mut W) -> Result<V, AuditFault>
    ensures { Told (λ said v. (said ≡ text.now) × (v ≡ answer))
        (writes W.taken W.flushes W.failures W.idle W.contents out.old out.new) result }
{
    match send(out, text.as_bytes()) {
        Ok(()) => Ok(answer),
        Err(unsent) => Err(AuditFault::Write {
            written: unsent.written,
        }),
    }
}

fn verdict_of(findings: &[Finding]) -> Verdict
    ensures { result ≡ verdict_of findings.now }
{
    match findings {
        [] => Verdict::Clean,
        [_, ..] => Verdict::Dirty,
    }
}

/// Writes the report of findings on a trace with so many entries.
pub(crate) fn tell_findings<W: Sink>(
    alloc: Global,
    findings: &[Finding],
    entries: usize,
    out: &mut W,
) -> Result<Verdict, AuditFault>
    ensures { Told (λ text v. (text ≡ report_text findings.now entries) × (v ≡ verdict_of findings.now))
        (writes W.taken W.flushes W.failures W.idle W.contents out.old out.new) result }
{
    let text = report_of(alloc, findings, entries)?;
    tell(text.as_str(), verdict_of(findings), out)
}
