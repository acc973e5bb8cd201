//! How an audit comes by the findings.

ghost use Rattle.std.specs.Prelude.{◌≡◌, ◌⊎◌, ℕ, true, List, Option, Ok, IfOk};
ghost use Rattle.trace_lines.specs.Values.{TraceValue};
ghost use Rattle.evidence_check.specs.Reading.{evidence_of};
ghost use Rattle.evidence_check.specs.Steps.{StepValue};
ghost use Rattle.audit.specs.Parts.{AreFound, EvidenceRead, TraceRead};
ghost use Rattle.audit.specs.Devices.{reads, OfWhole};

use crate::plain::AuditFault;
use crate::reading::{judgements_from, trace_from};
use devices::Source;
use findings::{Finding, findings_judged};
use std::alloc::Global;
use trace_lines::Trace;

/// How an audit comes by a trace of a reader, and by the findings on it, by the evidence of another.
pub(crate) trait Finder<A: Source, B: Source> {
    // What it needs of its handles.
    ghost asks: { Self → Type 0 };

    // What no call changes.
    ghost mark: { Self → ℕ };

    // What it tells of them elsewhere, from its value before to that after.
    ghost tells: { TraceValue → List (Option (List StepValue)) → Self → Self → Type 0 };

    fn trace_of(&self, reader: &mut A) -> Result<Trace, AuditFault>
        requires { asks self.now }
        ensures { TraceRead (reads A.given A.ends A.failures A.remaining reader.old reader.new) result };

    fn findings(&mut self, trace: &Trace, evidence: &mut B) -> Result<Vec<Finding>, AuditFault>
        requires { asks self.old }
        ensures read { EvidenceRead (AreFound trace.now) trace.now
            (reads B.given B.ends B.failures B.remaining evidence.old evidence.new) result }
        ensures mark { mark self.new ≡ mark self.old }
        ensures tells { (self.new ≡ self.old)
            ⊎ OfWhole (reads B.given B.ends B.failures B.remaining evidence.old evidence.new)
            (λ b. (given : List (Option (List StepValue))) × (evidence_of trace.now.entries true b ≡ Ok given)
            × tells trace.now given self.old self.new) };
}

/// It does both in the calling thread, and lets each record go once it has judged by it.
#[derive(Drop)]
pub(crate) struct OneThread {
    pub(crate) alloc: Global,
}

impl<A: Source, B: Source> Finder<A, B> for OneThread {
    ghost use Rattle.std.specs.Prelude.{⊤};

    ghost asks = { λ _. ⊤ };

    ghost mark = { λ _. 0 };

    ghost tells = { λ _ _ _ _. ⊤ };

    fn trace_of(&self, reader: &mut A) -> Result<Trace, AuditFault> {
        trace_from(self.alloc, reader)
    }

    fn findings(&mut self, trace: &Trace, evidence: &mut B) -> Result<Vec<Finding>, AuditFault> {
        let judgements = judgements_from(self.alloc, evidence, trace)?;
        Ok(findings_judged(self.alloc, trace, &judgements)?)
    }
}
