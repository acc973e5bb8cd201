//! The audit by several workers that writes early lines too.

ghost use Rattle.std.specs.Prelude.{◌≡◌, ◌⊎◌, ◌↔◌, ◌<◌, ◌≤◌, ◌+◌, [], ◌∷◌, ◌++◌, ℕ, Bool, List, Option, slice_get, true, false, length, Ok, Err, IfOk, IfErr, OnOk, string_bytes};
ghost use Rattle.std.specs.List.{flat_map};
ghost use Rattle.audit_slices.specs.Board.{IsNamedBy};
ghost use Rattle.audit_slices.specs.Reports.{report_items};
ghost use Rattle.evidence_check.specs.Judging.{AreJudged};
ghost use Rattle.evidence_check.specs.Steps.{StepValue};
ghost use Rattle.audit.specs.Answers.{Audited};
ghost use Rattle.audit.specs.Audit.{IsOfBytes};
ghost use Rattle.audit.specs.Devices.{reads, writes, OfBoth};
ghost use Rattle.audit.specs.Early.{WriterState, WentOut, TellsEarly, state_of};
ghost use Rattle.audit.specs.Kinds.{IsOneOf};
ghost use Rattle.audit.specs.Kinds as kind;
ghost use Rattle.audit.specs.Shared.{found_judged, has_finding, all_judged, are_within_limits};
ghost use Rattle.audit.specs.EarlyLines.{IsLineOf, line_for};
ghost use Rattle.audit.specs.declared.plain.AuditFault.TheVariants as faults;
ghost use Rattle.findings.specs.Findings.{findings_of, on_line};

use crate::finder::Finder;
use crate::plain::{AuditFault, Verdict, audit_with};
use crate::reading::{judgements_by, trace_by};
use crate::shared::{Crew, Found, found_by, gather};
use audit_slices::{Alert, Board, Names, SliceReport, Watch};
use devices::{Sink, Source, send};
use evidence_check::Judged;
use findings::{Finding, report_line};
use std::alloc::{AllocError, Global};
use std::marker::{Brand, PhantomData};
use std::sync::Wait;
use std::thread::Threads;
use trace_lines::Trace;

/// How a writer stood before. Each call of a pool picks it.
trait Begun {
    ghost begun: { WriterState };
}

impl Begun for Brand {
    ghost use Rattle.std.specs.Prelude.{[]};

    ghost begun = { record { taken = []; failures = 0; idle = 0; since = 0 } };
}

/// It writes a line for each alert that it is shown, until its writer fails or takes nothing.
#[derive(Drop)]
struct Teller<'e, E: Sink, N: Names<Found> + Begun> {
    early: &'e mut E,
    alloc: Global,
    given_up: bool,
    names: PhantomData<N>,
    ghost told: { ∥ WentOut (IsLineOf N.gives N.alerts) N.begun
        (state_of E.taken E.failures E.idle E.since early.now) given_up ∥₁ },
}

fn first_of(found: &Found) -> Option<Finding>
    ensures { result ≡ slice_get (on_line found.now.line found.now.what) 0 }
{
    for what in &found.what {
        if let Some(what) = *what {
            return Some(Finding {
                line: found.line,
                what,
            });
        }
    }
    None
}

fn line_of(alloc: Global, found: &Found) -> Result<String, AllocError>
    ensures { IfOk result (λ s. string_bytes s ≡ line_for found.now) }
{
    let mut text = String::new(alloc);
    if let Some(finding) = first_of(found) {
        text.push_str("early ")?;
        report_line(&finding, &mut text)?;
    }
    Ok(text)
}

impl<'e, E: Sink, N: Names<Found> + Begun> Watch<Found, N> for Teller<'e, E, N> {
    ghost mark = { λ t. t.early.ghost_name };

    fn seen(&mut self, alert: &Alert<Found>) {
        if self.given_up {
            return;
        }
        match line_of(self.alloc, &alert.report) {
            Ok(line) => match send(&mut *self.early, line.as_bytes()) {
                Ok(()) => {}
                Err(_) => self.given_up = true,
            },
            Err(_) => {}
        }
    }
}

fn found_early<N: Names<Found> + Begun + Sync, E: Sink, R: Threads + Wait + Sync>(
    rt: &R,
    alloc: Global,
    trace: &Trace,
    judgements: &[Judged],
    early: &mut E,
    crew: Crew,
) -> Result<Vec<SliceReport<Found>>, AllocError>
    requires names { IsNamedBy (λ entry found. found ≡ found_judged trace.now judgements.now entry)
        has_finding N.gives N.alerts }
    requires begun { N.begun ≡ state_of E.taken E.failures E.idle E.since early.old }
    ensures found { IfOk result
        (λ v. flat_map report_items v.items ≡ all_judged trace.now judgements.now) }
    ensures early { (given_up : Bool) × ∥ WentOut (IsLineOf N.gives N.alerts) N.begun
        (state_of E.taken E.failures E.idle E.since early.new) given_up ∥₁ }
{
    let board: Board<Found, N> = Board::new(alloc)?;
    let mut teller: Teller<'_, E, N> = Teller {
        early,
        alloc,
        given_up: false,
        names: PhantomData,
    };
    found_by::<N, Teller<'_, E, N>, R>(
        rt,
        alloc,
        trace,
        judgements,
        crew,
        Some(&board),
        &mut teller,
    )
}

/// The findings on each entry, in line order and by their numbers, by several workers, where each entry is judged so.
/// Lines go to `early` as they come.
fn findings_early<E: Sink, R: Threads + Wait + Sync>(
    rt: &R,
    alloc: Global,
    trace: &Trace,
    judgements: &[Judged],
    early: &mut E,
    crew: Crew,
) -> Result<Vec<Finding>, AllocError>
    ensures found { (given : List (Option (List StepValue))) → AreJudged trace.now given judgements.now
        → IfOk result (λ v. v.items ≡ findings_of trace.now given) }
    ensures early { (given : List (Option (List StepValue))) → AreJudged trace.now given judgements.now
        → TellsEarly trace.now given (state_of E.taken E.failures E.idle E.since early.old)
        (state_of E.taken E.failures E.idle E.since early.new) }
{
    let reports = found_early::<Brand, E, R>(rt, alloc, trace, judgements, early, crew)?;
    gather(alloc, reports.as_slice())
}

/// Workers who share the entries, and what they find goes to a writer as it comes.
#[derive(Drop)]
struct Tellers<'r, 'e, R: Threads + Wait + Sync, E: Sink> {
    rt: &'r R,
    alloc: Global,
    early: &'e mut E,
    crew: Crew,
}

impl<'r, 'e, A: Source, B: Source, R: Threads + Wait + Sync, E: Sink> Finder<A, B>
    for Tellers<'r, 'e, R, E> {
    ghost use Rattle.std.specs.Thread.{IsSync};

    ghost asks = { λ _. IsSync R.row };

    ghost mark = { λ t. t.early.ghost_name };

    ghost tells = { λ t given old new. TellsEarly t given
        (state_of E.taken E.failures E.idle E.since old.early.now)
        (state_of E.taken E.failures E.idle E.since new.early.now) };

    fn trace_of(&self, reader: &mut A) -> Result<Trace, AuditFault> {
        trace_by(self.rt, self.alloc, reader, self.crew.workers)
    }

    fn findings(&mut self, trace: &Trace, evidence: &mut B) -> Result<Vec<Finding>, AuditFault> {
        let judgements = judgements_by(self.rt, self.alloc, evidence, trace, self.crew.workers)?;
        let early = &mut *self.early;
        Ok(findings_early(self.rt, self.alloc, trace, &judgements, early, self.crew)?)
    }
}

/// Audits as [`audit`](crate::audit) does, and tells of findings as they come: for each alert that the pool shows, a
/// line goes to `early`, which is `early ` and the report line of the first finding on an entry.
///
/// Whatever goes there is such lines, and only where both inputs were read to their ends and accepted: in any order,
/// since the workers find them, maybe one of an entry twice, and maybe none, since a line that finds no memory is
/// dropped. That a line goes out for each alert, when it does, and that it is flushed, no clause says. Where `early`
/// fails or takes none of some bytes, that was its last call. What is said of the two inputs, of `out` and of the
/// answer is the same whatever `early` does, and the same as of `audit`; no clause compares two calls.
pub fn audit_early<A: Source, B: Source, W: Sink, E: Sink, R: Threads + Wait + Sync>(
    rt: &R,
    alloc: Global,
    trace: &mut A,
    evidence: &mut B,
    out: &mut W,
    early: &mut E,
    workers: usize,
    slice: usize,
) -> Result<Verdict, AuditFault>
    ensures audited { Audited (reads A.given A.ends A.failures A.remaining trace.old trace.new)
        (reads B.given B.ends B.failures B.remaining evidence.old evidence.new)
        (writes W.taken W.flushes W.failures W.idle W.contents out.old out.new) result }
    ensures kinds { IfErr result (IsOneOf (kind.trace ∷ kind.evidence ∷ kind.write ∷ kind.memory ∷ kind.limits ∷ [])) }
    ensures limits { result ≡ Err faults.Limits ↔ (are_within_limits workers slice ≡ false) }
    ensures unread { result ≡ Err faults.Limits →
        (trace.new ≡ trace.old) × (evidence.new ≡ evidence.old) × (out.new ≡ out.old) × (early.new ≡ early.old) }
    // Lines of first findings went out, and nothing else. The last may be cut where `early` failed or took none of
    // some bytes; then no call came behind that one.
    ensures early { (early.new ≡ early.old)
        ⊎ OfBoth (reads A.given A.ends A.failures A.remaining trace.old trace.new)
        (reads B.given B.ends B.failures B.remaining evidence.old evidence.new)
        (λ a b. IsOfBytes a b (λ t given. TellsEarly t given (state_of E.taken E.failures E.idle E.since early.old)
        (state_of E.taken E.failures E.idle E.since early.new))) }
{
    let Some(crew) = Crew::within_limits(workers, slice) else {
        return Err(AuditFault::Limits);
    };
    let mut finder = Tellers {
        rt,
        alloc,
        early,
        crew,
    };
    audit_with(alloc, trace, evidence, out, &mut finder)
}
