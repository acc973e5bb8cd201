//! The audit by several workers, who share the entries.

ghost use Rattle.std.specs.Prelude.{◌≡◌, ◌↔◌, ◌<◌, ◌≤◌, ◌^◌, [], ◌∷◌, ◌++◌, ℕ, List, Option, length, true, false, Err, IfOk, IfErr, IfSome, OnOk, is_some};
ghost use Rattle.std.specs.List.{AllZip, flat_map, list_any, range_with_len};
ghost use Rattle.audit_slices.specs.Board.{IsNamedBy};
ghost use Rattle.audit_slices.specs.Reports.{report_items};
ghost use Rattle.evidence_check.specs.Judging.{AreJudged};
ghost use Rattle.evidence_check.specs.Steps.{StepValue};
ghost use Rattle.audit.specs.Answers.{Audited};
ghost use Rattle.audit.specs.Devices.{reads, writes};
ghost use Rattle.audit.specs.Kinds.{IsOneOf};
ghost use Rattle.audit.specs.Kinds as kind;
ghost use Rattle.audit.specs.Shared.{found_judged, has_finding, all_judged, found_lines, are_within_limits};
ghost use Rattle.audit.specs.declared.plain.AuditFault.TheVariants as faults;
ghost use Rattle.findings.specs.Findings.{findings_of};

use crate::finder::Finder;
use crate::plain::{AuditFault, Verdict, audit_plain, audit_with};
use crate::reading::{judgements_by, trace_by};
use audit_slices::{
    Blind, Board, Check, Free, MOST_WORKERS, Names, SliceReport, Watch, cut, run_pool,
};
use devices::{Sink, Source};
use evidence_check::Judged;
use findings::{Finding, What, found_judged, push_found};
use std::alloc::{AllocError, Global};
use std::marker::Brand;
use std::sync::Wait;
use std::thread::Threads;
use trace_lines::Trace;

/// The most entries that a slice has.
pub const LARGEST_SLICE: usize = 4096;

/// The workers that share the entries, the calling thread among them, and how many entries each takes at a time.
#[derive(Clone, Copy)]
pub(crate) struct Crew {
    pub(crate) workers: usize,
    pub(crate) slice: usize,
    ghost some: { 0 < workers },
    ghost few: { workers ≤ 16 },
    ghost filled: { 0 < slice },
}

impl Crew {
    ghost use Rattle.audit.specs.Shared.{are_within_limits};

    /// None where there are too few or too many of either.
    pub(crate) fn within_limits(workers: usize, slice: usize) -> Option<Crew>
        ensures limits { is_some result ≡ are_within_limits workers slice }
        ensures same { IfSome result (λ crew. (crew.workers ≡ workers) × (crew.slice ≡ slice)) }
    {
        if 1 <= workers && workers <= MOST_WORKERS && 1 <= slice && slice <= LARGEST_SLICE {
            Some(Crew { workers, slice })
        } else {
            None
        }
    }
}

/// What is found on an entry, by the findings' numbers, and the line that the entry stands on.
#[derive(Clone, Copy)]
pub(crate) struct Found {
    pub(crate) line: u64,
    pub(crate) what: [Option<What>; 7],
}

/// It finds what is wrong with the decisions of a trace, where its evidence judges the entries so.
#[derive(Drop)]
pub(crate) struct EntryCheck<'t, 'j> {
    pub(crate) trace: &'t Trace,
    pub(crate) judgements: &'j [Judged],
    pub(crate) entries: usize,
    ghost fits: { entries < 2 ^ 64 },
    ghost all: { entries ≡ length trace.now.entries },
}

impl<'t, 'j> Check for EntryCheck<'t, 'j> {
    type Report = Found;

    ghost use Rattle.std.proofs.Common.{◌≡◌, rules};
    ghost use Rattle.audit.specs.Shared.{found_judged, has_finding};

    ghost entries = { λ c. c.entries };

    ghost gives = { λ c entry found. found ≡ found_judged c.trace.now c.judgements.now entry };

    ghost raises = { λ _ found. has_finding found };

    ghost entries_fit = { Prim.search rules };

    fn check(&self, entry: usize) -> Result<Found, AllocError> {
        let what = found_judged(self.trace, self.judgements, entry);
        let line = self.trace.entry(entry).line;
        Ok(Found { line, what })
    }

    fn alerts(&self, found: &Found) -> bool {
        is_any(&found.what)
    }
}

pub(crate) fn is_any(found: &[Option<What>]) -> bool
    ensures { result ≡ list_any is_some found.now }
{
    found.iter().any(|what| what.is_some())
}

// The call of a pool picks the names, which are those of its trace and evidence.
impl Names<Found> for Brand {
    ghost use Rattle.std.specs.Prelude.{⊤, false};

    ghost gives = { λ _ _. ⊤ };

    ghost alerts = { λ _. false };
}

/// What a check says of each entry, by a crew whose alerts go to a board and from there to a watch.
pub(crate) fn reports_by<
    C: Check<Report = Found> + Sync,
    N: Names<Found> + Sync,
    W: Watch<Found, N>,
    R: Threads + Wait + Sync,
>(
    rt: &R,
    alloc: Global,
    check: &C,
    entries: usize,
    crew: Crew,
    board: Option<&Board<Found, N>>,
    watch: &mut W,
) -> Result<Vec<SliceReport<Found>>, AllocError>
    requires entries { entries ≡ C.entries check.now }
    requires names { IsNamedBy (C.gives check.now) (C.raises check.now) N.gives N.alerts }
    ensures all { IfOk result
        (λ v. AllZip (C.gives check.now) (range_with_len 0 entries) (flat_map report_items v.items)) }
    ensures mark { W.mark watch.new ≡ W.mark watch.old }
{
    let slices = cut(alloc, entries, crew.slice)?;
    run_pool(rt, alloc, check, &Free, board, watch, slices, crew.workers)
}

/// What is found on each entry, in slices, while a watch is shown it.
pub(crate) fn found_by<N: Names<Found> + Sync, W: Watch<Found, N>, R: Threads + Wait + Sync>(
    rt: &R,
    alloc: Global,
    trace: &Trace,
    judgements: &[Judged],
    crew: Crew,
    board: Option<&Board<Found, N>>,
    watch: &mut W,
) -> Result<Vec<SliceReport<Found>>, AllocError>
    requires { IsNamedBy (λ entry found. found ≡ found_judged trace.now judgements.now entry)
        has_finding N.gives N.alerts }
    ensures found { IfOk result
        (λ v. flat_map report_items v.items ≡ all_judged trace.now judgements.now) }
    ensures mark { W.mark watch.new ≡ W.mark watch.old }
{
    let entries = trace.len();
    let check = EntryCheck {
        trace,
        judgements,
        entries,
    };
    reports_by(rt, alloc, &check, entries, crew, board, watch)
}

/// What is found on each entry, in slices.
fn found_unseen<N: Names<Found> + Sync, R: Threads + Wait + Sync>(
    rt: &R,
    alloc: Global,
    trace: &Trace,
    judgements: &[Judged],
    crew: Crew,
) -> Result<Vec<SliceReport<Found>>, AllocError>
    requires { IsNamedBy (λ entry found. found ≡ found_judged trace.now judgements.now entry)
        has_finding N.gives N.alerts }
    ensures { IfOk result (λ v. flat_map report_items v.items ≡ all_judged trace.now judgements.now) }
{
    let no_board: Option<Board<Found, N>> = None;
    found_by(
        rt,
        alloc,
        trace,
        judgements,
        crew,
        no_board.as_ref(),
        &mut Blind,
    )
}

fn push_all(found: &[Found], findings: &mut Vec<Finding>) -> Result<(), AllocError>
    ensures { OnOk result (findings.new.items ≡ findings.old.items ++ found_lines found.now) }
{
    // bounded by the entries of a slice
    for one in found {
        push_found(one.line, &one.what, findings)?;
    }
    Ok(())
}

/// The findings that reports hold, in the order of their entries.
pub(crate) fn gather(
    alloc: Global,
    reports: &[SliceReport<Found>],
) -> Result<Vec<Finding>, AllocError>
    ensures { IfOk result (λ v. v.items ≡ found_lines (flat_map report_items reports.now)) }
{
    let mut findings = Vec::new(alloc);
    // bounded by the slices, of which there are no more than entries
    for report in reports {
        push_all(report.reports(), &mut findings)?;
    }
    Ok(findings)
}

/// The findings on each entry, in line order and by their numbers, by several workers, where each entry is judged so.
fn findings_by<R: Threads + Wait + Sync>(
    rt: &R,
    alloc: Global,
    trace: &Trace,
    judgements: &[Judged],
    crew: Crew,
) -> Result<Vec<Finding>, AllocError>
    ensures { (given : List (Option (List StepValue))) → AreJudged trace.now given judgements.now
        → IfOk result (λ v. v.items ≡ findings_of trace.now given) }
{
    let reports = found_unseen::<Brand, R>(rt, alloc, trace, judgements, crew)?;
    gather(alloc, reports.as_slice())
}

/// A crew finds them.
#[derive(Drop)]
struct Workers<'r, R: Threads + Wait + Sync> {
    rt: &'r R,
    alloc: Global,
    crew: Crew,
}

impl<'r, A: Source, B: Source, R: Threads + Wait + Sync> Finder<A, B> for Workers<'r, R> {
    ghost use Rattle.std.specs.Prelude.{⊤};
    ghost use Rattle.std.specs.Thread.{IsSync};

    ghost asks = { λ _. IsSync R.row };

    ghost mark = { λ _. 0 };

    ghost tells = { λ _ _ _ _. ⊤ };

    fn trace_of(&self, reader: &mut A) -> Result<Trace, AuditFault> {
        trace_by(self.rt, self.alloc, reader, self.crew.workers)
    }

    fn findings(&mut self, trace: &Trace, evidence: &mut B) -> Result<Vec<Finding>, AuditFault> {
        let judgements = judgements_by(self.rt, self.alloc, evidence, trace, self.crew.workers)?;
        Ok(findings_by(self.rt, self.alloc, trace, &judgements, self.crew)?)
    }
}

/// Audits a trace by its evidence as [`audit_plain`](crate::audit_plain) does, on 1 to 16 workers: the calling
/// thread, and threads of their own. They share the trace and the evidence, each cut into blocks of lines as it is
/// read, and keep no record of evidence; and then the entries, cut into slices of 1 to 4,096. No clause speaks of
/// threads, of blocks or of memory. The report stands in the order of the entries, whatever the schedule.
///
/// `Limits` is answered where there are other numbers of workers or entries in a slice, and then nothing is read or
/// written.
pub fn audit<A: Source, B: Source, W: Sink, R: Threads + Wait + Sync>(
    rt: &R,
    alloc: Global,
    trace: &mut A,
    evidence: &mut B,
    out: &mut W,
    workers: usize,
    slice: usize,
) -> Result<Verdict, AuditFault>
    ensures audited { Audited (reads A.given A.ends A.failures A.remaining trace.old trace.new)
        (reads B.given B.ends B.failures B.remaining evidence.old evidence.new)
        (writes W.taken W.flushes W.failures W.idle W.contents out.old out.new) result }
    ensures kinds { IfErr result (IsOneOf (kind.trace ∷ kind.evidence ∷ kind.write ∷ kind.memory ∷ kind.limits ∷ [])) }
    ensures limits { result ≡ Err faults.Limits ↔ (are_within_limits workers slice ≡ false) }
    ensures unread { result ≡ Err faults.Limits →
        (trace.new ≡ trace.old) × (evidence.new ≡ evidence.old) × (out.new ≡ out.old) }
{
    let Some(crew) = Crew::within_limits(workers, slice) else {
        return Err(AuditFault::Limits);
    };
    if crew.workers == 1 {
        return audit_plain(alloc, trace, evidence, out);
    }
    let mut finder = Workers { rt, alloc, crew };
    audit_with(alloc, trace, evidence, out, &mut finder)
}
