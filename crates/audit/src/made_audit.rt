//! The audit on evidence that is made for its trace.

ghost use Rattle.std.specs.Prelude.{◌≡◌, ◌↔◌, ◌<◌, ◌≤◌, ◌^◌, [], ◌∷◌, List, Option, Some, length, slice_get, false, Err, IfOk, IfErr};
ghost use Rattle.std.specs.List.{AllZip, flat_map, range_with_len};
ghost use Rattle.trace_lines.specs.Values.{EntryValue};
ghost use Rattle.audit_slices.specs.Board.{IsNamedBy};
ghost use Rattle.audit_slices.specs.Reports.{report_items};
ghost use Rattle.evidence_check.specs.Steps.{StepValue};
ghost use Rattle.findings.specs.Findings.{findings_of};
ghost use Rattle.audit.specs.Devices.{reads, writes};
ghost use Rattle.audit.specs.Kinds.{IsOneOf};
ghost use Rattle.audit.specs.Kinds as kind;
ghost use Rattle.audit.specs.Made.{AreMade};
ghost use Rattle.audit.specs.Answers.{AuditedMade};
ghost use Rattle.audit.specs.MadeAudit.{IsJudgedMade, IsFoundMade};
ghost use Rattle.audit.specs.Shared.{has_finding, are_within_limits};
ghost use Rattle.audit.specs.declared.plain.AuditFault.TheVariants as faults;

use crate::finds::Finds;
use crate::made::made_for;
use crate::plain::{AuditFault, Verdict};
use crate::reading::trace_by;
use crate::shared::{Crew, Found, gather, is_any, reports_by};
use crate::telling::tell_findings;
use audit_slices::{Blind, Board, Check, Names, SliceReport};
use devices::{Sink, Source};
use evidence_check::Judged;
use evidence_maker::{Made, Maker};
use findings::laws::right_and_fresh_without_findings;
use findings::{Finding, found_where};
use std::alloc::{AllocError, Global};
use std::marker::Brand;
use std::sync::Wait;
use std::thread::Threads;
use trace_lines::Trace;

/// It makes evidence for the decisions of a trace, finds what is wrong with each by its own, and lets that go.
#[derive(Drop)]
struct MakingCheck<'t, 'a> {
    trace: &'t Trace,
    // Lent, since the borrow checker takes no check with one lifetime alone to a pool.
    alloc: &'a Global,
    entries: usize,
    ghost fits: { entries < 2 ^ 64 },
    ghost all: { entries ≡ length trace.now.entries },
}

impl<'t, 'a> Check for MakingCheck<'t, 'a> {
    type Report = Found;

    ghost use Rattle.std.proofs.Common.{rules};
    ghost use Rattle.audit.specs.MadeAudit.{IsFoundMade};
    ghost use Rattle.audit.specs.Shared.{has_finding};

    ghost entries = { λ c. c.entries };

    ghost gives = { λ c entry found. IsFoundMade c.trace.now entry found };

    ghost raises = { λ _ found. has_finding found };

    ghost entries_fit = { Prim.search rules };

    fn check(&self, entry: usize) -> Result<Found, AllocError> {
        let mut maker = Maker::new(*self.alloc, self.trace);
        let mut finds = Finds::new(*self.alloc);
        found_making(&mut maker, self.trace, entry, &mut finds)
    }

    // One maker for all of them, so that a rule of many places is begun once for a slice and not for each entry; and
    // what was made for those before is tried first.
    fn check_run(
        &self,
        alloc: Global,
        from: usize,
        count: usize,
    ) -> Result<Vec<Found>, AllocError> {
        let mut maker = Maker::new(alloc, self.trace);
        let mut reports = Vec::new(alloc);
        let mut finds = Finds::new(alloc);
        // bounded by the entries of a slice, and for each by the limits of the search
        for k in 0..count {
            let found = found_making(&mut maker, self.trace, from + k, &mut finds)?;
            reports.push(found)?;
        }
        Ok(reports)
    }

    fn alerts(&self, found: &Found) -> bool {
        is_any(&found.what)
    }
}

/// What is found on entry `i` by evidence that is made for it. What was made for others is tried first, and this is
/// kept with that.
fn found_making(
    maker: &mut Maker<'_>,
    trace: &Trace,
    i: usize,
    finds: &mut Finds,
) -> Result<Found, AllocError>
    requires maker { maker.old ≡ trace.now }
    requires entry { i < length trace.now.entries }
    ensures maker { maker.new ≡ maker.old }
    ensures found { IfOk result (IsFoundMade trace.now i) }
{
    let entry = trace.entry(i);
    let (judged, made) = judgement_made(maker, i, finds.found(trace, entry.goal, entry.reply))?;
    let what = found_where(trace, i, judged);
    finds.keep(entry.goal, entry.reply, i, made)?;
    Ok(Found {
        line: entry.line,
        what,
    })
}

/// How evidence that is made for entry `i` judges it, and that.
pub(crate) fn judgement_made(
    maker: &mut Maker<'_>,
    i: usize,
    found: Option<evidence_maker::Found<'_>>,
) -> Result<(Judged, Option<Made>), AllocError>
    requires { i < length maker.old.entries }
    ensures maker { maker.new ≡ maker.old }
    ensures judged { IfOk result
        (λ r. (e : EntryValue) → slice_get maker.old.entries i ≡ Some e → IsJudgedMade maker.old e r.0) }
{
    match made_for(maker, i, found)? {
        Some(made) => Ok((made.judged, Some(made))),
        None => Ok((Judged::Missing, None)),
    }
}

/// Into how many slices the entries are cut, about, where a trace has many.
const MOST_SLICES: usize = 64;

/// The same crew, with slices so long that there are few of them, however many entries and workers there are: with each
/// slice the rules of many places are begun anew.
fn with_few_slices(crew: Crew, entries: usize) -> Crew
    ensures { result.workers ≡ crew.workers }
{
    let share = entries / MOST_SLICES;
    Crew {
        workers: crew.workers,
        slice: crew.slice.max(share),
    }
}

/// What is found on each entry by evidence that is made for it, in slices.
fn found_made<N: Names<Found> + Sync, R: Threads + Wait + Sync>(
    rt: &R,
    alloc: Global,
    trace: &Trace,
    crew: Crew,
) -> Result<Vec<SliceReport<Found>>, AllocError>
    requires { IsNamedBy (IsFoundMade trace.now) has_finding N.gives N.alerts }
    ensures { IfOk result (λ v. AllZip (IsFoundMade trace.now)
        (range_with_len 0 (length trace.now.entries)) (flat_map report_items v.items)) }
{
    let entries = trace.len();
    let check = MakingCheck {
        trace,
        alloc: &alloc,
        entries,
    };
    let no_board: Option<Board<Found, N>> = None;
    reports_by(
        rt,
        alloc,
        &check,
        entries,
        with_few_slices(crew, entries),
        no_board.as_ref(),
        &mut Blind,
    )
}

/// The findings on each entry by evidence that is made for it, in line order and by their numbers, by several workers.
fn findings_made<R: Threads + Wait + Sync>(
    rt: &R,
    alloc: Global,
    trace: &Trace,
    crew: Crew,
) -> Result<Vec<Finding>, AllocError>
    ensures { IfOk result (λ v. (given : List (Option (List StepValue)))
        × AreMade trace.now trace.now.entries given × (v.items ≡ findings_of trace.now given)) }
{
    let reports = found_made::<Brand, R>(rt, alloc, trace, crew)?;
    gather(alloc, reports.as_slice())
}

/// Audits a trace by evidence that is made for it, and writes the report of what several workers find.
fn audit_made_by<A: Source, W: Sink, R: Threads + Wait + Sync>(
    rt: &R,
    alloc: Global,
    trace: &mut A,
    out: &mut W,
    crew: Crew,
) -> Result<Verdict, AuditFault>
    ensures made { AuditedMade (reads A.given A.ends A.failures A.remaining trace.old trace.new)
        (writes W.taken W.flushes W.failures W.idle W.contents out.old out.new) result }
    ensures kinds { IfErr result (IsOneOf (kind.trace ∷ kind.write ∷ kind.memory ∷ [])) }
{
    let trace = trace_by(rt, alloc, trace, crew.workers)?;
    right_and_fresh_without_findings(&trace);
    let found = findings_made(rt, alloc, &trace, crew);
    let entries = trace.len();
    drop(trace);
    tell_findings(alloc, &found?, entries, out)
}

/// Audits a trace by evidence that is made for it in place, and never written. The report is on some such evidence;
/// that it is the same on any number of workers no clause says.
///
/// A clean verdict says of the trace what that of [`audit`](crate::audit) says, and a reply that a finding `F10` calls
/// wrong is wrong. Nor is a wrong reply within the maker's reach missed: the reply of each entry is right; or it is
/// wrong, and has an `F10`; or the entry is out of reach, and has an `F7`. `F7` is found only on the line of an entry
/// that is out of reach, and `F8` and `F9` nowhere. So it is whatever evidence is made.
///
/// 1 to 16 workers, the calling thread among them, share the entries, in slices of `slice` entries, 1 to 4,096, or of
/// more where a trace has so many that there would be over 64. Each makes the evidence for an entry, and judges
/// the entry by it. Up to the end of the slice it keeps what it asked of rules of many places, and of the evidence what
/// it made last for each userset and reply, of 32,768 facts at most or of one entry. No clause speaks of threads or of
/// memory.
///
/// `Limits` is answered where there are other numbers of workers or entries in a slice, and then nothing is read or
/// written. A trace is refused as by [`audit`](crate::audit), and nothing is written where it is or memory runs out.
pub fn audit_made<A: Source, W: Sink, R: Threads + Wait + Sync>(
    rt: &R,
    alloc: Global,
    trace: &mut A,
    out: &mut W,
    workers: usize,
    slice: usize,
) -> Result<Verdict, AuditFault>
    ensures made { AuditedMade (reads A.given A.ends A.failures A.remaining trace.old trace.new)
        (writes W.taken W.flushes W.failures W.idle W.contents out.old out.new) result }
    ensures kinds { IfErr result (IsOneOf (kind.trace ∷ kind.write ∷ kind.memory ∷ kind.limits ∷ [])) }
    ensures limits { result ≡ Err faults.Limits ↔ (are_within_limits workers slice ≡ false) }
    ensures unread { result ≡ Err faults.Limits → (trace.new ≡ trace.old) × (out.new ≡ out.old) }
{
    let Some(crew) = Crew::within_limits(workers, slice) else {
        return Err(AuditFault::Limits);
    };
    audit_made_by(rt, alloc, trace, out, crew)
}
