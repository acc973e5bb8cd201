//! What a record says of its entry by itself, whatever was read before it.

ghost use Rattle.std.specs.Prelude.{◌≡◌, slice_get, IfOk};
ghost use Rattle.evidence_check.specs.Alone.{judgement_at, verdict_of};
ghost use Rattle.evidence_check.specs.Causes.{Gives};
ghost use Rattle.evidence_check.specs.Judging.{judged_by};
ghost use Rattle.evidence_check.specs.Steps.{borrowed_steps};

use crate::asked_rules::AskedRules;
use crate::cause::EvidenceCause;
use crate::judged::{Judged, judge_borrowed};
use crate::placed::EntryLines;
use crate::record::parse_record;
use crate::records::are_too_many;
use crate::step::StepRef;
use std::alloc::{AllocError, Global};

/// What a record says of its entry by itself.
#[derive(Clone, Copy, Debug)]
pub struct Verdict {
    /// The place of the entry.
    pub place: usize,
    /// How the record judges the entry; None where it has more facts than a record may have.
    pub judgement: Option<Judged>,
}

/// How steps judge the entry at a place.
fn judge_at<'t>(
    alloc: Global,
    asked: &mut AskedRules<'t>,
    place: usize,
    steps: &[StepRef<'_>],
) -> Result<Judged, AllocError>
    ensures asked { asked.new ≡ asked.old }
    ensures judged { IfOk result (λ j. j
        ≡ judged_by asked.old (slice_get asked.old.entries place) (borrowed_steps steps.now)) }
{
    let trace = asked.trace();
    if place < trace.len() {
        let entry = trace.entry(place);
        judge_borrowed(alloc, asked, entry.snapshot, entry.goal, entry.reply, steps)
    } else {
        Ok(Judged::Missing)
    }
}

/// How the steps of a record for the entry at a place judge it.
fn verdict_at<'t>(
    alloc: Global,
    asked: &mut AskedRules<'t>,
    place: usize,
    steps: &[StepRef<'_>],
) -> Result<Verdict, AllocError>
    ensures asked { asked.new ≡ asked.old }
    ensures verdict { IfOk result (λ v. v
        ≡ record { place = place; judgement = judgement_at asked.old place (borrowed_steps steps.now) }) }
{
    let judgement = if are_too_many(steps) {
        None
    } else {
        Some(judge_at(alloc, asked, place, steps)?)
    };
    Ok(Verdict { place, judgement })
}

/// What a record says of its entry, whose place is sought first at `next`. Threads share the lines, and each has
/// rules of its own that it asks.
pub fn judge_alone<'t>(
    alloc: Global,
    asked: &mut AskedRules<'t>,
    lines: &EntryLines,
    next: &mut usize,
    text: &str,
) -> Result<Verdict, EvidenceCause>
    ensures asked { asked.new ≡ asked.old }
    ensures verdict { Gives (λ v. v) result (verdict_of asked.old lines.now text.now) }
{
    let mut value = None;
    let record = parse_record(alloc, text, &mut value)?;
    let place = lines
        .seek(next, record.line)
        .ok_or(EvidenceCause::StrayLine)?;
    Ok(verdict_at(alloc, asked, place, &record.steps)?)
}
