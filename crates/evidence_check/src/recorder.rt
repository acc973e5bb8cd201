//! The records that are read so far.

ghost use Rattle.std.specs.Prelude.{◌≡◌, replicate, slice_get, slice_set, None, Some, IfOk};
ghost use Rattle.evidence_check.specs.Causes.{Gives};
ghost use Rattle.evidence_check.specs.Reading.{is_taken, put_steps, no_records};
ghost use Rattle.evidence_check.specs.Evidences.{all_shown};
ghost use Rattle.evidence_check.specs.Steps.{step_values, borrowed_steps};

use crate::cause::EvidenceCause;
use crate::placed::EntryLines;
use crate::record::parse_record;
use crate::records::are_too_many;
use crate::step::{StepRef, Steps};
use crate::steps::copied_steps;
use json_lines::TakeJson;
use std::alloc::{AllocError, Global};
use std::marker::Model;
use trace_lines::Trace;

/// The lines of the entries, and the steps that were given for each.
pub(crate) struct Recorder {
    alloc: Global,
    lines: EntryLines,
    // behind the place that was found last: records mostly come in order
    next: usize,
    steps: Vec<Option<Steps>>,
}

impl Drop for Recorder {
    fn drop(self) {
        drop(self.into_steps());
    }
}

impl Model for Recorder {
    ghost use Rattle.evidence_check.specs.Records.{Records};
    ghost use Rattle.evidence_check.specs.EvidenceCode.{records_code};
    ghost use Rattle.evidence_check.specs.Evidences.{all_shown};

    ghost Value = { Records };

    ghost coded = { records_code };

    ghost view = { λ r. record { lines = r.lines; steps = all_shown r.steps.items } };
}

fn no_steps(alloc: Global, count: usize) -> Result<Vec<Option<Steps>>, AllocError>
    ensures { IfOk result (λ v. all_shown v.items ≡ replicate count None) }
{
    let mut steps = Vec::new(alloc);
    for _ in 0..count {
        steps.push(None)?;
    }
    Ok(steps)
}

impl Recorder {
    pub(crate) fn new(alloc: Global, trace: &Trace) -> Result<Recorder, AllocError>
        ensures { IfOk result (λ r. r ≡ no_records trace.now.entries) }
    {
        let lines = EntryLines::of(alloc, trace)?;
        let steps = no_steps(alloc, trace.len())?;
        Ok(Recorder {
            alloc,
            lines,
            next: 0,
            steps,
        })
    }

    /// The steps for each entry.
    pub(crate) fn into_steps(self) -> Vec<Option<Steps>>
        ensures { all_shown result.items ≡ self.steps }
    {
        let Recorder {
            alloc: _,
            lines,
            next: _,
            steps,
        } = self;
        drop(lines);
        steps
    }

    fn is_taken(&self, place: usize) -> bool
        ensures { result ≡ is_taken (slice_get self.now.steps place) }
    {
        match self.steps.get(place) {
            Some(Some(_)) => true,
            Some(None) => false,
            None => false,
        }
    }

    fn set(&mut self, place: usize, steps: Steps)
        ensures { self.new ≡ record self.old
            { steps = slice_set self.old.steps place (Some (step_values steps.items)) } }
    {
        if place < self.steps.len() {
            self.steps[place] = Some(steps);
        }
    }

    #[tactic(auto, unfolding(crate::specs::Reading::put_steps))]
    fn put(&mut self, place: usize, steps: &[StepRef<'_>]) -> Result<(), EvidenceCause>
        ensures { Gives (λ _. self.new) result (put_steps self.old place (borrowed_steps steps.now)) }
    {
        if self.is_taken(place) {
            return Err(EvidenceCause::RepeatedLine);
        }
        if are_too_many(steps) {
            return Err(EvidenceCause::TooMany);
        }
        let steps = copied_steps(self.alloc, steps)?;
        self.set(place, steps);
        Ok(())
    }
}

impl TakeJson for Recorder {
    ghost use Rattle.std.specs.Prelude.{ℕ};
    ghost use Rattle.evidence_check.specs.Reading.{record_line};

    type Cause = EvidenceCause;

    ghost next = { λ _. 0 };

    ghost taken = { λ _. record_line };

    fn take(&mut self, _number: u64, text: &str) -> Result<(), EvidenceCause> {
        let mut value = None;
        let record = parse_record(self.alloc, text, &mut value)?;
        let place = self
            .lines
            .seek(&mut self.next, record.line)
            .ok_or(EvidenceCause::StrayLine)?;
        self.put(place, &record.steps)
    }
}
