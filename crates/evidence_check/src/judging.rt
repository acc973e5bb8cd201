//! Judging the records as they are read.

ghost use Rattle.std.specs.Prelude.{◌≡◌, replicate, slice_get, slice_set, Ok, Err, IfOk, IfErr, OnOk};
ghost use Rattle.evidence_check.specs.Alone.{settled};
ghost use Rattle.evidence_check.specs.Judging.{is_judged, no_judgements};
ghost use Rattle.evidence_check.specs.declared.judged.Judged.TheVariants.{Missing};

use crate::alone::{Verdict, judge_alone};
use crate::asked_rules::AskedRules;
use crate::cause::EvidenceCause;
use crate::judged::Judged;
use crate::placed::EntryLines;
use json_lines::TakeJson;
use std::alloc::{AllocError, Global};
use std::marker::Model;
use trace_lines::Trace;

/// How the entries of a trace are judged by the records read so far, none of which is kept.
pub struct Judging<'t> {
    alloc: Global,
    trace: &'t Trace,
    lines: EntryLines,
    // behind the place that was found last: records mostly come in order
    next: usize,
    judgements: Vec<Judged>,
    asked: AskedRules<'t>,
}

impl<'t> Drop for Judging<'t> {
    fn drop(self) {
        drop(self.into_judgements());
    }
}

impl<'t> Model for Judging<'t> {
    ghost use Rattle.evidence_check.specs.Records.{Judgements};
    ghost use Rattle.std.specs.Prelude.{◌≡◌};
    ghost use Rattle.evidence_check.specs.EvidenceCode.{judgements_code};

    ghost Value = { Judgements };

    ghost coded = { judgements_code };

    ghost view = { λ j. record { trace = j.trace.now; lines = j.lines; judgements = j.judgements.items } };

    ghost invariant = { λ j. j.asked ≡ j.trace.now };
}

fn none_judged(alloc: Global, count: usize) -> Result<Vec<Judged>, AllocError>
    ensures { IfOk result (λ v. v.items ≡ replicate count Missing) }
{
    vec![in alloc; Judged::Missing; count]
}

impl<'t> Judging<'t> {
    pub fn new(alloc: Global, trace: &'t Trace) -> Result<Judging<'t>, AllocError>
        ensures { IfOk result (λ j. j ≡ no_judgements trace.now) }
    {
        let lines = EntryLines::of(alloc, trace)?;
        let judgements = none_judged(alloc, trace.len())?;
        Ok(Judging {
            alloc,
            trace,
            lines,
            next: 0,
            judgements,
            asked: AskedRules::new(alloc, trace),
        })
    }

    /// How each entry is judged.
    pub fn into_judgements(self) -> Vec<Judged>
        ensures { result.items ≡ self.entry.judgements }
    {
        let Judging {
            alloc: _,
            trace: _,
            lines,
            next: _,
            judgements,
            asked,
        } = self;
        drop(lines);
        drop(asked);
        judgements
    }

    fn is_judged(&self, place: usize) -> bool
        ensures { result ≡ is_judged (slice_get self.now.judgements place) }
    {
        match self.judgements.get(place) {
            Some(Judged::Missing) => false,
            Some(_) => true,
            None => false,
        }
    }

    fn set(&mut self, place: usize, judgement: Judged)
        ensures { self.new ≡ record self.old { judgements = slice_set self.old.judgements place judgement } }
    {
        if place < self.judgements.len() {
            self.judgements[place] = judgement;
        }
    }

    /// Takes what a record says of its entry.
    #[tactic(auto, unfolding(crate::specs::Alone::settled))]
    pub fn settle(&mut self, verdict: Verdict) -> Result<(), EvidenceCause>
        ensures ok { OnOk result (settled self.old verdict ≡ Ok self.new) }
        ensures refused { IfErr result (λ cause. settled self.old verdict ≡ Err cause) }
    {
        if self.is_judged(verdict.place) {
            return Err(EvidenceCause::RepeatedLine);
        }
        let Some(judgement) = verdict.judgement else {
            return Err(EvidenceCause::TooMany);
        };
        self.set(verdict.place, judgement);
        Ok(())
    }
}

impl<'t> TakeJson for Judging<'t> {
    ghost use Rattle.std.specs.Prelude.{ℕ};
    ghost use Rattle.evidence_check.specs.Judging.{judge_line};

    type Cause = EvidenceCause;

    ghost next = { λ _. 0 };

    ghost taken = { λ _. judge_line };

    fn take(&mut self, _number: u64, text: &str) -> Result<(), EvidenceCause> {
        let verdict = judge_alone(
            self.alloc,
            &mut self.asked,
            &self.lines,
            &mut self.next,
            text,
        )?;
        self.settle(verdict)
    }
}
