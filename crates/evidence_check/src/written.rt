//! Records that are written plainly: with no space and no escape, and the line in front.
//!
//! What is taken here needs no reader of JSON. Each call answers None of any other text, and where memory runs out:
//! then the line is read as JSON, which names what is wrong with it.

ghost use Rattle.std.specs.Prelude.{◌≡◌, ◌∷◌, ◌++◌, map, IfSome};
ghost use Rattle.tuple_text.specs.FactRefs.{fact_value};
ghost use Rattle.evidence_check.specs.RecordPieces.{BeginsWithFact, BeginsWithFacts};
ghost use Rattle.evidence_check.specs.RecordPieces.{BeginsWithStep, BeginsWithSteps, IsRecord};
ghost use Rattle.evidence_check.specs.Steps.{borrowed_step, borrowed_steps};

use crate::record::RecordRef;
use crate::step::StepRef;
use compact_json::behind;
use std::alloc::Global;
use tuple_text::{FactRef, number_before, quoted_fact};

/// The fact in front, behind its opening quote, and what stands behind its closing one.
fn fact_before(text: &str) -> Option<(FactRef<'_>, &str)>
    ensures { IfSome result (λ p. BeginsWithFact (34 ∷ text.now) (fact_value p.0) p.1.now) }
{
    let (fact, rest) = quoted_fact(text)?;
    Some((fact, rest))
}

/// The facts in front with a comma between, behind the opening quote of the first, and what stands behind them.
fn facts_before(alloc: Global, text: &str) -> Option<(Vec<FactRef<'_>>, &str)>
    ensures { IfSome result (λ p. BeginsWithFacts (34 ∷ text.now) (map fact_value p.0.items) p.1.now) }
{
    let mut facts = Vec::new(alloc);
    let (fact, mut rest) = fact_before(text)?;
    facts.push(fact).ok()?;
    while let Some(next) = behind(rest, ",\"") {
        let (fact, after) = fact_before(next)?;
        facts.push(fact).ok()?;
        rest = after;
    }
    Some((facts, rest))
}

/// The step in front, and what stands behind it.
fn step_before(alloc: Global, text: &str) -> Option<(StepRef<'_>, &str)>
    ensures { IfSome result (λ p. BeginsWithStep text.now (borrowed_step p.0) p.1.now) }
{
    if let Some(rest) = behind(text, "{\"yes\":\"") {
        let (fact, rest) = fact_before(rest)?;
        return Some((StepRef::Yes(fact), behind(rest, "}")?));
    }
    let (facts, rest) = facts_before(alloc, behind(text, "{\"no\":[\"")?)?;
    Some((StepRef::No(facts), behind(rest, "]}")?))
}

/// The steps in front with a comma between, and what stands behind them.
fn steps_before(alloc: Global, text: &str) -> Option<(Vec<StepRef<'_>>, &str)>
    ensures { IfSome result (λ p. BeginsWithSteps text.now (borrowed_steps p.0.items) p.1.now) }
{
    let mut steps = Vec::new(alloc);
    let (step, mut rest) = step_before(alloc, text)?;
    steps.push(step).ok()?;
    while let Some(next) = behind(rest, ",") {
        let (step, after) = step_before(alloc, next)?;
        steps.push(step).ok()?;
        rest = after;
    }
    Some((steps, rest))
}

/// The record that a text is.
pub(crate) fn written_record(alloc: Global, text: &str) -> Option<RecordRef<'_>>
    ensures { IfSome result (λ r. IsRecord text.now r.line (borrowed_steps r.steps.items)) }
{
    let (line, rest) = number_before(behind(text, "{\"line\":")?)?;
    let (steps, rest) = steps_before(alloc, behind(rest, ",\"steps\":[")?)?;
    if rest != "]}" {
        return None;
    }
    Some(RecordRef { line, steps })
}
