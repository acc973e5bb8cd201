//! The records of evidence.

ghost use Rattle.std.specs.Prelude.{◌≡◌, Some, option_map, map, nat_lt};
ghost use Rattle.std.specs.List.{list_all};
ghost use Rattle.serde_json.specs.View.{view, items_view};
ghost use Rattle.serde_json.specs.declared.value.Value.{Value};
ghost use Rattle.tuple_text.specs.FactRefs.{fact_value};
ghost use Rattle.tuple_text.specs.Reading.{fact_at};
ghost use Rattle.evidence_check.specs.Causes.{Gives, text_cause};
ghost use Rattle.evidence_check.specs.Reading.{is_text_list, is_step, are_shaped, is_known, are_known, fact_in, facts_in, no_in, step_in, steps_in, steps_at, record_steps, fact_count};
ghost use Rattle.evidence_check.specs.Steps.{step_values, borrowed_step, borrowed_steps};

use crate::cause::EvidenceCause;
use crate::step::{AnyStep, Step, StepRef};
use json_lines::fields::are_strings;
use serde_json::Value;
use std::alloc::Global;
use tuple_text::{FactRef, read_fact};

/// How many facts a record may have.
pub const MAX_FACTS: usize = 100000;

fn is_text_list(value: &Value) -> bool
    ensures { result ≡ is_text_list (view value.now) }
{
    match value.as_array() {
        Some(items) => are_strings(items),
        None => false,
    }
}

/// Whether a value has the shape of a step, known or not.
fn is_step(step: &Value) -> bool
    ensures { result ≡ is_step (view step.now) }
{
    match (step.get("yes"), step.get("no")) {
        (Some(fact), None) => fact.is_string(),
        (None, Some(facts)) => is_text_list(facts),
        (None, None) => step.is_object(),
        (Some(_), Some(_)) => true,
    }
}

fn is_each_step(steps: &[Value]) -> bool
    ensures { result ≡ list_all (λ (v : Value). is_step (view v)) steps.now }
{
    steps.iter().all(|step| is_step(step))
}

fn are_shaped(steps: &[Value]) -> bool
    ensures { result ≡ are_shaped (items_view steps.now) }
{
    is_each_step(steps)
}

/// Whether a value has exactly one of the keys that steps have.
fn is_known(step: &Value) -> bool
    ensures { result ≡ is_known (view step.now) }
{
    step.get("yes").is_some() != step.get("no").is_some()
}

fn is_each_known(steps: &[Value]) -> bool
    ensures { result ≡ list_all (λ (v : Value). is_known (view v)) steps.now }
{
    steps.iter().all(|step| is_known(step))
}

fn are_known(steps: &[Value]) -> bool
    ensures { result ≡ are_known (items_view steps.now) }
{
    is_each_known(steps)
}

fn fact_of(text: &str) -> Result<FactRef<'_>, EvidenceCause>
    ensures { Gives fact_value result (text_cause (fact_at text.now)) }
{
    match read_fact(text) {
        Ok(fact) => Ok(fact),
        Err(fault) => Err(EvidenceCause::Text(fault)),
    }
}

fn fact_in<'a>(value: &'a Value) -> Result<FactRef<'a>, EvidenceCause>
    ensures { Gives fact_value result (fact_in (view value.now)) }
{
    let text = value.as_str().ok_or(EvidenceCause::Shape)?;
    fact_of(text)
}

/// The facts that texts are.
fn facts_in<'a>(alloc: Global, items: &'a [Value]) -> Result<Vec<FactRef<'a>>, EvidenceCause>
    ensures { Gives (λ v. map fact_value v.items) result (facts_in (items_view items.now)) }
{
    let mut facts = Vec::new(alloc);
    for item in items {
        facts.push(fact_in(item)?)?;
    }
    Ok(facts)
}

fn no_in<'a>(alloc: Global, value: &'a Value) -> Result<StepRef<'a>, EvidenceCause>
    ensures { Gives (λ s. Some (borrowed_step s)) result (no_in (view value.now)) }
{
    let items = value.as_array().ok_or(EvidenceCause::Shape)?;
    Ok(StepRef::No(facts_in(alloc, items)?))
}

/// The step that a value is, where it is known.
fn step_in<'a>(alloc: Global, step: &'a Value) -> Result<Option<StepRef<'a>>, EvidenceCause>
    ensures { Gives (option_map borrowed_step) result (step_in (view step.now)) }
{
    match (step.get("yes"), step.get("no")) {
        (Some(fact), None) => Ok(Some(StepRef::Yes(fact_in(fact)?))),
        (None, Some(facts)) => Ok(Some(no_in(alloc, facts)?)),
        _ => Ok(None),
    }
}

/// The steps that values are, but for those that are unknown.
fn steps_in<'a>(alloc: Global, items: &'a [Value]) -> Result<Vec<StepRef<'a>>, EvidenceCause>
    ensures { Gives (λ v. borrowed_steps v.items) result (steps_in (items_view items.now)) }
{
    let mut steps = Vec::new(alloc);
    for item in items {
        if let Some(step) = step_in(alloc, item)? {
            steps.push(step)?;
        }
    }
    Ok(steps)
}

/// The values that the steps of a record are, where each is of its shape.
#[tactic(auto, unfolding(crate::specs::Reading::steps_at))]
fn steps_at<'a>(record: &'a Value) -> Option<&'a [Value]>
    ensures { option_map (λ s. items_view s.now) result ≡ steps_at (view record.now) }
{
    let items = record.get("steps")?.as_array()?.as_slice();
    if are_shaped(items) { Some(items) } else { None }
}

/// The steps of a record.
#[tactic(auto, unfolding(crate::specs::Reading::record_steps))]
pub(crate) fn steps_of<'a>(
    alloc: Global,
    record: &'a Value,
) -> Result<Vec<StepRef<'a>>, EvidenceCause>
    ensures { Gives (λ v. borrowed_steps v.items) result (record_steps (view record.now)) }
{
    let items = steps_at(record).ok_or(EvidenceCause::Shape)?;
    let steps = steps_in(alloc, items)?;
    if are_known(items) {
        Ok(steps)
    } else {
        Err(EvidenceCause::UnknownStep)
    }
}

/// Whether the steps, kept or borrowed, have more facts than a record may have.
pub(crate) fn are_too_many<S: AnyStep>(steps: &[S]) -> bool
    ensures { result ≡ nat_lt MAX_FACTS (fact_count (map S.step steps.now)) }
{
    let mut room = MAX_FACTS;
    for step in steps {
        let count = step.count();
        if count > room {
            return true;
        }
        room -= count;
    }
    false
}

/// Whether the steps have more facts than a record may have.
pub fn has_too_many(steps: &[Step]) -> bool
    ensures { result ≡ nat_lt MAX_FACTS (fact_count (step_values steps.now)) }
{
    are_too_many(steps)
}
