//! Settling the facts of a cone, stratum by stratum.

ghost use Rattle.std.specs.Prelude.{◌≡◌, ◌+◌, ◌∷◌, ◌++◌, [], ◌↔◌, ◌⊎◌, ℕ, List, IsTrue, true, false, IfOk, OnOk, Contains, length, map};
ghost use Rattle.tuple_text.specs.Tuples.{FactValue};
ghost use Rattle.namespaces.specs.Lookup.{rule_at};
ghost use Rattle.version_chains.specs.Commits.{store_at};
ghost use Rattle.evidence_check.specs.Growing.{Grows};
ghost use Rattle.evidence_check.specs.Accepted.{IsProved, with_no};
ghost use Rattle.evidence_check.specs.Steps.{step_values};
ghost use Rattle.goal_cone.specs.Cone.{HasItsPremises, AreDistinct};
ghost use Rattle.evidence_maker.specs.Making.{IsMakingAt, IsKnown, IsSifted, AreLeft, IsMade, stratum_of};
ghost use Rattle.evidence_maker.specs.Saturation.{AreUnsettled};

use crate::layers::{layer_of, places_of, strata_of, top_of, well_formed};
use evidence_check::{AskedRules, Step, Steps, is_proved_by};
use judgement::Known;
use std::alloc::{AllocError, Global};
use trace_lines::Trace;
use tuple_text::Fact;

/// Whether the fact is known to hold, or known not to.
fn is_known(known: &Known<Fact>, fact: &Fact) -> bool
    ensures { IsTrue result ↔ IsKnown known.now fact.now }
{
    known.yes(fact.set(), fact.user()) || known.no(fact.set(), fact.user())
}

/// Says that the fact holds, where nothing is known of it and it is proved. Answers whether it is left as it was,
/// unknown.
fn look_at(
    asked: &mut AskedRules<'_>,
    at: u64,
    fact: &Fact,
    known: &mut Known<Fact>,
    steps: &mut Steps,
) -> Result<bool, AllocError>
    ensures asked { asked.new ≡ asked.old }
    ensures kept { OnOk result ((C : List FactValue) (k : ℕ) → Contains C fact.now →
        IsMakingAt asked.old at C k known.old (step_values steps.old.items) →
        IsMakingAt asked.old at C k known.new (step_values steps.new.items)) }
    ensures grows { OnOk result (Grows known.old known.new) }
    ensures settled { IfOk result (λ left. left ≡ false → IsKnown known.new fact.now) }
    ensures left { IfOk result (λ left. left ≡ true → (known.new ≡ known.old) × (¬ IsKnown known.old fact.now)
        × (¬ IsProved (rule_at asked.old.declarations at) (store_at asked.old.commits at) known.old fact.now)) }
{
    if is_known(known, fact) {
        return Ok(false);
    }
    if !is_proved_by(asked, at, known, fact)? {
        return Ok(true);
    }
    steps.push(Step::Yes(fact.clone()?))?;
    known.add_yes(fact.clone()?)?;
    Ok(false)
}

/// Looks at the facts of some places of the cone.
fn look_at_each(
    asked: &mut AskedRules<'_>,
    at: u64,
    cone: &[Fact],
    places: &[usize],
    known: &mut Known<Fact>,
    steps: &mut Steps,
) -> Result<(), AllocError>
    ensures asked { asked.new ≡ asked.old }
    ensures kept { OnOk result ((k : ℕ) →
        IsMakingAt asked.old at cone.now k known.old (step_values steps.old.items) →
        IsMakingAt asked.old at cone.now k known.new (step_values steps.new.items)) }
{
    for place in places {
        if *place < cone.len() {
            look_at(asked, at, &cone[*place], known, steps)?;
        }
    }
    Ok(())
}

/// Looks at facts, and answers those that are left.
fn sift(
    asked: &mut AskedRules<'_>,
    at: u64,
    facts: &[Fact],
    known: &mut Known<Fact>,
    steps: &mut Steps,
) -> Result<Vec<Fact>, AllocError>
    ensures asked { asked.new ≡ asked.old }
    ensures kept { OnOk result ((C : List FactValue) (k : ℕ) → ((f : FactValue) → Contains facts.now f → Contains C f) →
        IsMakingAt asked.old at C k known.old (step_values steps.old.items) →
        IsMakingAt asked.old at C k known.new (step_values steps.new.items)) }
    ensures sifted { IfOk result
        (λ v. IsSifted (rule_at asked.old.declarations at) (store_at asked.old.commits at) known.old known.new
        facts.now v.items) }
{
    let mut left = Vec::new(*steps.allocator());
    for fact in facts {
        if look_at(asked, at, fact, known, steps)? {
            left.push(fact.clone()?)?;
        }
    }
    Ok(left)
}

/// Looks at facts until no look changes anything. Answers those that are left.
fn settle_layer(
    asked: &mut AskedRules<'_>,
    at: u64,
    layer: Vec<Fact>,
    known: &mut Known<Fact>,
    steps: &mut Steps,
) -> Result<Vec<Fact>, AllocError>
    ensures asked { asked.new ≡ asked.old }
    ensures kept { OnOk result ((C : List FactValue) (k : ℕ)
        → ((f : FactValue) → Contains layer.items f → Contains C f) →
        IsMakingAt asked.old at C k known.old (step_values steps.old.items) →
        IsMakingAt asked.old at C k known.new (step_values steps.new.items)) }
    ensures left { IfOk result
        (λ v. AreLeft (rule_at asked.old.declarations at) (store_at asked.old.commits at) known.new
        layer.items v.items) }
{
    let rounds = layer.len();
    let mut left = layer;
    for round in 0..rounds {
        let rest = sift(asked, at, &left, known, steps)?;
        if rest.len() == left.len() {
            return Ok(rest);
        }
        left = rest;
    }
    Ok(left)
}

/// From now on none of the facts is known to hold.
fn add_each_no(known: &mut Known<Fact>, facts: &[Fact]) -> Result<(), AllocError>
    ensures { OnOk result (known.new ≡ with_no known.old facts.now) }
{
    for fact in facts {
        known.add_no(fact.clone()?)?;
    }
    Ok(())
}

/// Says of what is left of a stratum that it does not hold.
fn leave(
    trace: &Trace,
    at: u64,
    left: Vec<Fact>,
    known: &mut Known<Fact>,
    steps: &mut Steps,
) -> Result<(), AllocError>
    ensures { OnOk result ((C : List FactValue) (k : ℕ) →
        HasItsPremises (rule_at trace.now.declarations at) (store_at trace.now.commits at) C →
        AreUnsettled (rule_at trace.now.declarations at) known.old C k left.items →
        ((f : FactValue) → Contains left.items f
        → ¬ IsProved (rule_at trace.now.declarations at) (store_at trace.now.commits at) known.old f) →
        AreDistinct left.items →
        IsMakingAt trace.now at C k known.old (step_values steps.old.items) →
        IsMakingAt trace.now at C (k + 1) known.new (step_values steps.new.items)) }
{
    // Their strata are valid.
    well_formed(trace.rules());
    if left.is_empty() {
        return Ok(());
    }
    add_each_no(known, &left)?;
    steps.push(Step::No(left))?;
    Ok(())
}

/// Settles the facts of a stratum, where those of the lower ones are settled. These are the strata of all.
fn settle_stratum(
    asked: &mut AskedRules<'_>,
    at: u64,
    cone: &[Fact],
    strata: &[Option<u8>],
    stratum: u16,
    places: &[usize],
    known: &mut Known<Fact>,
    steps: &mut Steps,
) -> Result<(), AllocError>
    requires { strata.now ≡ map (stratum_of (rule_at asked.old.declarations at)) cone.now }
    ensures asked { asked.new ≡ asked.old }
    ensures making { OnOk result (
        HasItsPremises (rule_at asked.old.declarations at) (store_at asked.old.commits at) cone.now →
        AreDistinct cone.now →
        IsMakingAt asked.old at cone.now stratum known.old (step_values steps.old.items) →
        IsMakingAt asked.old at cone.now (stratum + 1) known.new (step_values steps.new.items)) }
{
    look_at_each(asked, at, cone, places, known, steps)?;
    let layer = layer_of(*steps.allocator(), cone, strata, stratum)?;
    let left = settle_layer(asked, at, layer, known, steps)?;
    leave(asked.trace(), at, left, known, steps)
}

/// Steps that settle each fact of a cone. Of a stratum those are looked at first that stand in an order, as they do.
pub(crate) fn settle(
    alloc: Global,
    asked: &mut AskedRules<'_>,
    at: u64,
    cone: &[Fact],
    order: &[usize],
) -> Result<Steps, AllocError>
    ensures asked { asked.new ≡ asked.old }
    ensures made { IfOk result (λ v.
        HasItsPremises (rule_at asked.old.declarations at) (store_at asked.old.commits at) cone.now →
        AreDistinct cone.now →
        IsMade (rule_at asked.old.declarations at) (store_at asked.old.commits at) cone.now (step_values v.items)) }
{
    let snapshot = asked.trace().timeline().at(at);
    let found = strata_of(alloc, &snapshot, cone)?;
    let strata = found.as_slice();
    let mut known = Known::new(alloc);
    let mut steps = Vec::new(alloc);
    let end = top_of(strata) as u16 + 1;
    for stratum in 0..end {
        let places = places_of(alloc, strata, stratum, order)?;
        settle_stratum(
            asked, at, cone, strata, stratum, &places, &mut known, &mut steps,
        )?;
    }
    Ok(steps)
}
