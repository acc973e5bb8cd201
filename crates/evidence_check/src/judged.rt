//! Judging entries.

ghost use Rattle.std.specs.Prelude.{◌≡◌, ◌<◌, ◌↔◌, ◌∷◌, [], List, None, Some, IsTrue, true, IfOk, OnOk, length, slice_get, option_map, map};
ghost use Rattle.std.specs.List.{AllByRecursion};
ghost use Rattle.tuple_text.specs.FactRefs.{fact_value};
ghost use Rattle.tuple_text.specs.Refs.{set_value};
ghost use Rattle.tuple_text.specs.Tuples.{FactValue};
ghost use Rattle.namespaces.specs.Lookup.{rule_at};
ghost use Rattle.rewrites.specs.View.{expression_of};
ghost use Rattle.evidence_check.specs.Rules.{IsInForce, IsRuleOf, IsLast, AreLast, IsSettled};
ghost use Rattle.version_chains.specs.Commits.{store_at};
ghost use Rattle.judgement.specs.Facts.{marked_fact};
ghost use Rattle.trace_lines.specs.EntryViews.{entry_value};
ghost use Rattle.trace_lines.specs.Values.{EntryValue};
ghost use Rattle.evidence_check.specs.Accepted.{IsProved, IsDisproved, with_no, after_steps, nothing_known};
ghost use Rattle.evidence_check.specs.Growing.{AreFresh, IsBorneOut};
ghost use Rattle.evidence_check.specs.Evidences.{evidence_value, steps_of};
ghost use Rattle.evidence_check.specs.Judged.{first_bad, by_reply, by_goal, judged, judged_at};
ghost use Rattle.evidence_check.specs.Members.{IsRight, IsWrong};
ghost use Rattle.evidence_check.specs.Steps.{yes_step, no_step, step_values, borrowed_step, borrowed_steps};
ghost use Rattle.evidence_check.specs.Taking.{TakesStep};
ghost use Rattle.evidence_check.specs.declared.judged.Judged.TheVariants.{Supported, Contradicted};

use crate::asked_rules::AskedRules;
use crate::evidence::Evidence;
use crate::step::{StepRef, Steps};
use crate::steps::borrowed_steps;
use judgement::{AskedFact, Known, KnownFact, MarkedFact, established, refuted};
use namespaces::{RulePlace, Rules};
use rewrites::{PartedRule, Rewrite};
use std::alloc::{AllocError, Global};
use trace_lines::laws::valid_strata;
use trace_lines::{Entry, Trace};
use tuple_text::{Fact, FactRef, SetRef};

/// How evidence judges an entry.
#[derive(Clone, Copy, Debug, PartialEq, Eq)]
pub enum Judged {
    /// The goal is known to hold or not to, and the reply says so.
    Supported,
    /// The goal is known to hold or not to, and the reply denies it.
    Contradicted,
    /// The steps are accepted and do not settle the goal.
    Silent,
    /// The first step that is not accepted, from 1.
    Bad { step: u64 },
    /// No record names the entry.
    Missing,
}

/// The rule of a relation that is in force at a timestamp, in its plain form. A wide one is asked by its parts.
#[derive(Clone, Copy, Drop)]
enum RuleInForce<'t> {
    Undeclared,
    Narrow(&'t Rewrite),
    Wide(RulePlace, &'t PartedRule),
}

/// The rule by which a fact was judged last, and the fact's userset.
#[derive(Clone, Copy, Drop)]
struct LastRule<'t, 'a> {
    set: SetRef<'a>,
    rule: RuleInForce<'t>,
}

/// Those by which the facts that are said to hold, and those that are denied, were judged last in a record.
#[derive(Clone, Copy, Drop)]
struct LastRules<'t, 'a> {
    given: Option<LastRule<'t, 'a>>,
    denied: Option<LastRule<'t, 'a>>,
}

fn rule_in_force<'t>(rules: &'t Rules, at: u64, set: SetRef<'_>) -> RuleInForce<'t>
    ensures { IsInForce rules.now at (set_value set.entry) result }
{
    let Some(place) = rules.body_place(set, at) else {
        return RuleInForce::Undeclared;
    };
    match rules.plain_in(place) {
        Some(plain) => match &plain.parted {
            Some(parted) => RuleInForce::Wide(place, parted),
            None => RuleInForce::Narrow(&plain.rewrite),
        },
        None => RuleInForce::Undeclared,
    }
}

/// The rule of a userset's relation, where that of another userset is at hand: facts of one relation mostly follow
/// one another.
fn rule_after<'t>(
    rules: &'t Rules,
    at: u64,
    last: Option<LastRule<'t, '_>>,
    set: SetRef<'_>,
) -> RuleInForce<'t>
    requires { IsLast rules.now at last }
    ensures { IsInForce rules.now at (set_value set.entry) result }
{
    if let Some(last) = last {
        if set.namespace == last.set.namespace && set.relation == last.set.relation {
            return last.rule;
        }
    }
    rule_in_force(rules, at, set)
}

/// Whether a fact is proved by its rule, or disproved, where that is not wide.
fn settles_narrow<F: KnownFact>(
    rule: Option<&Rewrite>,
    trace: &Trace,
    is_given: bool,
    at: u64,
    known: &Known<F>,
    fact: MarkedFact<'_>,
) -> bool
    requires { IsRuleOf trace.now.declarations at (marked_fact fact).set (option_map (λ r. expression_of r.now) rule) }
    ensures { IsTrue result
        ↔ IsSettled (rule_at trace.now.declarations at) (store_at trace.now.commits at) known.now is_given
        (marked_fact fact.entry) }
{
    let Some(rule) = rule else {
        return !is_given;
    };
    let snapshot = trace.timeline().at(at);
    let asked = AskedFact {
        snapshot: &snapshot,
        known,
        set: fact.set,
        user: fact.user,
    };
    if is_given {
        established(rule, &asked)
    } else {
        refuted(rule, &asked)
    }
}

/// Whether a fact is proved by its rule, or disproved.
fn settles<'t, F: KnownFact>(
    rule: RuleInForce<'t>,
    asked: &mut AskedRules<'t>,
    is_given: bool,
    at: u64,
    known: &Known<F>,
    fact: MarkedFact<'_>,
) -> Result<bool, AllocError>
    requires rule { IsInForce asked.old.declarations at (marked_fact fact).set rule }
    ensures asked { asked.new ≡ asked.old }
    ensures settles { IfOk result (λ r. IsTrue r
        ↔ IsSettled (rule_at asked.old.declarations at) (store_at asked.old.commits at) known.now is_given
        (marked_fact fact.entry)) }
{
    let trace = asked.trace();
    match rule {
        RuleInForce::Undeclared => Ok(settles_narrow(None, trace, is_given, at, known, fact)),
        RuleInForce::Narrow(rule) => Ok(settles_narrow(
            Some(rule),
            trace,
            is_given,
            at,
            known,
            fact,
        )),
        RuleInForce::Wide(place, rule) => asked.does(place, rule, is_given, at, known, fact),
    }
}

/// Whether the fact's relation is declared, and its rule gives the fact from what is known. What is asked of a rule
/// of many places for it is kept for the facts behind.
pub fn is_proved_by<'t, F: KnownFact>(
    asked: &mut AskedRules<'t>,
    at: u64,
    known: &Known<F>,
    fact: &Fact,
) -> Result<bool, AllocError>
    ensures asked { asked.new ≡ asked.old }
    ensures proved { IfOk result (λ r. IsTrue r
        ↔ IsProved (rule_at asked.old.declarations at) (store_at asked.old.commits at) known.now fact.now) }
{
    let rule = rule_in_force(asked.trace().rules(), at, fact.set());
    settles(rule, asked, true, at, known, MarkedFact::of(fact.as_ref()))
}

/// Whether a fact is settled, by the rule of the fact before where it is of the same relation.
fn is_settled<'t, 'a>(
    asked: &mut AskedRules<'t>,
    last: &mut Option<LastRule<'t, 'a>>,
    is_given: bool,
    at: u64,
    known: &Known<MarkedFact<'a>>,
    fact: MarkedFact<'a>,
) -> Result<bool, AllocError>
    requires last { IsLast asked.old.declarations at last.old }
    ensures asked { asked.new ≡ asked.old }
    ensures last { IsLast asked.old.declarations at last.new }
    ensures settled { IfOk result (λ r. IsTrue r
        ↔ IsSettled (rule_at asked.old.declarations at) (store_at asked.old.commits at) known.now is_given
        (marked_fact fact.entry)) }
{
    let rule = rule_after(asked.trace().rules(), at, *last, fact.set.set);
    *last = Some(LastRule {
        set: fact.set.set,
        rule,
    });
    settles(rule, asked, is_given, at, known, fact)
}

fn are_disproved<'t, 'a>(
    asked: &mut AskedRules<'t>,
    last: &mut Option<LastRule<'t, 'a>>,
    at: u64,
    known: &Known<MarkedFact<'a>>,
    facts: &[MarkedFact<'a>],
) -> Result<bool, AllocError>
    requires last { IsLast asked.old.declarations at last.old }
    ensures asked { asked.new ≡ asked.old }
    ensures last { IsLast asked.old.declarations at last.new }
    ensures disproved { IfOk result (λ r. IsTrue r
        ↔ AllByRecursion (IsDisproved (rule_at asked.old.declarations at) (store_at asked.old.commits at) known.now)
        (map marked_fact facts.now)) }
{
    for fact in facts {
        if !is_settled(asked, last, false, at, known, *fact)? {
            return Ok(false);
        }
    }
    Ok(true)
}

/// From now on the fact is known not to hold. Where that was not known so before, the fact is put behind those in
/// `fresh`.
fn deny<'a>(
    known: &mut Known<MarkedFact<'a>>,
    fresh: &mut Vec<MarkedFact<'a>>,
    fact: MarkedFact<'a>,
) -> Result<(), AllocError>
    ensures known { OnOk result (known.new ≡ with_no known.old (marked_fact fact.entry ∷ [])) }
    ensures fresh { OnOk result ((before : List FactValue) →
        AreFresh before known.old.no (map marked_fact fresh.old.items) →
        AreFresh before known.new.no (map marked_fact fresh.new.items)) }
{
    let was_denied = known.deny(fact)?;
    if !was_denied {
        fresh.push(fact)?;
    }
    Ok(())
}

/// From now on none of the facts is known to hold. Those that were not known so before are put, each once, in the
/// place of what was in `fresh`.
fn deny_each<'a>(
    known: &mut Known<MarkedFact<'a>>,
    fresh: &mut Vec<MarkedFact<'a>>,
    facts: &[FactRef<'a>],
) -> Result<(), AllocError>
    ensures known { OnOk result (known.new ≡ with_no known.old (map fact_value facts.now)) }
    ensures fresh { OnOk result (AreFresh known.old.no known.new.no (map marked_fact fresh.new.items)) }
{
    fresh.clear();
    for fact in facts {
        deny(known, fresh, MarkedFact::of(*fact))?;
    }
    Ok(())
}

/// Whether a step that says a fact is accepted. From now on the fact is known to hold. A fact that is known already
/// is not judged again: what is known bears it out.
fn take_yes<'t, 'a>(
    asked: &mut AskedRules<'t>,
    last: &mut Option<LastRule<'t, 'a>>,
    at: u64,
    known: &mut Known<MarkedFact<'a>>,
    fact: MarkedFact<'a>,
) -> Result<bool, AllocError>
    requires last { IsLast asked.old.declarations at last.old }
    requires borne { IsBorneOut (rule_at asked.old.declarations at) (store_at asked.old.commits at) known.old }
    ensures asked { asked.new ≡ asked.old }
    ensures last { IsLast asked.old.declarations at last.new }
    ensures taken { TakesStep asked.old at known.old known.new (yes_step (marked_fact fact.entry)) result }
{
    let proved = if known.yes_marked(fact.set, fact.user) {
        true
    } else {
        is_settled(asked, last, true, at, known, fact)?
    };
    known.add_yes(fact)?;
    Ok(proved)
}

/// Whether a step that denies facts is accepted. From now on they are known not to hold. Only those that were not
/// known so before are judged; they are left in `fresh`.
fn take_no<'t, 'a>(
    asked: &mut AskedRules<'t>,
    last: &mut Option<LastRule<'t, 'a>>,
    at: u64,
    known: &mut Known<MarkedFact<'a>>,
    fresh: &mut Vec<MarkedFact<'a>>,
    facts: &[FactRef<'a>],
) -> Result<bool, AllocError>
    requires last { IsLast asked.old.declarations at last.old }
    requires borne { IsBorneOut (rule_at asked.old.declarations at) (store_at asked.old.commits at) known.old }
    ensures asked { asked.new ≡ asked.old }
    ensures last { IsLast asked.old.declarations at last.new }
    ensures taken { TakesStep asked.old at known.old known.new (no_step (map fact_value facts.now)) result }
{
    deny_each(known, fresh, facts)?;
    let are_all = are_disproved(asked, last, at, known, fresh)?;
    Ok(are_all)
}

/// Whether a step is accepted. From now on its facts are known. `fresh` is room for the facts that it denies.
fn take_step<'t, 'a>(
    asked: &mut AskedRules<'t>,
    rules: &mut LastRules<'t, 'a>,
    at: u64,
    known: &mut Known<MarkedFact<'a>>,
    fresh: &mut Vec<MarkedFact<'a>>,
    step: &StepRef<'a>,
) -> Result<bool, AllocError>
    requires last { AreLast asked.old.declarations at rules.old }
    requires borne { IsBorneOut (rule_at asked.old.declarations at) (store_at asked.old.commits at) known.old }
    ensures asked { asked.new ≡ asked.old }
    ensures last { AreLast asked.old.declarations at rules.new }
    ensures taken { TakesStep asked.old at known.old known.new (borrowed_step step.now) result }
{
    match step {
        StepRef::Yes(fact) => take_yes(asked, &mut rules.given, at, known, MarkedFact::of(*fact)),
        StepRef::No(facts) => take_no(asked, &mut rules.denied, at, known, fresh, facts),
    }
}

/// The first step that is not accepted, from 1. Where there is none, the facts of all of them are known from now on.
fn first_bad<'t, 'a>(
    alloc: Global,
    asked: &mut AskedRules<'t>,
    at: u64,
    known: &mut Known<MarkedFact<'a>>,
    steps: &[StepRef<'a>],
) -> Result<Option<u64>, AllocError>
    requires borne { IsBorneOut (rule_at asked.old.declarations at) (store_at asked.old.commits at) known.old }
    ensures asked { asked.new ≡ asked.old }
    ensures first { IfOk result (λ r. r
        ≡ first_bad (rule_at asked.old.declarations at) (store_at asked.old.commits at) known.old 1
        (borrowed_steps steps.now)) }
    ensures known { IfOk result (λ r. r ≡ None → known.new ≡ after_steps known.old (borrowed_steps steps.now)) }
{
    let mut fresh = Vec::new(alloc);
    let mut rules = LastRules {
        given: None,
        denied: None,
    };
    for k in 0..steps.len() {
        if !take_step(asked, &mut rules, at, known, &mut fresh, &steps[k])? {
            return Ok(Some(k as u64 + 1));
        }
    }
    Ok(None)
}

fn by_reply(agrees: bool) -> Judged
    ensures { result ≡ by_reply agrees }
{
    if agrees {
        Judged::Supported
    } else {
        Judged::Contradicted
    }
}

/// What is known of the goal settles it.
fn by_goal(known: &Known<MarkedFact<'_>>, goal: FactRef<'_>, reply: bool) -> Judged
    ensures { result ≡ by_goal known.now (fact_value goal.entry) reply }
{
    if known.yes(goal.set(), goal.user()) {
        by_reply(reply)
    } else if known.no(goal.set(), goal.user()) {
        by_reply(!reply)
    } else {
        Judged::Silent
    }
}

/// Nothing is known, and there is room for the facts of the steps.
fn nothing_known<'a>(
    alloc: Global,
    steps: &[StepRef<'a>],
) -> Result<Known<MarkedFact<'a>>, AllocError>
    ensures { IfOk result (λ known. known ≡ nothing_known) }
{
    let mut yes = 0usize;
    let mut no = 0usize;
    for step in steps {
        match step {
            StepRef::Yes(_) => yes = yes.saturating_add(1),
            StepRef::No(facts) => no = no.saturating_add(facts.len()),
        }
    }
    Known::with_room(alloc, yes, no)
}

/// How borrowed steps judge a reply to a goal at a timestamp.
pub(crate) fn judge_borrowed<'t>(
    alloc: Global,
    asked: &mut AskedRules<'t>,
    at: u64,
    goal: FactRef<'_>,
    reply: bool,
    steps: &[StepRef<'_>],
) -> Result<Judged, AllocError>
    ensures asked { asked.new ≡ asked.old }
    ensures judged { IfOk result (λ j. j ≡ judged_at asked.old at (fact_value goal.entry) reply
        (Some (borrowed_steps steps.now))) }
{
    let mut known = nothing_known(alloc, steps)?;
    match first_bad(alloc, asked, at, &mut known, steps)? {
        Some(step) => Ok(Judged::Bad { step }),
        None => Ok(by_goal(&known, goal, reply)),
    }
}

/// How steps judge an entry, whether or not evidence has them.
pub fn judge_steps(trace: &Trace, entry: &Entry<'_>, steps: &Steps) -> Result<Judged, AllocError>
    ensures { IfOk result (λ j. j ≡ judged trace.now (entry_value entry.now) (Some (step_values steps.now.items))) }
{
    let mut asked = AskedRules::new(*steps.allocator(), trace);
    judge_steps_by(&mut asked, entry, steps)
}

/// The same, where many entries are judged. What is asked of rules of many places for one is kept for those behind.
pub fn judge_steps_by(
    asked: &mut AskedRules<'_>,
    entry: &Entry<'_>,
    steps: &Steps,
) -> Result<Judged, AllocError>
    ensures asked { asked.new ≡ asked.old }
    ensures judged { IfOk result (λ j. j
        ≡ judged asked.old (entry_value entry.now) (Some (step_values steps.now.items))) }
{
    let alloc = *steps.allocator();
    let borrowed = borrowed_steps(alloc, steps)?;
    judge_borrowed(
        alloc,
        asked,
        entry.snapshot,
        entry.goal,
        entry.reply,
        &borrowed,
    )
}

fn judge(
    trace: &Trace,
    at: u64,
    goal: FactRef<'_>,
    reply: bool,
    steps: Option<&Steps>,
) -> Result<Judged, AllocError>
    ensures { IfOk result (λ j. j ≡ judged_at trace.now at (fact_value goal.entry) reply
        (option_map (λ s. step_values s.now.items) steps.entry)) }
{
    let Some(steps) = steps else {
        return Ok(Judged::Missing);
    };
    let alloc = *steps.allocator();
    let mut asked = AskedRules::new(alloc, trace);
    let steps = borrowed_steps(alloc, steps)?;
    judge_borrowed(alloc, &mut asked, at, goal, reply, &steps)
}

/// How the evidence judges entry `i`: by the first step that is not accepted, and else by what is known of the
/// goal after all of them.
pub fn judge_entry(trace: &Trace, evidence: &Evidence, i: usize) -> Result<Judged, AllocError>
    requires { i < length trace.now.entries }
    ensures judged { IfOk result (λ j. (e : EntryValue) → slice_get trace.now.entries i ≡ Some e →
        j ≡ judged trace.now e (steps_of (evidence_value evidence.now) i)) }

    // Whoever made the evidence: a supported reply is what the rules mean at the snapshot, and a contradicted one is
    // the opposite.
    ensures supported { IfOk result (λ j. j ≡ Supported
        → (e : EntryValue) → slice_get trace.now.entries i ≡ Some e → IsRight trace.now e) }
    ensures contradicted { IfOk result (λ j. j ≡ Contradicted
        → (e : EntryValue) → slice_get trace.now.entries i ≡ Some e → IsWrong trace.now e) }
{
    valid_strata(trace);
    let entry = trace.entry(i);
    judge(
        trace,
        entry.snapshot,
        entry.goal,
        entry.reply,
        evidence.steps(i),
    )
}
