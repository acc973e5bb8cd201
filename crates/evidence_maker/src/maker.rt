//! Making evidence for a decision.

ghost use Rattle.std.specs.Prelude.{Bool, false, ◌≡◌, ◌<◌, ◌≤◌, ◌↔◌, ◌^◌, ◌⊎◌, [], ◌∷◌, IsTrue, IfOk, IfSome, Err, None, Some, length, slice_get};
ghost use Rattle.tuple_text.specs.FactRefs.{fact_value};
ghost use Rattle.tuple_text.specs.Grammar.{IsFact};
ghost use Rattle.namespaces.specs.Lookup.{rule_at};
ghost use Rattle.version_chains.specs.Commits.{store_at};
ghost use Rattle.trace_lines.specs.EntryViews.{entry_value};
ghost use Rattle.trace_lines.specs.Values.{EntryValue};
ghost use Rattle.evidence_check.specs.Reading.{fact_count};
ghost use Rattle.evidence_check.specs.Steps.{step_values};
ghost use Rattle.evidence_check.specs.declared.records.TheConstants.{MAX_FACTS};
ghost use Rattle.goal_cone.specs.Bounds.{IsOutgrown};
ghost use Rattle.goal_cone.specs.declared.premises.TheConstants.{MAX_LINKS};
ghost use Rattle.record_text.specs.Record.{record_length};
ghost use Rattle.evidence_maker.specs.Made.{alone, Settles, Fits, IsRecord, IsOneStep, IsTooLong, IsOutOfReach, IsMadeFor};

use crate::fault::MakeFault;
use crate::like::{Found, made_like};
use crate::settle::settle;
use evidence_check::{AskedRules, Judged, Step, Steps, has_too_many, judge_steps_by};
use goal_cone::{Leaves, Search, Settled, WideRules, explore_by};
use record_text::record_bytes;
use snapshots::Snapshot;
use std::alloc::{AllocError, Global};
use std::marker::Model;
use trace_lines::{Entry, Trace};
use tuple_text::{Fact, FactRef};

/// Steps that are made for an entry, and how they judge it.
#[derive(Drop)]
pub struct Made {
    pub steps: Steps,
    pub judged: Judged,
}

/// How many bytes a record may have, without its newline.
const MAX_BYTES: u64 = 1 << 20;

/// Whether a record for the entry on a line may hold the steps.
fn fits(line: u64, steps: &[Step]) -> bool
    ensures { IsTrue result ↔ Fits line (step_values steps.now) }
{
    if has_too_many(steps) {
        return false;
    }
    record_bytes(line, steps) <= MAX_BYTES
}

/// The steps as evidence for the entry, where they are accepted and settle the goal, and a record may hold them.
pub(crate) fn made_of(
    asked: &mut AskedRules<'_>,
    entry: &Entry<'_>,
    steps: Steps,
) -> Result<Option<Made>, AllocError>
    ensures asked { asked.new ≡ asked.old }
    ensures made { IfOk result (λ o. IfSome o (IsMadeFor asked.old (entry_value entry.now))) }
    ensures none { IfOk result (λ o. o ≡ None
        → ¬ IsRecord asked.old (entry_value entry.now) (step_values steps.items)) }
{
    if !fits(entry.line, &steps) {
        return Ok(None);
    }
    let judged = judge_steps_by(asked, entry, &steps)?;
    match judged {
        Judged::Supported | Judged::Contradicted => Ok(Some(Made { steps, judged })),
        _ => Ok(None),
    }
}

/// A goal has a text, by its type, and a line is a number of 64 bits.
fn has_text(line: u64, goal: FactRef<'_>)
    ensures fact { IsFact (fact_value goal.entry) }
    ensures line { line < 2 ^ 64 }
{
    let _ = goal.set();
    let _ = goal.user();
}

/// That the goal holds, or does not, said in one step.
fn alone(alloc: Global, entry: &Entry<'_>, holds: bool) -> Result<Steps, AllocError>
    ensures { IfOk result (λ v. step_values v.items ≡ alone holds (fact_value entry.now.goal)) }
{
    let goal = entry.goal.to_fact(alloc)?;
    let mut steps = Vec::new(alloc);
    if holds {
        steps.push(Step::Yes(goal))?;
        return Ok(steps);
    }
    let mut facts = Vec::new(alloc);
    facts.push(goal)?;
    steps.push(Step::No(facts))?;
    Ok(steps)
}

/// Evidence of one step, which says that the goal holds or that it does not.
fn made_alone(
    alloc: Global,
    asked: &mut AskedRules<'_>,
    entry: &Entry<'_>,
    holds: bool,
) -> Result<Option<Made>, AllocError>
    ensures asked { asked.new ≡ asked.old }
    ensures made { IfOk result (λ o. IfSome o (IsMadeFor asked.old (entry_value entry.now))) }
    ensures none { IfOk result (λ o. o ≡ None
        → ¬ IsRecord asked.old (entry_value entry.now) (alone holds (fact_value entry.now.goal))) }
{
    let steps = alone(alloc, entry, holds)?;
    made_of(asked, entry, steps)
}

/// Steps that say what was settled, in the same order.
fn steps_of(alloc: Global, settled: Vec<Settled>) -> Result<Steps, AllocError> {
    let mut steps = Vec::with_capacity(alloc, settled.len())?;
    for one in settled {
        let step = match one {
            Settled::Holds(fact) => Step::Yes(fact),
            Settled::Fail(facts) => Step::No(facts),
        };
        steps.push(step)?;
    }
    Ok(steps)
}

/// What a search settles of an entry's goal.
fn searched(
    alloc: Global,
    trace: &Trace,
    rules: &mut WideRules,
    entry: &Entry<'_>,
) -> Result<Option<Vec<Settled>>, AllocError> {
    let snapshot = trace.timeline().at(entry.snapshot);
    Search::new(alloc, &snapshot, rules, entry.goal.user()).settle(entry.goal.set())
}

/// Evidence that is found without a look at the goal's whole cone: by the way that was found for another entry, or by
/// a direct search.
fn made_soon(
    alloc: Global,
    asked: &mut AskedRules<'_>,
    rules: &mut WideRules,
    entry: &Entry<'_>,
    found: Option<Found<'_>>,
) -> Result<Option<Made>, AllocError>
    ensures asked { asked.new ≡ asked.old }
    ensures made { IfOk result (λ o. IfSome o (IsMadeFor asked.old (entry_value entry.now))) }
{
    if let Some(made) = made_like(alloc, asked, entry, found)? {
        return Ok(Some(made));
    }
    match searched(alloc, asked.trace(), rules, entry)? {
        Some(settled) => made_of(asked, entry, steps_of(alloc, settled)?),
        None => Ok(None),
    }
}

/// The places of the facts of a cone that hold by a search, in the order in which that showed.
fn order_of(
    alloc: Global,
    snapshot: &Snapshot<'_>,
    rules: &mut WideRules,
    user: u64,
    cone: &[Fact],
) -> Result<Vec<usize>, AllocError> {
    Search::new(alloc, snapshot, rules, user).order_of(cone)
}

/// Whether evidence is there that supports the reply.
fn is_supported(made: &Option<Made>) -> bool
    ensures { made.now ≡ None → result ≡ false }
{
    match made {
        Some(made) => made.judged == Judged::Supported,
        None => false,
    }
}

/// Evidence of one step, or what is made soon. One step against the reply is tried last: where there is evidence for
/// the reply, there is none against it.
fn made_shortly(
    alloc: Global,
    asked: &mut AskedRules<'_>,
    rules: &mut WideRules,
    entry: &Entry<'_>,
    found: Option<Found<'_>>,
) -> Result<Option<Made>, AllocError>
    ensures asked { asked.new ≡ asked.old }
    ensures made { IfOk result (λ o. IfSome o (IsMadeFor asked.old (entry_value entry.now))) }
    ensures none { IfOk result (λ o. o ≡ None → (holds : Bool)
        → ¬ IsRecord asked.old (entry_value entry.now) (alone holds (fact_value entry.now.goal))) }
{
    if let Some(made) = made_alone(alloc, asked, entry, entry.reply)? {
        return Ok(Some(made));
    }
    let soon = made_soon(alloc, asked, rules, entry, found)?;
    if is_supported(&soon) {
        return Ok(soon);
    }
    match made_alone(alloc, asked, entry, !entry.reply)? {
        Some(made) => Ok(Some(made)),
        None => Ok(soon),
    }
}

/// Evidence for an entry. Where one step is not enough, what was found for another one is tried before a search.
fn made_for<'t>(
    alloc: Global,
    asked: &mut AskedRules<'t>,
    leaves: &mut Leaves<'t>,
    rules: &mut WideRules,
    entry: &Entry<'_>,
    found: Option<Found<'_>>,
) -> Result<Made, MakeFault>
    requires rules { leaves.old.declarations ≡ asked.old.declarations }
    requires goal { IsFact (fact_value entry.now.goal) }
    requires line { entry.now.line < 2 ^ 64 }
    ensures asked { asked.new ≡ asked.old }
    ensures leaves { leaves.new.declarations ≡ leaves.old.declarations }
    ensures made { IfOk result (IsMadeFor asked.old (entry_value entry.now)) }
    ensures gave_up { result ≡ Err MakeFault.GaveUp → IsOutOfReach asked.old (entry_value entry.now) }
{
    if let Some(made) = made_shortly(alloc, asked, rules, entry, found)? {
        return Ok(made);
    }
    let snapshot = asked.trace().timeline().at(entry.snapshot);
    let goal = entry.goal.to_fact(alloc)?;
    let cone = explore_by(alloc, leaves, &snapshot, &goal)?;
    let order = order_of(alloc, &snapshot, rules, entry.goal.user(), &cone)?;
    let steps = settle(alloc, asked, entry.snapshot, &cone, &order)?;
    match made_of(asked, entry, steps)? {
        Some(made) => Ok(made),
        None => Err(MakeFault::GaveUp),
    }
}

/// It makes evidence for the entries of a trace, and keeps the leaves of rules, what it asked of rules of many
/// places, and what their parts read, for the entries behind.
#[derive(Drop)]
pub struct Maker<'t> {
    alloc: Global,
    asked: AskedRules<'t>,
    leaves: Leaves<'t>,
    rules: WideRules,
}

/// What a maker found of the rules of a trace, while more of that comes.
#[derive(Drop)]
pub struct PausedMaker {
    // of how many declarations
    declarations: usize,
    rules: WideRules,
}

impl<'t> Model for Maker<'t> {
    ghost use Rattle.std.specs.Prelude.{◌≡◌};
    ghost use Rattle.trace_lines.specs.TraceCode.{trace_code};
    ghost use Rattle.trace_lines.specs.Values.{TraceValue};

    ghost Value = { TraceValue };

    ghost coded = { trace_code };

    ghost view = { λ m. m.asked };

    ghost invariant = { λ m. m.leaves.declarations ≡ m.asked.declarations };
}

impl<'t> Maker<'t> {
    /// Nothing was asked.
    pub fn new(alloc: Global, trace: &'t Trace) -> Maker<'t>
        ensures { result ≡ trace.now }
    {
        Maker {
            alloc,
            asked: AskedRules::new(alloc, trace),
            leaves: Leaves::new(alloc, trace.rules()),
            rules: WideRules::new(alloc),
        }
    }

    /// What was found of rules, while more of the trace comes.
    pub fn pause(self) -> PausedMaker {
        PausedMaker {
            declarations: self.asked.trace().rules().len(),
            rules: self.rules,
        }
    }

    /// Evidence for entry `i` as [`make`] gives it, and how it judges the entry. Where one step is not enough, what
    /// was found for another entry of the same userset and reply is tried for this one's user before a search.
    ///
    /// Refusals are those of [`make`].
    pub fn make_after(&mut self, i: usize, found: Option<Found<'_>>) -> Result<Made, MakeFault>
        requires { i < length self.old.entries }
        ensures trace { self.new ≡ self.old }
        ensures made { IfOk result (λ m. (e : EntryValue) → slice_get self.old.entries i ≡ Some e
            → IsMadeFor self.old e m) }
        ensures gave_up { result ≡ Err MakeFault.GaveUp → (e : EntryValue) → slice_get self.old.entries i ≡ Some e
            → IsOutOfReach self.old e }
    {
        let entry = self.asked.trace().entry(i);
        has_text(entry.line, entry.goal);
        made_for(
            self.alloc,
            &mut self.asked,
            &mut self.leaves,
            &mut self.rules,
            &entry,
            found,
        )
    }
}

impl PausedMaker {
    /// Nothing was found.
    pub fn new(alloc: Global) -> PausedMaker {
        PausedMaker {
            declarations: 0,
            rules: WideRules::new(alloc),
        }
    }

    /// A maker for the trace as far as it came. Where rules came, what was found before is let go: a trace has 4,096
    /// declarations at most.
    pub fn resume(self, alloc: Global, trace: &Trace) -> Maker<'_>
        ensures { result ≡ trace.now }
    {
        let mut maker = Maker::new(alloc, trace);
        if self.declarations == trace.rules().len() {
            maker.rules = self.rules;
        }
        maker
    }
}

/// Evidence for entry `i`: steps that are accepted in order, after which it is known whether the goal holds, so that
/// the entry is supported or contradicted by them. They have at most 100,000 facts, and their record at most 2^20
/// bytes before its newline.
///
/// Refusals: 1 GaveUp, only where one step is not enough, and either every list of facts that holds the goal and its
/// own premises has more than 100,000 facts or reads more than [`goal_cone::MAX_LINKS`] stored usersets, or the
/// record of the goal's whole cone, each declared fact of it said once, has more than 2^20 bytes; 2 OutOfMemory.
pub fn make(alloc: Global, trace: &Trace, i: usize) -> Result<Steps, MakeFault>
    requires { i < length trace.now.entries }
    ensures accepted { IfOk result (λ v. (e : EntryValue) → slice_get trace.now.entries i ≡ Some e
        → Settles trace.now e (step_values v.items)) }
    ensures fits { IfOk result (λ v. fact_count (step_values v.items) ≤ MAX_FACTS) }
    ensures short { IfOk result (λ v. (e : EntryValue) → slice_get trace.now.entries i ≡ Some e
        → record_length e.line (step_values v.items) ≤ 2 ^ 20) }
    ensures complete { result ≡ Err MakeFault.GaveUp → (e : EntryValue) → slice_get trace.now.entries i ≡ Some e →
        IsOutgrown MAX_FACTS MAX_LINKS (rule_at trace.now.declarations e.snapshot)
        (store_at trace.now.commits e.snapshot) e.goal ⊎ IsTooLong trace.now e }
    ensures one_step { result ≡ Err MakeFault.GaveUp → (e : EntryValue) → slice_get trace.now.entries i ≡ Some e
        → ¬ IsOneStep trace.now e }
{
    let mut maker = Maker::new(alloc, trace);
    match maker.make_after(i, None) {
        Ok(made) => Ok(made.steps),
        Err(fault) => Err(fault),
    }
}
