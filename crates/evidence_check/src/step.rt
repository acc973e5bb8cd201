//! Steps of evidence, kept and borrowed.

ghost use Rattle.std.specs.Prelude.{◌≡◌, map, IfOk};
ghost use Rattle.tuple_text.specs.FactRefs.{fact_value};

use std::alloc::{AllocError, Global};
use tuple_text::{Fact, FactRef};

/// A step of the evidence for one entry.
#[derive(Debug, Drop)]
pub enum Step {
    /// The fact holds: its rule gives it from the facts before.
    Yes(Fact),
    /// None of these facts holds: the rule of each refuses it from the facts before and from the others.
    No(Vec<Fact>),
}

/// The steps of the evidence for one entry, in order.
pub type Steps = Vec<Step>;

/// A step whose facts are borrowed, from a record's line or from a step that is kept.
#[derive(Drop)]
pub(crate) enum StepRef<'a> {
    Yes(FactRef<'a>),
    No(Vec<FactRef<'a>>),
}

/// A step, kept or borrowed.
pub(crate) trait AnyStep {
    ghost use Rattle.evidence_check.specs.Reading.{count_of};
    ghost use Rattle.evidence_check.specs.Steps.{StepValue};

    ghost step: { Self → StepValue };

    /// How many facts the step has.
    fn count(&self) -> usize
        ensures { result ≡ count_of (step self.now) };
}

impl AnyStep for Step {
    ghost use Rattle.evidence_check.specs.Steps.{step_value};

    ghost step = { step_value };

    fn count(&self) -> usize {
        match self {
            Step::Yes(_) => 1,
            Step::No(facts) => facts.len(),
        }
    }
}

impl<'a> AnyStep for StepRef<'a> {
    ghost use Rattle.evidence_check.specs.Steps.{borrowed_step};

    ghost step = { borrowed_step };

    fn count(&self) -> usize {
        match self {
            StepRef::Yes(_) => 1,
            StepRef::No(facts) => facts.len(),
        }
    }
}

fn borrowed_facts(alloc: Global, facts: &[Fact]) -> Result<Vec<FactRef<'_>>, AllocError>
    ensures { IfOk result (λ v. map fact_value v.items ≡ facts.now) }
{
    let mut borrowed = Vec::with_capacity(alloc, facts.len())?;
    for fact in facts {
        borrowed.push(fact.as_ref())?;
    }
    Ok(borrowed)
}

fn copied_facts(alloc: Global, facts: &[FactRef<'_>]) -> Result<Vec<Fact>, AllocError>
    ensures { IfOk result (λ v. v.items ≡ map fact_value facts.now) }
{
    let mut copied = Vec::with_capacity(alloc, facts.len())?;
    for fact in facts {
        copied.push(fact.to_fact(alloc)?)?;
    }
    Ok(copied)
}

impl Step {
    ghost use Rattle.evidence_check.specs.Steps.{step_value, borrowed_step};

    pub(crate) fn as_ref(&self, alloc: Global) -> Result<StepRef<'_>, AllocError>
        ensures { IfOk result (λ s. borrowed_step s ≡ step_value self.now) }
    {
        match self {
            Step::Yes(fact) => Ok(StepRef::Yes(fact.as_ref())),
            Step::No(facts) => Ok(StepRef::No(borrowed_facts(alloc, facts)?)),
        }
    }
}

impl<'a> StepRef<'a> {
    ghost use Rattle.evidence_check.specs.Steps.{step_value, borrowed_step};

    pub(crate) fn to_step(&self, alloc: Global) -> Result<Step, AllocError>
        ensures { IfOk result (λ s. step_value s ≡ borrowed_step self.now) }
    {
        match self {
            StepRef::Yes(fact) => Ok(Step::Yes(fact.to_fact(alloc)?)),
            StepRef::No(facts) => Ok(Step::No(copied_facts(alloc, facts)?)),
        }
    }
}
