//! Evidence by the way that was found for another entry.

ghost use Rattle.std.specs.Prelude.{◌≡◌, IfOk, IfSome};
ghost use Rattle.trace_lines.specs.EntryViews.{entry_value};
ghost use Rattle.evidence_maker.specs.Made.{IsMadeFor};

use crate::maker::{Made, made_of};
use evidence_check::{AskedRules, Step, Steps};
use std::alloc::{AllocError, Global};
use trace_lines::Entry;
use tuple_text::{Fact, FactRef, SetRef};

/// What was found for an entry of this userset, user and reply.
#[derive(Clone, Copy)]
pub struct Found<'a> {
    pub set: SetRef<'a>,
    pub user: u64,
    pub reply: bool,
    pub steps: &'a Steps,
}

/// A user in place of another.
#[derive(Clone, Copy)]
struct Change {
    from: u64,
    to: u64,
}

fn changed_fact(alloc: Global, fact: &Fact, change: Change) -> Result<Fact, AllocError> {
    let user = if fact.user() == change.from {
        change.to
    } else {
        fact.user()
    };
    FactRef::from_parts(fact.set(), user).to_fact(alloc)
}

fn changed_facts(alloc: Global, facts: &[Fact], change: Change) -> Result<Vec<Fact>, AllocError> {
    let mut changed = Vec::with_capacity(alloc, facts.len())?;
    for fact in facts {
        changed.push(changed_fact(alloc, fact, change)?)?;
    }
    Ok(changed)
}

fn changed_steps(alloc: Global, steps: &[Step], change: Change) -> Result<Steps, AllocError> {
    let mut changed = Vec::with_capacity(alloc, steps.len())?;
    for step in steps {
        let step = match step {
            Step::Yes(fact) => Step::Yes(changed_fact(alloc, fact, change)?),
            Step::No(facts) => Step::No(changed_facts(alloc, facts, change)?),
        };
        changed.push(step)?;
    }
    Ok(changed)
}

/// The steps that were found for another entry of the same userset and reply, for this one's user, where they are a
/// record for it.
///
/// Where they are not, so many steps were judged in vain. What was found is then not tried again, so that this costs
/// no more in all than what was found.
pub(crate) fn made_like(
    alloc: Global,
    asked: &mut AskedRules<'_>,
    entry: &Entry<'_>,
    found: Option<Found<'_>>,
) -> Result<Option<Made>, AllocError>
    ensures asked { asked.new ≡ asked.old }
    ensures made { IfOk result (λ o. IfSome o (IsMadeFor asked.old (entry_value entry.now))) }
{
    let Some(found) = found else {
        return Ok(None);
    };
    if found.reply != entry.reply || found.set != entry.goal.set() {
        return Ok(None);
    }
    let change = Change {
        from: found.user,
        to: entry.goal.user(),
    };
    let steps = changed_steps(alloc, found.steps, change)?;
    made_of(asked, entry, steps)
}
