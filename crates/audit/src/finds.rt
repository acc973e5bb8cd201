//! What was made for entries, to be tried for others of the same userset and reply.
//!
//! What is tried is judged like any steps, so no contract speaks of it.

use evidence_check::Step;
use evidence_maker::{Found, Made};
use marks::MarkedSet;
use std::alloc::{AllocError, Global};
use std::collections::BTreeMap;
use trace_lines::Trace;
use tuple_text::FactRef;

/// How many facts the steps may name that are kept: some megabytes of them.
const MOST_FACTS: usize = 1 << 15;

fn facts_of(made: &Made) -> usize {
    let mut facts = 0usize;
    for step in &made.steps {
        let of_step = match step {
            Step::Yes(_) => 1,
            Step::No(facts) => facts.len(),
        };
        facts = facts.saturating_add(of_step);
    }
    facts
}

/// The mark of the goal's userset, another one for each reply.
fn key_of(goal: FactRef<'_>, reply: bool) -> u64 {
    let mark = MarkedSet::of(goal.set()).mark;
    if reply { mark } else { !mark }
}

/// For each userset and reply what was made for the last entry that has them. Those of one mark share a place. Where
/// the steps name too many facts together, all is forgotten.
#[derive(Drop)]
pub struct Finds {
    alloc: Global,
    made: BTreeMap<u64, (usize, Made)>,
    facts: usize,
}

impl Finds {
    /// Nothing was made.
    pub fn new(alloc: Global) -> Finds {
        Finds {
            alloc,
            made: BTreeMap::new(alloc),
            facts: 0,
        }
    }

    /// What was made for an entry of the userset and reply of these.
    pub(crate) fn found<'a>(
        &'a self,
        trace: &'a Trace,
        goal: FactRef<'_>,
        reply: bool,
    ) -> Option<Found<'a>> {
        if self.made.is_empty() {
            return None;
        }
        match self.made.get(&key_of(goal, reply)) {
            Some((i, made)) if *i < trace.len() => {
                let entry = trace.entry(*i);
                Some(Found {
                    set: entry.goal.set(),
                    user: entry.goal.user(),
                    reply: entry.reply,
                    steps: &made.steps,
                })
            }
            _ => None,
        }
    }

    fn forget(&mut self, key: u64) {
        if let Some((_, before)) = self.made.remove(&key) {
            self.facts = self.facts.saturating_sub(facts_of(&before));
        }
    }

    fn put(&mut self, key: u64, i: usize, made: Made, facts: usize) -> Result<(), AllocError> {
        if self.facts.saturating_add(facts) > MOST_FACTS {
            self.made = BTreeMap::new(self.alloc);
            self.facts = 0;
        }
        self.facts = self.facts.saturating_add(facts);
        let _ = self.made.insert(key, (i, made))?;
        Ok(())
    }

    /// Keeps what was made for entry `i` in place of what was made before for one of its userset and reply: that was
    /// tried for it, and is tried no more. A step of one fact is not kept, since it is tried for each entry.
    pub(crate) fn keep(
        &mut self,
        goal: FactRef<'_>,
        reply: bool,
        i: usize,
        made: Option<Made>,
    ) -> Result<(), AllocError> {
        match made {
            Some(made) => {
                let facts = facts_of(&made);
                if facts < 2 {
                    return Ok(());
                }
                let key = key_of(goal, reply);
                self.forget(key);
                self.put(key, i, made, facts)
            }
            None => {
                self.forget(key_of(goal, reply));
                Ok(())
            }
        }
    }
}
