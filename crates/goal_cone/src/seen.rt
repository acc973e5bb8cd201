//! The facts that a search has seen.

ghost use Rattle.std.specs.Prelude.{◌≡◌, ◌∷◌, ◌++◌, [], None, Some, OnOk, OnErr, IfSome, IsTrue, ◌↔◌, Contains, map, option_map, slice_get, length};
ghost use Rattle.tuple_text.specs.Refs.{set_value};
ghost use Rattle.tuple_text.specs.Tuples.{fact_of, fact_tuple};
ghost use Rattle.marks.specs.Marks.{tuple_mark};

use judgement::KnownFact;
use marks::{MarkedSet, Places, fact_mark};
use std::alloc::{AllocError, Global};
use std::marker::Model;
use tuple_text::{Fact, SetRef};

/// The facts that were seen, which contracts see as the list of them in the order in which they came.
pub(crate) struct Seen {
    facts: Vec<Fact>,
    // by which they are found
    marks: Places,
}

impl Model for Seen {
    ghost use Rattle.std.specs.Prelude.{List, ◌≡◌, map};
    ghost use Rattle.tuple_text.specs.Tuples.{FactValue, fact_tuple};
    ghost use Rattle.marks.specs.Marks.{tuple_mark};
    ghost use Rattle.judgement.specs.KnownCode.{facts_code};

    ghost Value = { List FactValue };

    ghost coded = { facts_code };

    ghost view = { λ s. s.facts.items };

    ghost invariant = { λ s. s.marks ≡ map tuple_mark (map fact_tuple s.facts.items) };
}

// Written out, since one that is derived is a part of each function that lets the facts go.
impl Drop for Seen {
    fn drop(self) {
        let Seen { facts, marks } = self;
        drop(facts);
        drop(marks);
    }
}

/// The place of the fact of a userset and a user id, among the places that its mark names.
fn find(facts: &[Fact], marks: &Places, set: MarkedSet<'_>, user: u64) -> Option<usize>
    requires { marks.now ≡ map tuple_mark (map fact_tuple facts.now) }
    ensures there { IfSome result (λ i. slice_get facts.now i ≡ Some (fact_of (set_value set.entry.set) user)) }
    ensures absent { result ≡ None → ¬ Contains facts.now (fact_of (set_value set.entry.set) user) }
{
    for number in marks.with(fact_mark(set, user)) {
        if facts[number].is_of_marked(set, user) {
            return Some(number);
        }
    }
    None
}

impl Seen {
    pub(crate) fn new(alloc: Global) -> Seen
        ensures { result ≡ [] }
    {
        Seen {
            facts: Vec::new(alloc),
            marks: Places::new(alloc),
        }
    }

    /// Adds a fact. Where memory runs out, the facts stay as they were.
    pub(crate) fn add(&mut self, fact: Fact) -> Result<(), AllocError>
        ensures ok { OnOk result (self.new ≡ self.old ++ fact ∷ []) }
        ensures err { OnErr result (self.new ≡ self.old) }
    {
        self.facts.reserve(1)?;
        self.marks
            .push(fact_mark(MarkedSet::of(fact.set()), fact.user()))?;
        self.facts.push_reserved(fact);
        Ok(())
    }

    /// Whether the fact of a userset and a user id was seen.
    pub(crate) fn has(&self, set: SetRef<'_>, user: u64) -> bool
        ensures { IsTrue result ↔ Contains self.now (fact_of (set_value set.entry) user) }
    {
        find(&self.facts, &self.marks, MarkedSet::of(set), user).is_some()
    }

    pub(crate) fn len(&self) -> usize
        ensures { result ≡ length self.now }
    {
        self.facts.len()
    }

    /// The fact that came at a place.
    pub(crate) fn get(&self, i: usize) -> Option<&Fact>
        ensures { option_map (λ f. f.now) result ≡ slice_get self.now i }
    {
        self.facts.get(i)
    }

    pub(crate) fn into_facts(self) -> Vec<Fact>
        ensures { result.items ≡ self }
    {
        let Seen { facts, marks } = self;
        drop(marks);
        facts
    }
}
