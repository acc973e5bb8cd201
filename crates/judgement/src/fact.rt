//! Facts that may be known: owned ones, and borrowed ones with a mark.

ghost use Rattle.std.specs.Prelude.{◌≡◌};
ghost use Rattle.tuple_text.specs.FactRefs.{fact_value};
ghost use Rattle.tuple_text.specs.Order.{fact_eq};
ghost use Rattle.tuple_text.specs.Refs.{set_value};
ghost use Rattle.tuple_text.specs.Sets.{set_eq};
ghost use Rattle.tuple_text.specs.Tuples.{fact_of, fact_tuple};
ghost use Rattle.marks.specs.Marks.{tuple_mark};
ghost use Rattle.judgement.specs.Facts.{marked_fact};

use marks::{MarkedSet, fact_mark};
use tuple_text::{Fact, FactRef, SetRef};

/// A fact whose userset has its mark. Contracts see the fact by `marked_fact`.
#[derive(Clone, Copy, Drop)]
pub struct MarkedFact<'a> {
    pub set: MarkedSet<'a>,
    pub user: u64,
}

/// Whether two usersets are one. They differ by their ids more often than by the rest.
fn are_same(one: SetRef<'_>, other: SetRef<'_>) -> bool
    ensures { result ≡ set_eq (set_value one.entry) (set_value other.entry) }
{
    one.id == other.id && one.relation == other.relation && one.namespace == other.namespace
}

/// A fact as it is kept where it is known.
pub trait KnownFact: Drop {
    ghost use Rattle.tuple_text.specs.Tuples.{FactValue};

    ghost fact: { Self → FactValue };

    /// Whether the mark of its userset is kept, so that it is compared by that first.
    fn keeps_mark() -> bool;

    /// Whether it is the fact of this userset and this user id.
    fn is_of(&self, set: SetRef<'_>, user: u64) -> bool
        ensures { result ≡ fact_eq (fact_of (set_value set.entry) user) (fact self.now) };

    /// The same for a userset whose mark is at hand.
    fn is_of_marked(&self, set: MarkedSet<'_>, user: u64) -> bool
        ensures { result ≡ fact_eq (fact_of (set_value set.entry.set) user) (fact self.now) };

    /// The mark of the fact's tuple.
    fn mark(&self) -> u64
        ensures { result ≡ tuple_mark (fact_tuple (fact self.now)) };

    /// The userset, with its mark.
    fn marked_set(&self) -> MarkedSet<'_>
        ensures { set_value result.set ≡ (fact self.now).set };

    /// The user id.
    fn user_id(&self) -> u64
        ensures { result ≡ (fact self.now).user };
}

impl KnownFact for Fact {
    ghost fact = { λ f. f };

    fn keeps_mark() -> bool {
        false
    }

    fn is_of(&self, set: SetRef<'_>, user: u64) -> bool {
        are_same(set, self.set()) && user == self.user()
    }

    fn is_of_marked(&self, set: MarkedSet<'_>, user: u64) -> bool {
        self.is_of(set.set, user)
    }

    fn mark(&self) -> u64 {
        fact_mark(MarkedSet::of(self.set()), self.user())
    }

    fn marked_set(&self) -> MarkedSet<'_> {
        MarkedSet::of(self.set())
    }

    fn user_id(&self) -> u64 {
        self.user()
    }
}

impl<'a> KnownFact for MarkedFact<'a> {
    ghost use Rattle.judgement.specs.Facts.{marked_fact};

    ghost fact = { marked_fact };

    fn keeps_mark() -> bool {
        true
    }

    fn is_of(&self, set: SetRef<'_>, user: u64) -> bool {
        are_same(set, self.set.set) && user == self.user
    }

    fn is_of_marked(&self, set: MarkedSet<'_>, user: u64) -> bool {
        set.mark == self.set.mark && self.is_of(set.set, user)
    }

    fn mark(&self) -> u64 {
        fact_mark(self.set, self.user)
    }

    fn marked_set(&self) -> MarkedSet<'_> {
        self.set
    }

    fn user_id(&self) -> u64 {
        self.user
    }
}

impl<'a> MarkedFact<'a> {
    /// The fact with its userset's mark.
    pub fn of(fact: FactRef<'a>) -> MarkedFact<'a>
        ensures { marked_fact result ≡ fact_value fact.entry }
    {
        MarkedFact {
            set: MarkedSet::of(fact.set()),
            user: fact.user(),
        }
    }
}
