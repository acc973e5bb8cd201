//! Facts.

ghost use Rattle.std.specs.Prelude.{◌≡◌, ◌↔◌, ◌<◌, ◌^◌, IfOk, IsTrue};
ghost use Rattle.std.specs.Ordering.{as_partial_cmp};
ghost use Rattle.tuple_text.specs.FactRefs.{fact_value};
ghost use Rattle.tuple_text.specs.Faults.{Gives};
ghost use Rattle.tuple_text.specs.Grammar.{IsHead};
ghost use Rattle.tuple_text.specs.Parts.{checked_fact};
ghost use Rattle.tuple_text.specs.Refs.{set_value};
ghost use Rattle.tuple_text.specs.Tuples.{fact_of};

use crate::fact_refs::FactRef;
use crate::fault::TupleFault;
use crate::forms::is_name;
use crate::sets::{SetRef, Userset, check_parts};
use std::alloc::{AllocError, Global};
use std::cmp::Ordering;
use std::marker::Model;

/// A tuple whose user is an id.
#[derive(Debug, Drop)]
pub struct Fact {
    set: Userset,
    user: u64,
}

impl Model for Fact {
    ghost use Rattle.std.specs.Prelude.{◌≡◌, true};
    ghost use Rattle.tuple_text.specs.Tuples.{FactValue};
    ghost use Rattle.tuple_text.specs.Forms.{is_name};

    ghost Value = { FactValue };

    ghost view = { λ f. record { set = f.set; user = f.user } };

    ghost invariant = { λ f. is_name f.set.relation ≡ true };
}

impl Clone for Fact {
    ghost is_clone = { λ f copy. copy ≡ f };

    fn clone(&self) -> Result<Self, AllocError> {
        let set = self.set.clone()?;
        Ok(Fact {
            set,
            user: self.user,
        })
    }
}

impl PartialEq for Fact {
    ghost use Rattle.std.specs.Cmp.{partial_equiv_from_equiv};
    ghost use Rattle.tuple_text.specs.Order.{fact_eq};
    ghost use Rattle.tuple_text.specs.OrderLaws.{fact_equiv};

    ghost eq = { fact_eq };

    ghost laws = { partial_equiv_from_equiv fact_equiv };

    fn eq(&self, other: &Self) -> bool {
        self.set == other.set && self.user == other.user
    }
}

impl Eq for Fact {
    ghost use Rattle.tuple_text.specs.OrderLaws.{fact_equiv};

    ghost laws = { fact_equiv };
}

impl PartialOrd for Fact {
    ghost use Rattle.std.specs.Cmp.{partial_order_from_own_ties, partial_order_from_total};
    ghost use Rattle.std.specs.Ordering.{as_partial_cmp};
    ghost use Rattle.tuple_text.specs.Order.{fact_cmp};
    ghost use Rattle.tuple_text.specs.OrderLaws.{fact_total, fact_ties};

    ghost partial_cmp = { as_partial_cmp fact_cmp };

    ghost laws = { partial_order_from_own_ties (partial_order_from_total fact_total) fact_ties };

    fn partial_cmp(&self, other: &Self) -> Option<Ordering> {
        Some(self.cmp(other))
    }
}

impl Ord for Fact {
    ghost use Rattle.std.specs.Prelude.{refl};
    ghost use Rattle.tuple_text.specs.Order.{fact_cmp};
    ghost use Rattle.tuple_text.specs.OrderLaws.{fact_total, fact_ties};

    ghost cmp = { fact_cmp };

    ghost total = { fact_total };

    ghost matches_partial_cmp = { λ x y. refl };

    ghost matches_eq = { fact_ties };

    fn cmp(&self, other: &Self) -> Ordering {
        self.set.cmp(&other.set).then(self.user.cmp(&other.user))
    }
}

impl Fact {
    /// The fact of these parts. A refusal gives the offset that the part would have in the written text.
    pub fn of(alloc: Global, set: SetRef<'_>, user: u64) -> Result<Fact, TupleFault>
        ensures exact { Gives (λ f. f) result (checked_fact (set_value set.entry) user) }
    {
        check_parts(set, is_name(set.relation))?;
        Ok(Fact::from_parts(alloc, set, user)?)
    }

    /// The fact of parts that are known to be in form.
    pub(crate) fn from_parts(alloc: Global, set: SetRef<'_>, user: u64) -> Result<Fact, AllocError>
        requires { IsHead (set_value set) }
        ensures { IfOk result (λ f. f ≡ fact_of (set_value set.entry) user) }
    {
        let set = Userset::from_parts(alloc, set)?;
        Ok(Fact { set, user })
    }

    /// The fact, borrowed.
    pub fn as_ref(&self) -> FactRef<'_>
        ensures { fact_value result ≡ self.now }
    {
        FactRef::from_parts(self.set(), self.user)
    }

    /// The userset that the user is in.
    pub fn set(&self) -> SetRef<'_>
        ensures parts { set_value result ≡ self.now.set }
        ensures form { IsHead self.now.set }
    {
        self.set.as_ref()
    }

    /// The id of the user.
    pub fn user(&self) -> u64
        ensures value { result ≡ self.now.user }
        ensures form { self.now.user < 2 ^ 64 }
    {
        self.user
    }
}
