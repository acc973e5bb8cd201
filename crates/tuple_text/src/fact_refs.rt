//! Borrowed facts.

ghost use Rattle.std.specs.Prelude.{◌≡◌, ◌<◌, ◌^◌, IfOk};
ghost use Rattle.tuple_text.specs.Grammar.{IsHead};
ghost use Rattle.tuple_text.specs.Refs.{set_value};

use crate::facts::Fact;
use crate::sets::SetRef;
use std::alloc::{AllocError, Global};

/// A fact, borrowed. Its parts are in form, as those of a [`Fact`] are.
#[derive(Clone, Copy, Debug)]
pub struct FactRef<'a> {
    set: SetRef<'a>,
    user: u64,
    ghost is_head: { IsHead (set_value set) },
}

impl<'a> FactRef<'a> {
    ghost use Rattle.tuple_text.specs.FactRefs.{fact_value};
    ghost use Rattle.tuple_text.specs.Tuples.{fact_of};

    /// The fact of parts that are known to be in form.
    pub fn from_parts(set: SetRef<'a>, user: u64) -> FactRef<'a>
        requires { IsHead (set_value set) }
        ensures { fact_value result ≡ fact_of (set_value set.entry) user }
    {
        FactRef { set, user }
    }

    /// The userset that the user is in.
    pub fn set(self) -> SetRef<'a>
        ensures parts { set_value result ≡ (fact_value self.entry).set }
        ensures form { IsHead (fact_value self.entry).set }
    {
        self.set
    }

    /// The id of the user.
    pub fn user(self) -> u64
        ensures value { result ≡ (fact_value self.entry).user }
        ensures form { (fact_value self.entry).user < 2 ^ 64 }
    {
        self.user
    }

    /// The fact, owned.
    pub fn to_fact(self, alloc: Global) -> Result<Fact, AllocError>
        ensures { IfOk result (λ f. f ≡ fact_value self.entry) }
    {
        Fact::from_parts(alloc, self.set, self.user)
    }
}
