//! Tuples.

ghost use Rattle.std.specs.Prelude.{◌≡◌, ◌↔◌, IfOk, IsTrue};
ghost use Rattle.std.specs.Ordering.{as_partial_cmp};
ghost use Rattle.tuple_text.specs.Grammar.{IsHead, IsUser};
ghost use Rattle.tuple_text.specs.Refs.{set_value, user_value};
ghost use Rattle.tuple_text.specs.TupleRefs.{tuple_value};
ghost use Rattle.tuple_text.specs.Tuples.{tuple_of};

use crate::sets::{SetRef, Userset};
use crate::tuple_refs::TupleRef;
use crate::users::{User, UserRef};
use std::alloc::{AllocError, Global};
use std::cmp::Ordering;
use std::marker::Model;

/// A relation tuple `object#relation@user`: the user has the relation to the object (Zanzibar, section 2.1).
#[derive(Debug, Drop)]
pub struct Tuple {
    set: Userset,
    user: User,
}

impl Model for Tuple {
    ghost use Rattle.std.specs.Prelude.{◌≡◌, true};
    ghost use Rattle.tuple_text.specs.Tuples.{TupleValue};
    ghost use Rattle.tuple_text.specs.Forms.{is_name};

    ghost Value = { TupleValue };

    ghost view = { λ t. record { set = t.set; user = t.user } };

    ghost invariant = { λ t. is_name t.set.relation ≡ true };
}

impl Clone for Tuple {
    ghost is_clone = { λ t copy. copy ≡ t };

    fn clone(&self) -> Result<Self, AllocError> {
        let set = self.set.clone()?;
        let user = self.user.clone()?;
        Ok(Tuple { set, user })
    }
}

impl PartialEq for Tuple {
    ghost use Rattle.std.specs.Cmp.{partial_equiv_from_equiv};
    ghost use Rattle.tuple_text.specs.Order.{tuple_eq};
    ghost use Rattle.tuple_text.specs.OrderLaws.{tuple_equiv};

    ghost eq = { tuple_eq };

    ghost laws = { partial_equiv_from_equiv tuple_equiv };

    fn eq(&self, other: &Self) -> bool {
        self.set == other.set && self.user == other.user
    }
}

impl Eq for Tuple {
    ghost use Rattle.tuple_text.specs.OrderLaws.{tuple_equiv};

    ghost laws = { tuple_equiv };
}

impl PartialOrd for Tuple {
    ghost use Rattle.std.specs.Cmp.{partial_order_from_own_ties, partial_order_from_total};
    ghost use Rattle.std.specs.Ordering.{as_partial_cmp};
    ghost use Rattle.tuple_text.specs.Order.{tuple_cmp};
    ghost use Rattle.tuple_text.specs.OrderLaws.{tuple_total, tuple_ties};

    ghost partial_cmp = { as_partial_cmp tuple_cmp };

    ghost laws = { partial_order_from_own_ties (partial_order_from_total tuple_total) tuple_ties };

    fn partial_cmp(&self, other: &Self) -> Option<Ordering> {
        Some(self.cmp(other))
    }
}

impl Ord for Tuple {
    ghost use Rattle.std.specs.Prelude.{refl};
    ghost use Rattle.tuple_text.specs.Order.{tuple_cmp};
    ghost use Rattle.tuple_text.specs.OrderLaws.{tuple_total, tuple_ties};

    ghost cmp = { tuple_cmp };

    ghost total = { tuple_total };

    ghost matches_partial_cmp = { λ x y. refl };

    ghost matches_eq = { tuple_ties };

    fn cmp(&self, other: &Self) -> Ordering {
        self.set.cmp(&other.set).then(self.user.cmp(&other.user))
    }
}

impl Tuple {
    /// The tuple of parts that are known to be in form.
    pub(crate) fn from_parts(
        alloc: Global,
        set: SetRef<'_>,
        user: UserRef<'_>,
    ) -> Result<Tuple, AllocError>
        requires set { IsHead (set_value set) }
        requires user { IsUser (user_value user) }
        ensures { IfOk result (λ t. t ≡ tuple_of (set_value set.entry) (user_value user.entry)) }
    {
        let set = Userset::from_parts(alloc, set)?;
        let user = User::from_parts(alloc, user)?;
        Ok(Tuple { set, user })
    }

    /// The tuple, borrowed.
    pub fn as_ref(&self) -> TupleRef<'_>
        ensures { tuple_value result ≡ self.now }
    {
        TupleRef::from_parts(self.set(), self.user())
    }

    /// The userset that the user is in.
    pub fn set(&self) -> SetRef<'_>
        ensures parts { set_value result ≡ self.now.set }
        ensures form { IsHead self.now.set }
    {
        self.set.as_ref()
    }

    /// Who is in the userset.
    pub fn user(&self) -> UserRef<'_>
        ensures parts { user_value result ≡ self.now.user }
        ensures form { IsUser self.now.user }
    {
        self.user.as_ref()
    }
}
