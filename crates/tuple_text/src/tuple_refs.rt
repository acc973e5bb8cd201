//! Borrowed tuples.

ghost use Rattle.std.specs.Prelude.{◌≡◌, IfOk, MatchOption};
ghost use Rattle.tuple_text.specs.Grammar.{IsHead, IsTuple, IsUser};
ghost use Rattle.tuple_text.specs.Refs.{set_value, user_value};

use crate::forms::{is_name, is_user_relation};
use crate::sets::{SetRef, check_parts};
use crate::tuples::Tuple;
use crate::users::UserRef;
use std::alloc::{AllocError, Global};

/// A tuple, borrowed. Its parts are in form, as those of a [`Tuple`] are.
#[derive(Clone, Copy, Debug)]
pub struct TupleRef<'a> {
    set: SetRef<'a>,
    user: UserRef<'a>,
    ghost is_head: { IsHead (set_value set) },
    ghost is_user: { ∥ IsUser (user_value user) ∥₁ },
}

impl<'a> TupleRef<'a> {
    ghost use Rattle.tuple_text.specs.TupleRefs.{tuple_value};
    ghost use Rattle.tuple_text.specs.Tuples.{tuple_of};

    /// The tuple of parts that are known to be in form.
    pub fn from_parts(set: SetRef<'a>, user: UserRef<'a>) -> TupleRef<'a>
        requires set { IsHead (set_value set) }
        requires user { IsUser (user_value user) }
        ensures { tuple_value result ≡ tuple_of (set_value set.entry) (user_value user.entry) }
    {
        TupleRef { set, user }
    }

    /// The tuple of these parts, or `None` where one is not in form.
    pub fn of(set: SetRef<'a>, user: UserRef<'a>) -> Option<TupleRef<'a>>
        ensures { MatchOption result (IsTuple (tuple_of (set_value set.entry) (user_value user.entry)) → ⊥)
            (λ t. tuple_value t ≡ tuple_of (set_value set.entry) (user_value user.entry)) }
    {
        if check_parts(set, is_name(set.relation)).is_err() {
            return None;
        }
        match user {
            UserRef::Id(_) => Some(TupleRef::from_parts(set, user)),
            UserRef::Set(members) => {
                if check_parts(members, is_user_relation(members.relation)).is_err() {
                    return None;
                }
                Some(TupleRef::from_parts(set, user))
            }
        }
    }

    /// The userset that the user is in.
    pub fn set(self) -> SetRef<'a>
        ensures parts { set_value result ≡ (tuple_value self.entry).set }
        ensures form { IsHead (tuple_value self.entry).set }
    {
        self.set
    }

    /// Who is in the userset.
    pub fn user(self) -> UserRef<'a>
        ensures parts { user_value result ≡ (tuple_value self.entry).user }
        ensures form { IsUser (tuple_value self.entry).user }
    {
        self.user
    }

    /// The tuple, owned.
    pub fn to_tuple(self, alloc: Global) -> Result<Tuple, AllocError>
        ensures { IfOk result (λ t. t ≡ tuple_value self.entry) }
    {
        Tuple::from_parts(alloc, self.set, self.user)
    }
}
