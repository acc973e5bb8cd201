//! Users.

ghost use Rattle.std.specs.Prelude.{◌≡◌, IfOk};
ghost use Rattle.tuple_text.specs.Grammar.{IsUser};
ghost use Rattle.tuple_text.specs.Refs.{user_value};

use crate::sets::{SetRef, Userset};
use std::alloc::{AllocError, Global};

/// A user, borrowed.
#[derive(Clone, Copy, Debug, PartialEq, Eq, PartialOrd, Ord)]
pub enum UserRef<'a> {
    Id(u64),
    Set(SetRef<'a>),
}

/// A user: an id, or all members of a userset (Zanzibar, section 2.1).
#[derive(Clone, Debug, PartialEq, Eq, PartialOrd, Ord, Drop)]
pub enum User {
    Id(u64),
    Set(Userset),
}

impl User {
    /// The user of parts that are known to be in form.
    pub(crate) fn from_parts(alloc: Global, user: UserRef<'_>) -> Result<User, AllocError>
        requires { IsUser (user_value user) }
        ensures { IfOk result (λ u. u ≡ user_value user.entry) }
    {
        match user {
            UserRef::Id(id) => Ok(User::Id(id)),
            UserRef::Set(set) => Ok(User::Set(Userset::from_parts(alloc, set)?)),
        }
    }

    /// The user, borrowed.
    pub fn as_ref(&self) -> UserRef<'_>
        ensures parts { user_value result ≡ self.now }
        ensures form { IsUser self.now }
    {
        match self {
            User::Id(id) => UserRef::Id(*id),
            User::Set(set) => UserRef::Set(set.as_ref()),
        }
    }
}
