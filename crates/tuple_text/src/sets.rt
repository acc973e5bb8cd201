//! Usersets.

ghost use Rattle.std.specs.Prelude.{◌≡◌, ◌↔◌, ◌≢◌, IfOk, OnOk, Ok, IsTrue};
ghost use Rattle.std.specs.Ordering.{as_partial_cmp};
ghost use Rattle.tuple_text.specs.Faults.{Gives};
ghost use Rattle.tuple_text.specs.Forms.{IsUserset};
ghost use Rattle.tuple_text.specs.Parts.{checked_parts, checked_userset};
ghost use Rattle.tuple_text.specs.Refs.{set_value};

use crate::fault::TupleFault;
use crate::forms::{is_name, is_object_id, is_user_relation};
use std::alloc::{AllocError, Global};
use std::cmp::Ordering;
use std::marker::Model;

/// The parts of a userset, borrowed. Nothing is promised of their form.
#[derive(Clone, Copy, Debug, PartialEq, Eq, PartialOrd, Ord)]
pub struct SetRef<'a> {
    pub namespace: &'a str,
    pub id: &'a str,
    pub relation: &'a str,
}

/// Refuses the leftmost part that is not in form, at the offset that it would have in the written text.
pub(crate) fn check_parts(set: SetRef<'_>, is_relation: bool) -> Result<(), TupleFault>
    ensures { result ≡ checked_parts (set_value set.entry) is_relation }
{
    if !is_name(set.namespace) {
        return Err(TupleFault::Namespace { at: 0 });
    }
    if !is_object_id(set.id) {
        return Err(TupleFault::ObjectId {
            at: set.namespace.len() + 1,
        });
    }
    if !is_relation {
        return Err(TupleFault::Relation {
            at: set.namespace.len() + 1 + set.id.len() + 1,
        });
    }
    Ok(())
}

/// The users that have a relation to an object: `namespace:object_id#relation`. It is one that may stand as
/// a user, so its relation may be `...` (Zanzibar, section 2.1).
#[derive(Debug, Drop)]
pub struct Userset {
    // the parts, one behind the other
    text: String,
    namespace_len: u8,
    id_len: u8,
}

impl Model for Userset {
    ghost use Rattle.std.specs.Prelude.{string_bytes};
    ghost use Rattle.tuple_text.specs.Sets.{SetValue};
    ghost use Rattle.tuple_text.specs.Joined.{split_set, IsSplit};
    ghost use Rattle.tuple_text.specs.Forms.{IsUserset};

    ghost Value = { SetValue };

    ghost view = { λ s. split_set (string_bytes s.text) s.namespace_len s.id_len };

    ghost invariant = { λ s. IsUserset (split_set (string_bytes s.text) s.namespace_len s.id_len)
        × IsSplit (string_bytes s.text) s.namespace_len s.id_len };
}

impl Clone for Userset {
    ghost is_clone = { λ s copy. copy ≡ s };

    fn clone(&self) -> Result<Self, AllocError> {
        Ok(Userset {
            text: self.text.clone()?,
            namespace_len: self.namespace_len,
            id_len: self.id_len,
        })
    }
}

impl PartialEq for Userset {
    ghost use Rattle.std.proofs.Common.{rules};
    ghost use Rattle.std.specs.Cmp.Rules.{comparing};
    ghost use Rattle.tuple_text.specs.Sets.{set_eq};

    ghost eq = { set_eq };

    ghost laws = { Prim.search (comparing, rules) };

    fn eq(&self, other: &Self) -> bool {
        self.as_ref() == other.as_ref()
    }
}

impl Eq for Userset {
    ghost use Rattle.std.proofs.Common.{rules};
    ghost use Rattle.std.specs.Cmp.Rules.{comparing};

    ghost laws = { Prim.search (comparing, rules) };
}

impl PartialOrd for Userset {
    ghost use Rattle.std.proofs.Common.{rules};
    ghost use Rattle.std.specs.Cmp.Rules.{comparing};
    ghost use Rattle.std.specs.Cmp.{partial_order_from_own_ties};
    ghost use Rattle.std.specs.Ordering.{as_partial_cmp};
    ghost use Rattle.tuple_text.specs.Sets.{set_cmp};

    ghost partial_cmp = { as_partial_cmp set_cmp };

    ghost laws = { partial_order_from_own_ties (Prim.search (comparing, rules)) (Prim.search (comparing, rules)) };

    fn partial_cmp(&self, other: &Self) -> Option<Ordering> {
        Some(self.cmp(other))
    }
}

impl Ord for Userset {
    ghost use Rattle.std.proofs.Common.{rules};
    ghost use Rattle.std.specs.Cmp.Rules.{comparing};
    ghost use Rattle.tuple_text.specs.Sets.{set_cmp};

    ghost cmp = { set_cmp };

    ghost total = { Prim.search (comparing, rules) };

    ghost matches_partial_cmp = { Prim.search (comparing, rules) };

    ghost matches_eq = { Prim.search (comparing, rules) };

    fn cmp(&self, other: &Self) -> Ordering {
        self.as_ref().cmp(&other.as_ref())
    }
}

impl Userset {
    /// The userset of these parts, which may be one that stands as a user. A refusal gives the offset that
    /// the part would have in the written text.
    pub fn of(alloc: Global, set: SetRef<'_>) -> Result<Userset, TupleFault>
        ensures exact { Gives (λ s. s) result (checked_userset (set_value set.entry)) }
    {
        check_parts(set, is_user_relation(set.relation))?;
        Ok(Userset::from_parts(alloc, set)?)
    }

    /// The userset of parts that are known to be in form.
    pub(crate) fn from_parts(alloc: Global, set: SetRef<'_>) -> Result<Userset, AllocError>
        requires { IsUserset (set_value set) }
        ensures { IfOk result (λ s. s ≡ set_value set.entry) }
    {
        let len = set.namespace.len() + set.id.len() + set.relation.len();
        let mut text = String::with_capacity(alloc, len)?;
        text.push_str(set.namespace)?;
        text.push_str(set.id)?;
        text.push_str(set.relation)?;
        Ok(Userset {
            text,
            namespace_len: set.namespace.len() as u8,
            id_len: set.id.len() as u8,
        })
    }

    /// The parts of the userset.
    pub fn as_ref(&self) -> SetRef<'_>
        ensures parts { set_value result ≡ self.now }
        ensures form { IsUserset self.now }
    {
        let (namespace, rest) = self.text.split_at(self.namespace_len as usize);
        let (id, relation) = rest.split_at(self.id_len as usize);
        SetRef {
            namespace,
            id,
            relation,
        }
    }
}
