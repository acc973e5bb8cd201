//! The kinds of tuples, by marks.

ghost use Rattle.std.specs.Prelude.{◌≡◌, ◌∷◌, ◌++◌, [], ℕ, Contains, true, false, IfOk, OnOk};
ghost use Rattle.tuple_text.specs.Refs.{set_value, user_value};
ghost use Rattle.rule_reads.specs.Reads as marks;
ghost use Rattle.rule_reads.specs.Reads.{HasMark, IsSomeOfPair, is_pair_of, mark_of_pair, mark_of_set, mark_of_user, pair_mark, relation_of_user};

use marks::{MarkedSet, Places};
use std::alloc::{AllocError, Global};
use tuple_text::{SetRef, Tuple, UserRef};

/// Of a list of tuples the marks by which those of one kind are found: equal names have equal marks. Two tuples of
/// other names with one mark cost time, and no answer changes.
#[derive(Drop)]
pub struct Kinds {
    // of its relation
    pub sets: Places,
    // of its user's relation
    pub users: Places,
    // of its relation and the namespace of its user
    pub pairs: Places,
}

/// The mark of a relation.
pub(crate) fn relation_mark(namespace: &str, relation: &str) -> u64
    ensures { result ≡ marks.relation_mark namespace.now relation.now }
{
    let set = MarkedSet::of(SetRef {
        namespace,
        id: "",
        relation,
    });
    set.mark
}

/// The mark of a relation and a namespace of users.
fn pair_mark(set: SetRef<'_>, users: &str) -> u64
    ensures { result ≡ pair_mark (set_value set.entry) users.now }
{
    let set = MarkedSet::of(SetRef {
        namespace: set.namespace,
        id: users,
        relation: set.relation,
    });
    set.mark
}

fn relation_of_user(user: UserRef<'_>) -> SetRef<'_>
    ensures { set_value result ≡ relation_of_user (user_value user.entry) }
{
    match user {
        UserRef::Id(_) => SetRef {
            namespace: "",
            id: "",
            relation: "",
        },
        UserRef::Set(set) => SetRef { id: "", ..set },
    }
}

/// Whether a tuple is of this relation, and its user a userset of that namespace.
fn is_pair_of(set: SetRef<'_>, users: &str, tuple: &Tuple) -> bool
    ensures { result ≡ is_pair_of (set_value set.entry) users.now tuple.now }
{
    match tuple.user() {
        UserRef::Set(user) => {
            let one = tuple.set();
            one.namespace == set.namespace
                && one.relation == set.relation
                && user.namespace == users
        }
        UserRef::Id(_) => false,
    }
}

/// Whether a mark is among these.
pub(crate) fn has_mark(marks: &Places, mark: u64) -> bool
    ensures some { result ≡ true → Contains marks.now mark }
    ensures none { result ≡ false → ¬ Contains marks.now mark }
{
    marks.newest(mark) > 0
}

/// Adds a mark, unless it is there. Answers whether it is new.
pub(crate) fn take_mark(marks: &mut Places, mark: u64) -> Result<bool, AllocError>
    ensures { IfOk result (λ is_new. HasMark mark is_new marks.old marks.new) }
{
    if has_mark(marks, mark) {
        return Ok(false);
    }
    marks.push(mark)?;
    Ok(true)
}

impl Kinds {
    pub fn new(alloc: Global) -> Kinds
        ensures sets { result.sets ≡ [] }
        ensures users { result.users ≡ [] }
        ensures pairs { result.pairs ≡ [] }
    {
        Kinds {
            sets: Places::new(alloc),
            users: Places::new(alloc),
            pairs: Places::new(alloc),
        }
    }

    /// Adds a tuple behind the others.
    pub fn push(&mut self, tuple: &Tuple) -> Result<(), AllocError>
        ensures sets { OnOk result (self.new.sets ≡ self.old.sets ++ mark_of_set tuple.now ∷ []) }
        ensures users { OnOk result (self.new.users ≡ self.old.users ++ mark_of_user tuple.now ∷ []) }
        ensures pairs { OnOk result (self.new.pairs ≡ self.old.pairs ++ mark_of_pair tuple.now ∷ []) }
    {
        let set = tuple.set();
        let user = relation_of_user(tuple.user());
        self.sets.push(relation_mark(set.namespace, set.relation))?;
        self.users
            .push(relation_mark(user.namespace, user.relation))?;
        self.pairs.push(pair_mark(set, user.namespace))
    }

    /// Whether tuples of the relation with users of that namespace may be there.
    pub fn has_pair(&self, set: SetRef<'_>, users: &str) -> bool
        ensures { result ≡ false → ¬ Contains self.now.pairs (pair_mark (set_value set.entry) users.now) }
    {
        has_mark(&self.pairs, pair_mark(set, users))
    }

    /// Whether among the tuples there is one of this one's relation, whose user is of the same namespace. Only the
    /// last is looked at that has such a mark.
    pub fn knows_pair(&self, tuples: &[Tuple], tuple: &Tuple) -> bool
        ensures { result ≡ true → IsSomeOfPair tuple.now.set (relation_of_user tuple.now.user).namespace tuples.now }
    {
        let set = tuple.set();
        let UserRef::Set(user) = tuple.user() else {
            return false;
        };
        let place = self.pairs.newest(pair_mark(set, user.namespace));
        match tuples.get(place.wrapping_sub(1)) {
            Some(one) => is_pair_of(set, user.namespace, one),
            None => false,
        }
    }
}
