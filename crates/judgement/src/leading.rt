//! Whether a fact holds through a userset that is stored in its own.

ghost use Rattle.std.specs.Prelude.{◌≡◌, ◌↔◌, ◌⊎◌, IsTrue, true, false, All, option_map};
ghost use Rattle.tuple_text.specs.Refs.{set_value};
ghost use Rattle.snapshots.specs.Snapshots.{tuples_in};
ghost use Rattle.judgement.specs.AskedFact.{GivesFor, IsLedFor, asked_set, tuples_over};
ghost use Rattle.judgement.specs.Passes.{AreOfOneObject, IsCrowd, IsObjectStored, IsTargetStored, IsTouchApart, SomeSet};

use crate::asked::AskedFact;
use crate::fact::KnownFact;
use crate::facts::SetsOfUser;
use crate::stored::{crowd_of, is_in};
use marks::MarkedSet;
use snapshots::Snapshot;
use tuple_text::{SetRef, UserRef};
use userset_index::{Alive, UsersetIndex};
use version_chains::Usersets;

/// Whether a touch is of a userset that is stored in a set and is of the object of another.
fn is_of_object(
    snapshot: &Snapshot<'_>,
    set: MarkedSet<'_>,
    other: SetRef<'_>,
    touch: usize,
) -> bool
    ensures stored { result ≡ true
        → IsObjectStored (tuples_in snapshot.now) (set_value set.entry.set) (set_value other.entry) }
    ensures apart { result ≡ false
        → IsTouchApart snapshot.now (set_value set.entry.set) (set_value other.entry) touch }
{
    let Some(touch) = snapshot.timeline.chains().touch(touch) else {
        return false;
    };
    let UserRef::Set(stored) = touch.user.user else {
        return false;
    };
    if stored.namespace != other.namespace || stored.id != other.id {
        return false;
    }
    let stored = MarkedSet {
        set: stored,
        mark: touch.user.mark,
    };
    touch.set == set.set && snapshot.has_set(set, stored)
}

/// Whether one of some touches is.
fn is_one_of_object(
    snapshot: &Snapshot<'_>,
    set: MarkedSet<'_>,
    other: SetRef<'_>,
    touches: Alive<'_>,
) -> bool
    ensures stored { result ≡ true
        → IsObjectStored (tuples_in snapshot.now) (set_value set.entry.set) (set_value other.entry) }
    ensures apart { result ≡ false
        → All (IsTouchApart snapshot.now (set_value set.entry.set) (set_value other.entry)) touches.entry }
{
    // It ends at the first that is stored. Those before it share the mark of the set and the object by chance.
    for touch in touches {
        if is_of_object(snapshot, set, other, touch) {
            return true;
        }
    }
    false
}

/// Whether some userset that is stored in a crowded set is of the object of another.
fn is_object_in_crowd(
    snapshot: &Snapshot<'_>,
    index: &UsersetIndex,
    set: MarkedSet<'_>,
    other: SetRef<'_>,
) -> bool
    requires { IsCrowd snapshot.now (set_value set.set) index.now }
    ensures { IsTrue result
        ↔ IsObjectStored (tuples_in snapshot.now) (set_value set.entry.set) (set_value other.entry) }
{
    snapshot.fits();
    let touches = index.of_object(set, other, snapshot.at);
    is_one_of_object(snapshot, set, other, touches)
}

/// Whether two usersets are of one object.
fn are_of_one_object(one: SetRef<'_>, other: SetRef<'_>) -> bool
    ensures { IsTrue result ↔ AreOfOneObject (set_value one.entry) (set_value other.entry) }
{
    one.namespace == other.namespace && one.id == other.id
}

/// Whether some userset that is stored in a fact's userset is of the object of another.
pub fn stores_object<F: KnownFact>(fact: &AskedFact<'_, F>, other: SetRef<'_>) -> bool
    ensures { IsTrue result ↔ IsObjectStored (tuples_over fact.now) (asked_set fact.now) (set_value other.entry) }
{
    if let Some(index) = crowd_of(fact) {
        return is_object_in_crowd(fact.snapshot, index, fact.set, other);
    }
    // of a set that is not crowded that is little
    for stored in fact.snapshot.usersets(fact.set) {
        if are_of_one_object(stored.set, other) {
            return true;
        }
    }
    false
}

/// Whether some userset that is stored in a fact's userset has this target: the userset itself, or its object under a
/// relation.
fn is_target_stored<F: KnownFact>(
    fact: &AskedFact<'_, F>,
    relation: Option<&str>,
    target: MarkedSet<'_>,
) -> bool
    ensures { IsTrue result ↔ IsTargetStored (tuples_over fact.now) (asked_set fact.now)
        (option_map (λ s. s.now) relation.entry) (set_value target.entry.set) }
{
    match relation {
        None => fact.snapshot.has_set(fact.set, target),
        Some(relation) => target.set.relation == relation && stores_object(fact, target.set),
    }
}

/// Whether one of some usersets has a target that is known to hold a user, or one of some others is the target of what
/// is stored in a fact's userset. It goes over both lists side by side, one tuple of the userset at a time, so it takes
/// no more steps than tuples of usersets were ever stored there, nor than there are others.
fn leads_either<F: KnownFact>(
    fact: &AskedFact<'_, F>,
    relation: Option<&str>,
    stored: Usersets<'_>,
    targets: SetsOfUser<'_, F>,
) -> bool
    ensures leads { result ≡ true → SomeSet (GivesFor fact.now (option_map (λ s. s.now) relation.entry)) stored.entry
        ⊎ SomeSet (IsTargetStored (tuples_over fact.now) (asked_set fact.now)
        (option_map (λ s. s.now) relation.entry)) targets.entry }
    ensures none { result ≡ false → (¬ SomeSet (GivesFor fact.now (option_map (λ s. s.now) relation.entry))
        stored.entry)
        ⊎ (¬ SomeSet (IsTargetStored (tuples_over fact.now) (asked_set fact.now)
        (option_map (λ s. s.now) relation.entry)) targets.entry) }
{
    let mut stored = stored;
    for target in targets {
        if is_target_stored(fact, relation, target) {
            return true;
        }
        let Some(step) = stored.step() else {
            return false;
        };
        if let Some(one) = step {
            if is_in(fact, one, relation) {
                return true;
            }
        }
    }
    false
}

/// Whether some userset that is stored in a fact's userset has a target that is known to hold the user.
pub(crate) fn is_led<F: KnownFact>(fact: &AskedFact<'_, F>, relation: Option<&str>) -> bool
    ensures { IsTrue result ↔ IsLedFor fact.now (option_map (λ s. s.now) relation.entry) }
{
    let stored = fact.snapshot.usersets(fact.set);
    leads_either(fact, relation, stored, fact.known.sets_of(fact.user))
}
