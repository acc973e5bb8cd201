//! Passes over the usersets that are stored in a crowded userset, by the index of these.

ghost use Rattle.std.specs.Prelude.{◌≡◌, IsTrue, All, None, Some, option_map, ◌<◌, ◌≤◌, suc, length, ℕ};
ghost use Rattle.tuple_text.specs.Sets.{SetValue};
ghost use Rattle.tuple_text.specs.declared.users.User.TheVariants.{Set};
ghost use Rattle.namespaces.specs.Lookup.{namespace_names, place_of};
ghost use Rattle.strata.specs.Meaning.{IsStored};
ghost use Rattle.judgement.specs.AskedFact.{IsBarredFor, IsNumberOut, IsOutFor, asked_set, rules_over, tuples_over};
ghost use Rattle.judgement.specs.Passes.{AreThroughOut};

use crate::absent::{is_absent, stored_in};
use crate::asked::AskedFact;
use crate::fact::KnownFact;
use crate::stored::is_out;
use marks::MarkedSet;
use namespaces::MAX_NUMBER;
use tuple_text::{SetRef, UserRef};
use userset_index::{Alive, UsersetIndex};

/// Whether a touch of the changelog is not of a userset that is stored in a fact's userset and has a target that may
/// hold the user.
fn is_touch_out<F: KnownFact>(fact: &AskedFact<'_, F>, relation: Option<&str>, touch: usize) -> bool
    ensures out { IsTrue result → IsOutFor fact.now (option_map (λ s. s.now) relation.entry) touch }
    ensures barred { IsBarredFor fact.now (option_map (λ s. s.now) relation.entry) → IsTrue result }
{
    let snapshot = fact.snapshot;
    let Some(touch) = snapshot.timeline.chains().touch(touch) else {
        return true;
    };
    let UserRef::Set(stored) = touch.user.user else {
        return true;
    };
    let stored = MarkedSet {
        set: stored,
        mark: touch.user.mark,
    };
    if is_out(fact, stored, relation) {
        return true;
    }
    !snapshot.has_set(fact.set, stored)
}

/// Whether that holds of each of some touches.
pub fn are_out<F: KnownFact>(
    fact: &AskedFact<'_, F>,
    relation: Option<&str>,
    touches: Alive<'_>,
) -> bool
    ensures out { IsTrue result → All (IsOutFor fact.now (option_map (λ s. s.now) relation.entry)) touches.entry }
    ensures barred { IsBarredFor fact.now (option_map (λ s. s.now) relation.entry) → IsTrue result }
{
    for touch in touches {
        if !is_touch_out(fact, relation, touch) {
            return false;
        }
    }
    true
}

/// Whether it holds of each touch of a crowded set that is found by the number of a namespace.
pub fn is_number_out<F: KnownFact>(
    fact: &AskedFact<'_, F>,
    index: &UsersetIndex,
    relation: &str,
    number: u16,
) -> bool
    ensures out { IsTrue result → IsNumberOut fact.now index.now.through number relation.now }
    ensures barred { IsBarredFor fact.now (Some relation.now) → IsTrue result }
{
    let touches = index.through(fact.set, number, fact.snapshot.at);
    are_out(fact, Some(relation), touches)
}

/// The same, where that namespace declares the relation at the timestamp.
fn is_namespace_out<F: KnownFact>(
    fact: &AskedFact<'_, F>,
    index: &UsersetIndex,
    relation: &str,
    namespace: &str,
    number: u16,
) -> bool
    ensures out { IsTrue result → ¬ (rules_over fact.now namespace.now relation.now ≡ None)
        → IsNumberOut fact.now index.now.through number relation.now }
    ensures barred { IsBarredFor fact.now (Some relation.now) → IsTrue result }
{
    let target = SetRef {
        namespace,
        id: "",
        relation,
    };
    fact.snapshot.rule(target).is_none() || is_number_out(fact, index, relation, number)
}

/// Whether it holds of each touch of a crowded set that leads to a relation which is declared at the timestamp. It goes
/// over the namespaces, of which there are 256 at most, and passes over those of which it was noted that nothing is
/// stored.
pub(crate) fn are_out_through<F: KnownFact>(
    fact: &AskedFact<'_, F>,
    index: &UsersetIndex,
    relation: &str,
) -> bool
    ensures out { IsTrue result → (n : ℕ) (g : SetValue) → n < 256
        → IsStored (tuples_over fact.now) (asked_set fact.now) (Set g)
        → place_of g.namespace (namespace_names fact.now.snapshot.now.timeline.declarations) ≡ Some (suc n)
        → AreThroughOut fact.now.snapshot.now index.now.through fact.now.known.now (asked_set fact.now) relation.now
        fact.now.user (suc n) }
    ensures few { IsTrue result → length (namespace_names fact.now.snapshot.now.timeline.declarations) ≤ 256 }
    ensures barred { IsBarredFor fact.now (Some relation.now) → IsTrue result }
{
    let stored = stored_in(fact.snapshot, fact.set);
    for before in 0..MAX_NUMBER {
        let number = before + 1;
        if let Some(namespace) = fact.snapshot.timeline.rules().namespace(number) {
            if !is_absent(stored, number)
                && !is_namespace_out(fact, index, relation, namespace, number)
            {
                return false;
            }
        }
    }
    true
}
