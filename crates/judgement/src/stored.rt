//! What is stored in a userset: a user, and passes over the usersets.

ghost use Rattle.std.specs.Prelude.{◌≡◌, ◌↔◌, IfSome, IsTrue, option_map};
ghost use Rattle.tuple_text.specs.Refs.{set_value};
ghost use Rattle.strata.specs.Meaning.{with_relation};
ghost use Rattle.judgement.specs.AskedFact.{BarsFor, GivesFor, IsBarredFor, asked_set};
ghost use Rattle.judgement.specs.Passes.{EachSet, IsCrowd};

use crate::asked::AskedFact;
use crate::fact::KnownFact;
use crate::indexed::{are_out, are_out_through};
use marks::MarkedSet;
use tuple_text::SetRef;
use userset_index::UsersetIndex;
use version_chains::Usersets;

/// The same object under another relation.
pub fn under<'a>(set: SetRef<'a>, relation: &'a str) -> SetRef<'a>
    ensures { set_value result ≡ with_relation (set_value set.entry) relation.now }
{
    SetRef { relation, ..set }
}

/// Whether the target of a userset is known to hold a user: the userset itself, or its object under a relation.
pub fn is_in<F: KnownFact>(
    fact: &AskedFact<'_, F>,
    set: MarkedSet<'_>,
    relation: Option<&str>,
) -> bool
    ensures { IsTrue result ↔ GivesFor fact.now (option_map (λ s. s.now) relation.entry) (set_value set.entry.set) }
{
    match relation {
        None => fact.known.yes_marked(set, fact.user),
        Some(relation) => fact.known.yes(under(set.set, relation), fact.user),
    }
}

/// Whether the target of a userset is known not to hold a user, or is undeclared and so has no members.
pub fn is_out<F: KnownFact>(
    fact: &AskedFact<'_, F>,
    set: MarkedSet<'_>,
    relation: Option<&str>,
) -> bool
    ensures { IsTrue result ↔ BarsFor fact.now (option_map (λ s. s.now) relation.entry) (set_value set.entry.set) }
{
    match relation {
        None => fact.known.no_marked(set, fact.user) || fact.snapshot.rule(set.set).is_none(),
        Some(relation) => {
            let target = under(set.set, relation);
            fact.known.no(target, fact.user) || fact.snapshot.rule(target).is_none()
        }
    }
}

fn bars_each<F: KnownFact>(
    fact: &AskedFact<'_, F>,
    relation: Option<&str>,
    sets: Usersets<'_>,
) -> bool
    ensures { IsTrue result ↔ EachSet (BarsFor fact.now (option_map (λ s. s.now) relation.entry)) sets.entry }
{
    for set in sets {
        if !is_out(fact, set, relation) {
            return false;
        }
    }
    true
}

/// The index of the usersets that are stored in a fact's userset, where that is crowded.
pub fn crowd_of<'a, F: KnownFact>(fact: &AskedFact<'a, F>) -> Option<&'a UsersetIndex>
    ensures { IfSome result (λ index. IsCrowd fact.now.snapshot.now (asked_set fact.now) index.now) }
{
    let index = fact.snapshot.timeline.usersets();
    if index.is_crowded(fact.set) {
        Some(index)
    } else {
        None
    }
}

/// Whether no userset that is stored in a fact's userset has a target that may hold the user.
pub fn is_barred<F: KnownFact>(fact: &AskedFact<'_, F>, relation: Option<&str>) -> bool
    ensures { IsTrue result ↔ IsBarredFor fact.now (option_map (λ s. s.now) relation.entry) }
{
    let Some(index) = crowd_of(fact) else {
        return bars_each(fact, relation, fact.snapshot.usersets(fact.set));
    };
    fact.snapshot.fits();
    match relation {
        None => are_out(fact, None, index.own(fact.set, fact.snapshot.at)),
        Some(relation) => are_out_through(fact, index, relation),
    }
}
