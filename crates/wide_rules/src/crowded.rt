//! What is read through a crowded tupleset, under many relations.

ghost use Rattle.std.specs.Prelude.{◌≡◌, ◌↔◌, IsTrue, Contains, List, None, Some, option_map, ℕ};
ghost use Rattle.rewrites.specs.Parts.{computed_names};
ghost use Rattle.judgement.specs.Passes.{AreThroughOut, IsCrowd};
ghost use Rattle.judgement.specs.AskedFact.{IsNumberOut, asked_set, rules_over};
ghost use Rattle.wide_rules.specs.AskedFact.{IsBarredBy};
ghost use Rattle.wide_rules.specs.Kept.{AreLive};

use judgement::{AskedFact, KnownFact, is_number_out};
use rewrites::Through;
use userset_index::UsersetIndex;

/// Whether a relation is not read, or no stored userset of the namespace of a number may have the user under it.
fn is_name_out<F: KnownFact>(
    fact: &AskedFact<'_, F>,
    through: &Through,
    index: &UsersetIndex,
    number: u16,
    name: Option<&str>,
) -> bool
    ensures out { IsTrue result → (c : List ℕ) → option_map (λ s. s.now) name.entry ≡ Some c
        → Contains (computed_names through.now) c → IsNumberOut fact.now index.now.through number c }
    ensures barred { IsBarredBy fact.now (computed_names through.now) → IsTrue result }
{
    match name {
        Some(name) => !through.reads(name) || is_number_out(fact, index, name, number),
        None => true,
    }
}

/// Whether that holds of each relation of a namespace. It has 256 at most.
fn are_names_out<F: KnownFact>(
    fact: &AskedFact<'_, F>,
    through: &Through,
    index: &UsersetIndex,
    namespace: &str,
    number: u16,
) -> bool
    ensures out { IsTrue result → (c : List ℕ) → Contains (computed_names through.now) c
        → ¬ (rules_over fact.now namespace.now c ≡ None) → IsNumberOut fact.now index.now.through number c }
    ensures barred { IsBarredBy fact.now (computed_names through.now) → IsTrue result }
{
    let at = fact.snapshot.at;
    let rules = fact.snapshot.timeline.rules();
    for k in 0..rules.count_in_force(namespace, at) {
        let name = rules.name_in_force(namespace, at, k);
        if !is_name_out(fact, through, index, number, name) {
            return false;
        }
    }
    true
}

/// Whether it holds of the namespace of a number, where there is one. Where nothing of it is stored, its relations are
/// not looked at.
fn is_namespace_out<F: KnownFact>(
    fact: &AskedFact<'_, F>,
    through: &Through,
    index: &UsersetIndex,
    number: u16,
) -> bool
    ensures out { IsTrue result → (c : List ℕ) → Contains (computed_names through.now) c
        → AreThroughOut fact.now.snapshot.now index.now.through fact.now.known.now (asked_set fact.now) c fact.now.user
        number }
    ensures barred { IsBarredBy fact.now (computed_names through.now) → IsTrue result }
{
    let snapshot = fact.snapshot;
    let Some(namespace) = snapshot.timeline.rules().namespace(number) else {
        return true;
    };
    let mut touches = index.through(fact.set, number, snapshot.at);
    if touches.next().is_none() {
        return true;
    }
    are_names_out(fact, through, index, namespace, number)
}

/// Whether no userset that is stored in a crowded set may have the user under a relation that is read. It goes over the
/// namespaces of which something matters that is stored, of which there are 256 at most.
pub(crate) fn are_barred_by_index<F: KnownFact>(
    fact: &AskedFact<'_, F>,
    through: &Through,
    index: &UsersetIndex,
    numbers: &[u16],
) -> bool
    requires crowd { IsCrowd fact.now.snapshot.now (asked_set fact.now) index.now }
    requires numbers { AreLive fact.now.snapshot.now (asked_set fact.now) (computed_names through.now) numbers.now }
    ensures { IsTrue result ↔ IsBarredBy fact.now (computed_names through.now) }
{
    fact.snapshot.fits();
    for number in numbers {
        if !is_namespace_out(fact, through, index, *number) {
            return false;
        }
    }
    true
}
