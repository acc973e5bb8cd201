//! What is read through one tupleset.

ghost use Rattle.std.specs.Prelude.{◌≡◌, ◌↔◌, ◌⊎◌, ◌≤◌, ℕ, List, None, Some, Contains, IsTrue, true, false, length, slice_get, string_bytes};
ghost use Rattle.tuple_text.specs.Refs.{set_value};
ghost use Rattle.namespaces.specs.InForce.{names_in_force};
ghost use Rattle.rewrites.specs.Parts.{computed_names, through_expression};
ghost use Rattle.strata.specs.Meaning.{with_relation};
ghost use Rattle.judgement.specs.Passes.{SomeSet};
ghost use Rattle.wide_rules.specs.AskedFact.{BarsUnder, DoesFor, GivesUnder, IsBarredBy, IsLedBy, LeadsUnder};
ghost use Rattle.judgement.specs.AskedFact.{BarsFor, GivesFor, asked_set};
ghost use Rattle.wide_rules.specs.Declaring.{AreDeclaring};
ghost use Rattle.wide_rules.specs.Kept.{AreLive};

use crate::crowded::are_barred_by_index;
use crate::declaring::is_among;
use judgement::{
    AskedFact, KnownFact, SetsOfUser, crowd_of, is_barred, is_in, is_out, stores_object, under,
};
use marks::MarkedSet;
use rewrites::Through;
use tuple_text::SetRef;
use version_chains::Usersets;

/// Up to how many relations are asked for one by one.
const FEW_RELATIONS: usize = 4;

/// The tupleset of a userset's object.
pub(crate) fn tupleset_of<'a>(set: SetRef<'a>, through: &'a Through) -> MarkedSet<'a>
    ensures { set_value result.set ≡ with_relation (set_value set.entry) (string_bytes through.now.tupleset) }
{
    MarkedSet::of(under(set, through.tupleset.as_str()))
}

/// Whether relation number `k` of a stored userset's namespace is not read, or its object does not have the user under
/// it.
fn bars_name_at<F: KnownFact>(
    fact: &AskedFact<'_, F>,
    through: &Through,
    set: MarkedSet<'_>,
    k: usize,
) -> bool
    ensures bars { IsTrue result → (c : List ℕ)
        → slice_get (names_in_force fact.now.snapshot.now.at (set_value set.entry.set).namespace
        fact.now.snapshot.now.timeline.declarations) k ≡ Some c → Contains (computed_names through.now) c
        → BarsFor fact.now (Some c) (set_value set.entry.set) }
    ensures none { BarsUnder fact.now (computed_names through.now) (set_value set.entry.set) → IsTrue result }
{
    let snapshot = fact.snapshot;
    match snapshot
        .timeline
        .rules()
        .name_in_force(set.set.namespace, snapshot.at, k)
    {
        Some(relation) => { !through.reads(relation) || is_out(fact, set, Some(relation)) }
        None => true,
    }
}

/// Whether a stored userset's object has the user under none of the relations that are read. Those that its namespace
/// does not declare have no members, so no others are asked for; there are 256 at most.
fn bars_names<F: KnownFact>(
    fact: &AskedFact<'_, F>,
    through: &Through,
    set: MarkedSet<'_>,
    declaring: &[u16],
) -> bool
    requires { AreDeclaring fact.now.snapshot.now.timeline.declarations (computed_names through.now) declaring.now }
    ensures { IsTrue result ↔ BarsUnder fact.now (computed_names through.now) (set_value set.entry.set) }
{
    let snapshot = fact.snapshot;
    snapshot.fits();
    let rules = snapshot.timeline.rules();
    if !is_among(rules, set.set.namespace, declaring) {
        return true;
    }
    for k in 0..rules.count_in_force(set.set.namespace, snapshot.at) {
        if !bars_name_at(fact, through, set, k) {
            return false;
        }
    }
    true
}

/// Whether the object of a stored userset is known to have the user under relation number `k` that is read.
fn gives_at<F: KnownFact>(
    fact: &AskedFact<'_, F>,
    through: &Through,
    one: MarkedSet<'_>,
    k: usize,
) -> bool
    ensures gives { IsTrue result → GivesUnder fact.now (computed_names through.now) (set_value one.entry.set) }
    ensures none { (c : List ℕ) → slice_get (computed_names through.now) k ≡ Some c
        → GivesFor fact.now (Some c) (set_value one.entry.set) → IsTrue result }
{
    match through.name(k) {
        Some(name) => is_in(fact, one, Some(name)),
        None => false,
    }
}

/// Whether the relation of a target is read, and a userset of its object is stored in the set.
fn leads_by_target<F: KnownFact>(
    fact: &AskedFact<'_, F>,
    through: &Through,
    target: SetRef<'_>,
) -> bool
    ensures { IsTrue result ↔ LeadsUnder fact.now (computed_names through.now) (set_value target.entry) }
{
    through.reads(target.relation) && stores_object(fact, target)
}

/// Whether the object of a stored userset is known to have the user under a relation that is read, or one of some
/// targets leads to it. It goes over both side by side; `None` where no relation does, and targets are left.
fn gives_either<F: KnownFact>(
    fact: &AskedFact<'_, F>,
    through: &Through,
    one: MarkedSet<'_>,
    targets: &mut SetsOfUser<'_, F>,
) -> Option<bool>
    ensures gives { result ≡ Some true → GivesUnder fact.now (computed_names through.now) (set_value one.entry.set)
        ⊎ SomeSet (LeadsUnder fact.now (computed_names through.now)) targets.old }
    ensures over { result ≡ Some false → ¬ SomeSet (LeadsUnder fact.now (computed_names through.now)) targets.old }
    ensures none { result ≡ None → ¬ GivesUnder fact.now (computed_names through.now) (set_value one.entry.set) }
    ensures left { result ≡ None → SomeSet (LeadsUnder fact.now (computed_names through.now)) targets.new
        ↔ SomeSet (LeadsUnder fact.now (computed_names through.now)) targets.old }
    ensures fewer { length targets.new ≤ length targets.old }
{
    for k in 0..through.computed.len() {
        if gives_at(fact, through, one, k) {
            return Some(true);
        }
        let Some(target) = targets.next() else {
            return Some(false);
        };
        if leads_by_target(fact, through, target.set) {
            return Some(true);
        }
    }
    None
}

/// Whether the object of one of some stored usersets is known to have the user under a relation that is read, or one of
/// some targets leads to it. It goes over both side by side, one tuple of the set or one relation of a stored userset at
/// a time, so it takes no more steps than there are targets, nor than tuples were ever stored and relations are read of
/// those that are.
fn leads_by_either<F: KnownFact>(
    fact: &AskedFact<'_, F>,
    through: &Through,
    stored: Usersets<'_>,
    targets: SetsOfUser<'_, F>,
) -> bool
    ensures leads { result ≡ true → SomeSet (GivesUnder fact.now (computed_names through.now)) stored.entry
        ⊎ SomeSet (LeadsUnder fact.now (computed_names through.now)) targets.entry }
    ensures none { result ≡ false → (¬ SomeSet (GivesUnder fact.now (computed_names through.now)) stored.entry)
        ⊎ (¬ SomeSet (LeadsUnder fact.now (computed_names through.now)) targets.entry) }
{
    let mut stored = stored;
    let mut targets = targets;
    while let Some(target) = targets.next() {
        if leads_by_target(fact, through, target.set) {
            return true;
        }
        let Some(step) = stored.step() else {
            return false;
        };
        if let Some(one) = step {
            if let Some(is_led) = gives_either(fact, through, one, &mut targets) {
                return is_led;
            }
        }
    }
    false
}

/// Whether some userset that is stored in the set has the user under a relation that is read, as far as that is known.
fn is_led_by_name<F: KnownFact>(fact: &AskedFact<'_, F>, through: &Through) -> bool
    ensures { IsTrue result ↔ IsLedBy fact.now (computed_names through.now) }
{
    let stored = fact.snapshot.usersets(fact.set);
    leads_by_either(fact, through, stored, fact.known.sets_of(fact.user))
}

/// Whether no userset that is stored in the set may have the user under a relation that is read, one relation after the
/// other.
fn are_barred_one_by_one<F: KnownFact>(fact: &AskedFact<'_, F>, through: &Through) -> bool
    ensures { IsTrue result ↔ IsBarredBy fact.now (computed_names through.now) }
{
    for k in 0..through.computed.len() {
        if let Some(name) = through.name(k) {
            if !is_barred(fact, Some(name)) {
                return false;
            }
        }
    }
    true
}

/// The same for all relations at once, one userset after the other.
fn are_barred_set_by_set<F: KnownFact>(
    fact: &AskedFact<'_, F>,
    through: &Through,
    declaring: &[u16],
) -> bool
    requires { AreDeclaring fact.now.snapshot.now.timeline.declarations (computed_names through.now) declaring.now }
    ensures { IsTrue result ↔ IsBarredBy fact.now (computed_names through.now) }
{
    for set in fact.snapshot.usersets(fact.set) {
        if !bars_names(fact, through, set, declaring) {
            return false;
        }
    }
    true
}

/// The same. Where the set is crowded, or many relations are read, it goes over what is stored once for all of them.
pub(crate) fn are_barred<F: KnownFact>(
    fact: &AskedFact<'_, F>,
    through: &Through,
    declaring: &[u16],
    live: &[u16],
) -> bool
    requires declaring { AreDeclaring fact.now.snapshot.now.timeline.declarations (computed_names through.now)
        declaring.now }
    requires live { AreLive fact.now.snapshot.now (asked_set fact.now) (computed_names through.now) live.now }
    ensures { IsTrue result ↔ IsBarredBy fact.now (computed_names through.now) }
{
    if live.is_empty() {
        return true;
    }
    if let Some(index) = crowd_of(fact) {
        return are_barred_by_index(fact, through, index, live);
    }
    if through.computed.len() <= FEW_RELATIONS {
        return are_barred_one_by_one(fact, through);
    }
    are_barred_set_by_set(fact, through, declaring)
}

/// Whether what is read through a tupleset gives a fact.
pub(crate) fn through_gives<F: KnownFact>(through: &Through, fact: &AskedFact<'_, F>) -> bool
    ensures { IsTrue result ↔ DoesFor fact.now true (through_expression through.now) }
{
    let set = tupleset_of(fact.set.set, through);
    let of_tupleset = AskedFact { set, ..*fact };
    is_led_by_name(&of_tupleset, through)
}
